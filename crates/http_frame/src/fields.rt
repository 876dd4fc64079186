//! The fields of a head, by name.
ghost use Rattle.std.specs.Prelude.{◌≡◌, ◌≤◌, length, map, All};
ghost use Rattle.arrayvec.specs.ArrayVec.{array_vec_len};
ghost use Rattle.httparse.specs.Spans.{header_bytes, IsHeaderWithin};
ghost use Rattle.http_frame.specs.Fields.{has_field, values};

use arrayvec::ArrayVec;
use httparse::spans::HeaderSpan;
use std::marker::Model;

/// The greatest number of fields in a head.
pub const MAX_FIELDS: usize = 64;

/// The fields of a head: its bytes, and where in them each name and each value is.
#[derive(Drop)]
pub struct Fields<'a> {
    head: &'a [u8],
    spans: &'a [HeaderSpan],
}

impl<'a> Model for Fields<'a> {
    ghost use Rattle.std.specs.Prelude.{◌≤◌, List, length, map, All};
    ghost use Rattle.httparse.specs.Spans.{header_bytes, IsHeaderWithin};
    ghost use Rattle.http_frame.specs.Fields.{NamedValue};

    ghost Value = { List NamedValue };

    ghost view = { λ f. map (header_bytes f.head.now) f.spans.now };

    ghost invariant = { λ f. All (IsHeaderWithin (length f.head.now)) f.spans.now × (length f.spans.now ≤ 64) };
}

impl<'a> Fields<'a> {
    /// The fields of a head at these places.
    pub fn new(head: &'a [u8], spans: &'a [HeaderSpan]) -> Fields<'a>
        requires count { length spans.now ≤ 64 }
        requires within { All (IsHeaderWithin (length head.now)) spans.now }
        ensures { result ≡ map (header_bytes head.now) spans.now }
    {
        Fields { head, spans }
    }

    /// The values of the fields with the name, in order.
    pub fn values(&self, name: &[u8]) -> ArrayVec<&'a [u8], MAX_FIELDS>
        ensures values { map (λ value. value.now) result.items ≡ values name.now self.now }
        ensures len { array_vec_len result ≡ length (values name.now self.now) }
    {
        let mut values: ArrayVec<&'a [u8], MAX_FIELDS> = ArrayVec::new();
        for span in self.spans {
            if span.name.of(self.head).eq_ignore_ascii_case(name) {
                values.push(span.value.of(self.head));
            }
        }
        values
    }

    /// Whether some field has the name.
    pub fn has(&self, name: &[u8]) -> bool
        ensures { result ≡ has_field name.now self.now }
    {
        !self.values(name).is_empty()
    }
}
