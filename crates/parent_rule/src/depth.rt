//! What the stored numbers of a survey are.
ghost use Rattle.std.specs.Prelude.{◌≡◌, ◌*◌, ◌↔◌, IsSome, IfSome, IsTrue};
ghost use Rattle.parent_rule.specs.Depth.{is_bitpix, least_number, greatest_number, IsNumber};
ghost use Rattle.parent_rule.specs.declared.combine.Combine.TheVariants.{Mean};

use crate::combine::Combine;
use std::marker::Model;

/// What the stored numbers of a survey are: their width in bits, the number that says that a pixel is blank,
/// and the way to combine four of them. 8 bits hold 0 to 255, 16, 32 and 64 bits hold two's complement
/// (FITS 4.0, BITPIX and BLANK).
#[derive(Clone, Copy, Debug, PartialEq, Eq, Hash)]
pub struct Depth {
    bitpix: u8,
    blank: i64,
    combine: Combine,
}

impl Model for Depth {
    ghost use Rattle.std.specs.Prelude.{IsTrue};
    ghost use Rattle.parent_rule.specs.Depth.{PixelDepth, is_bitpix, IsNumber};

    ghost Value = { PixelDepth };

    ghost view = { λ d. record { bitpix = d.bitpix; blank = d.blank; combine = d.combine } };

    ghost invariant = { λ d. IsTrue (is_bitpix d.bitpix) × IsNumber d.bitpix d.blank };

    ghost inverse = { λ v. record { bitpix = v.bitpix; blank = v.blank; combine = v.combine } };
}

impl Depth {
    /// The depth with that width and that blank number, combined by the mean; `None` if and only if the width isn't
    /// 8, 16, 32 or 64, or the blank number isn't a number of that width.
    pub fn new(bitpix: u8, blank: i64) -> Option<Depth>
        ensures known { IsSome result ↔ (IsTrue (is_bitpix bitpix) × IsNumber bitpix blank) }
        ensures bitpix { IfSome result (λ depth. depth.bitpix ≡ bitpix) }
        ensures blank { IfSome result (λ depth. depth.blank ≡ blank) }
        ensures combine { IfSome result (λ depth. depth.combine ≡ Mean) }
    {
        let (least, greatest) = match ends(bitpix) {
            None => return None,
            Some(ends) => ends,
        };
        if blank < least || greatest < blank {
            return None;
        }
        Some(Depth {
            bitpix,
            blank,
            combine: Combine::Mean,
        })
    }

    /// The same depth with that way to combine.
    pub fn with(self, combine: Combine) -> Depth
        ensures { result ≡ record self { combine = combine } }
    {
        Depth { combine, ..self }
    }

    /// The way to combine.
    pub fn combine(self) -> Combine
        ensures { result ≡ self.combine }
    {
        self.combine
    }

    /// The width of a number in bits: 8, 16, 32 or 64.
    pub fn bitpix(self) -> u8
        ensures bitpix { result ≡ self.bitpix }
        ensures known { IsTrue (is_bitpix result) }
    {
        self.bitpix
    }

    /// The number that says that a pixel is blank.
    pub fn blank(self) -> i64
        ensures blank { result ≡ self.blank }
        ensures number { IsNumber self.bitpix result }
    {
        self.blank
    }

    /// The width of a number in bytes.
    pub fn bytes(self) -> usize
        ensures bytes { 8 * result ≡ self.bitpix }
    {
        usize::from(self.bitpix / 8)
    }

    /// Whether the number is one of that width.
    pub fn holds(self, number: i64) -> bool
        ensures { IsTrue result ↔ IsNumber self.bitpix number }
    {
        match ends(self.bitpix) {
            None => false,
            Some((least, greatest)) => least <= number && number <= greatest,
        }
    }
}

// The least and the greatest number of a width; `None` where no number has that width.
fn ends(bitpix: u8) -> Option<(i64, i64)>
    ensures known { IsSome result ↔ IsTrue (is_bitpix bitpix) }
    ensures least { IfSome result (λ ends. ends.0 ≡ least_number bitpix) }
    ensures greatest { IfSome result (λ ends. ends.1 ≡ greatest_number bitpix) }
{
    match bitpix {
        8 => Some((0, 255)),
        16 => Some((i64::from(i16::MIN), i64::from(i16::MAX))),
        32 => Some((i64::from(i32::MIN), i64::from(i32::MAX))),
        64 => Some((i64::MIN, i64::MAX)),
        _ => None,
    }
}
