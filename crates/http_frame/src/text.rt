//! Small readings of bytes.
ghost use Rattle.std.specs.Prelude.{◌≡◌, ◌-◌, ◌^◌, min, reverse, None, Some, if◌then◌else◌};
ghost use Rattle.std.specs.Str.Parse.{digits_value};
ghost use Rattle.httparse.specs.Grammar.{is_ows, skip_ows, trim_ows};
ghost use Rattle.http_frame.specs.Fields.{has_item, same_text};
ghost use Rattle.http_frame.specs.Refusal.{is_digits};
ghost use Rattle.http_frame.specs.Request.{is_star};

fn is_blank(byte: u8) -> bool
    ensures { result ≡ is_ows byte }
{
    byte == b' ' || byte == b'\t'
}

// The text without the spaces and tabs at its start.
fn trim_start(text: &[u8]) -> &[u8]
    ensures { result.now ≡ skip_ows text.now }
{
    let mut rest = text;
    while let [first, tail @ ..] = rest
        && is_blank(*first)
    {
        rest = tail;
    }
    rest
}

// The text without the spaces and tabs at its end.
fn trim_end(text: &[u8]) -> &[u8]
    ensures { result.now ≡ reverse (skip_ows (reverse text.now)) }
{
    let mut rest = text;
    while let [head @ .., last] = rest
        && is_blank(*last)
    {
        rest = head;
    }
    rest
}

// The text without the spaces and tabs at its ends.
fn trim_blanks(text: &[u8]) -> &[u8]
    ensures { result.now ≡ trim_ows text.now }
{
    trim_end(trim_start(text))
}

/// Whether the texts differ at most by the case of ASCII letters.
pub(crate) fn same_text(a: &[u8], b: &[u8]) -> bool
    ensures { result ≡ same_text a.now b.now }
{
    a.eq_ignore_ascii_case(b)
}

/// Whether one of the value's items between commas is this one, in any case.
pub(crate) fn has_item(value: &[u8], item: &[u8]) -> bool
    ensures { result ≡ has_item item.now value.now }
{
    value
        .split(|byte| *byte == b',')
        .any(|part| same_text(trim_blanks(part), item))
}

/// Whether the text is `*`.
pub(crate) fn is_star(text: &[u8]) -> bool
    ensures { result ≡ is_star text.now }
{
    matches!(text, b"*")
}

/// The number that the digits write, at most `u64::MAX`; `None` if and only if the text isn't one or more digits.
pub fn digits(text: &[u8]) -> Option<u64>
    ensures { result ≡ (if is_digits text.now then Some (min (digits_value 10 text.now) (2 ^ 64 - 1)) else None) }
{
    if text.is_empty() {
        return None;
    }
    let mut number: u64 = 0;
    for byte in text {
        if !byte.is_ascii_digit() {
            return None;
        }
        number = number
            .saturating_mul(10)
            .saturating_add(u64::from(*byte - b'0'));
    }
    Some(number)
}
