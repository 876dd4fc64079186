//! Whole numbers in decimal text.
ghost use Rattle.std.specs.Prelude.{◌≡◌, ◌≢◌, ℕ, ◌^◌, ◌<◌, ◌≤◌, true, false, length, slice_index, decimal, MatchOption};
ghost use Rattle.std.specs.Str.Parse.{starts_with_minus, without_leading_sign};
ghost use Rattle.decimal_scale.specs.Whole.{plain_value, whole_value};

/// The number below 2^64 that the text is in plain decimals: one or more digits, without a sign and without a leading zero;
/// `None` if and only if it is none.
pub fn plain_decimal(text: &[u8]) -> Option<u64>
    ensures number { result ≡ plain_value text.now }
    ensures spelled { MatchOption result ((n : ℕ) → n < 2 ^ 64 → text.now ≢ decimal n) (λ n. text.now ≡ decimal n) }
{
    if !starts_plain(text) {
        return None;
    }
    match std::str::from_utf8(text) {
        Ok(text) => text.parse::<u64>().ok(),
        Err(_) => None,
    }
}

// Whether the text starts with a digit, and with `0` only where that is the whole text.
fn starts_plain(text: &[u8]) -> bool
    ensures yes { result ≡ true → (48 ≤ slice_index text.now 0) × (slice_index text.now 0 ≡ 48 → length text.now ≡ 1) }
    ensures no { result ≡ false → (n : ℕ) → n < 2 ^ 64 → text.now ≢ decimal n }
{
    match text.first() {
        Some(b'0') => text.len() == 1,
        Some(first) => first.is_ascii_digit(),
        None => false,
    }
}

/// The number of 64 bits that the text is with an optional sign and one or more digits, leading zeros among them or not;
/// `None` if and only if it is none (FITS 4.0, section 4.2.3).
pub fn whole_number(text: &[u8]) -> Option<i64>
    ensures { result ≡ whole_value text.now }
{
    match std::str::from_utf8(text) {
        Ok(text) => text.parse::<i64>().ok(),
        Err(_) => None,
    }
}

/// Whether the text begins with `-`, and the text without its sign, which is `-` or `+`, or the whole text where it has none.
pub fn split_sign(text: &[u8]) -> (bool, &[u8])
    ensures negative { result.0 ≡ starts_with_minus text.now }
    ensures rest { result.1.now ≡ without_leading_sign text.now }
{
    match text {
        [b'-', rest @ ..] => (true, rest),
        [b'+', rest @ ..] => (false, rest),
        _ => (false, text),
    }
}
