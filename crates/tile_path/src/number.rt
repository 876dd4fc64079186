//! Numbers in plain decimals within a text.
ghost use Rattle.std.specs.Prelude.{ℕ, ◌<◌, ◌≤◌, List, length, slice_index, MatchOption};
ghost use Rattle.std.specs.Int.{IsInRange};
ghost use Rattle.tile_path.specs.Numbers.{HasNumber};

use decimal_scale::plain_decimal;

/// The number, below 2^64 and in plain decimals, that follows the word at the front of the text, and the rest of the text,
/// which doesn't begin with a digit.
pub(crate) fn number_after<'a>(text: &'a [u8], word: &[u8]) -> Option<(u64, &'a [u8])>
    ensures { MatchOption result
        ((number : ℕ) (rest : List ℕ) → ¬ HasNumber text.now word.now number rest)
        (λ found. HasNumber text.now word.now found.0 found.1.now) }
{
    let numbered = text.strip_prefix(word)?;
    let (digits, rest) = numbered.split_at(digits_end(numbered));
    let number = plain_decimal(digits)?;
    Some((number, rest))
}

// Where the digits at the front of the text end.
fn digits_end(text: &[u8]) -> usize
    ensures within { result ≤ length text.now }
    ensures digits { (i : ℕ) → i < result → IsInRange 48 57 (slice_index text.now i) }
    ensures ends { result < length text.now → ¬ (IsInRange 48 57 (slice_index text.now result)) }
{
    for (i, byte) in text.iter().enumerate() {
        if !byte.is_ascii_digit() {
            return i;
        }
    }
    text.len()
}
