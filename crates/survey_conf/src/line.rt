//! The lines of a text, and what is written in one.
ghost use Rattle.std.specs.Prelude.{◌≡◌, ℕ, ◌<◌, ◌&&◌, ◌==◌, nat_lt, position, List, ◌∷◌, length, Some, None, if◌then◌else◌};
ghost use Rattle.std.specs.List.{list_all, list_any};
ghost use Rattle.std.specs.Option.{option_map};
ghost use Rattle.survey_conf.specs.Lines;
ghost use Rattle.survey_conf.specs.Lines.{lines, key_in, value_in, is_equals, has_form};

use crate::blanks::trimmed;
use memchr::memchr;

// The greatest number of bytes of a key.
const LONGEST_KEY: usize = 64;

// The greatest number of bytes of a value.
const LONGEST_VALUE: usize = 1024;

/// The first line of a text that is not empty, and what follows its line feed.
pub(crate) fn first_line(text: &[u8]) -> (&[u8], &[u8])
    requires { 0 < length text.now }
    ensures lines { lines text.now ≡ result.0.now ∷ lines result.1.now }
    ensures shorter { length result.1.now < length text.now }
{
    match place_of(b'\n', text) {
        Some(at) => (&text[..at], &text[at + 1..]),
        None => (text, &[]),
    }
}

/// What is written in a line: the line without one carriage return at its end, trimmed.
#[tactic(auto, unfolding(crate::specs::Lines::content))]
pub(crate) fn content(line: &[u8]) -> &[u8]
    ensures { result.now ≡ Lines.content line.now }
{
    match line {
        [front @ .., b'\r'] => trimmed(front),
        _ => trimmed(line),
    }
}

/// Whether what is written is skipped: nothing, or a comment.
pub(crate) fn is_skipped(written: &[u8]) -> bool
    ensures { result ≡ Lines.is_skipped written.now }
{
    match written {
        [] => true,
        [first, ..] => *first == b'#',
    }
}

/// The key and the value that are written; `None` if and only if what is written is not of that form.
pub(crate) fn pair(written: &[u8]) -> Option<(&[u8], &[u8])>
    ensures { option_map {U = List ℕ × List ℕ} (λ p. (p.0.now, p.1.now)) result
        ≡ (if has_form written.now then Some (key_in written.now, value_in written.now) else None) }
{
    match parts(written) {
        Some((key, value)) if is_key(key) && is_value(value) => Some((key, value)),
        _ => None,
    }
}

/// What stands before the first `=` and after it, trimmed.
pub(crate) fn parts(written: &[u8]) -> Option<(&[u8], &[u8])>
    ensures { option_map {U = List ℕ × List ℕ} (λ p. (p.0.now, p.1.now)) result
        ≡ (if list_any is_equals written.now then Some (key_in written.now, value_in written.now) else None) }
{
    match place_of(b'=', written) {
        Some(at) => Some((trimmed(&written[..at]), trimmed(&written[at + 1..]))),
        None => None,
    }
}

// Where a byte first stands.
fn place_of(byte: u8, bytes: &[u8]) -> Option<usize>
    ensures { result ≡ position (λ b. b == byte) bytes.now }
{
    memchr(byte, bytes)
}

/// Whether the bytes are a key.
#[tactic(auto, unfolding(crate::specs::Lines::is_key))]
pub(crate) fn is_key(bytes: &[u8]) -> bool
    ensures { result ≡ Lines.is_key bytes.now }
{
    match bytes {
        [] => false,
        [first, rest @ ..] => first.is_ascii_lowercase() && ends_key(rest),
    }
}

// Whether the bytes may stand after the first letter of a key.
fn ends_key(bytes: &[u8]) -> bool
    ensures { result ≡ (list_all Lines.is_key_byte bytes.now && nat_lt (length bytes.now) 64) }
{
    are_key_bytes(bytes) && bytes.len() < LONGEST_KEY
}

fn are_key_bytes(bytes: &[u8]) -> bool
    ensures { result ≡ list_all Lines.is_key_byte bytes.now }
{
    bytes.iter().all(|byte| is_key_byte(*byte))
}

fn is_key_byte(byte: u8) -> bool
    ensures { result ≡ Lines.is_key_byte byte }
{
    matches!(byte, b'a'..=b'z' | b'0'..=b'9' | b'_')
}

#[tactic(auto, unfolding(crate::specs::Lines::is_value))]
fn is_value(bytes: &[u8]) -> bool
    ensures { result ≡ Lines.is_value bytes.now }
{
    !bytes.is_empty() && bytes.len() <= LONGEST_VALUE && are_value_bytes(bytes)
}

fn are_value_bytes(bytes: &[u8]) -> bool
    ensures { result ≡ list_all Lines.is_value_byte bytes.now }
{
    bytes.iter().all(|byte| is_value_byte(*byte))
}

// Whether the byte is no control character of ASCII.
fn is_value_byte(byte: u8) -> bool
    ensures { result ≡ Lines.is_value_byte byte }
{
    byte >= b' ' && byte != 0x7f
}
