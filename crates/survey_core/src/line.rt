//! The line of an entry in the body of a batch.
ghost use Rattle.std.specs.Prelude.{◌≡◌, ℕ, ◌==◌, ◌^◌, ◌<◌, ◌≤◌, position, List, codes, Some, IfSome, option_map};
ghost use Rattle.healpix_nested.specs.Cells.{cell_count};
ghost use Rattle.survey_core.specs.Line.{cut, number_below, verb_of, tiled_line, line_by, line_of, line_at};

use decimal_scale::plain_decimal;
use healpix_nested::cells;
use memchr::memchr;

/// What is done with the tile that follows a line.
#[derive(Clone, Copy, Debug, PartialEq, Eq)]
pub(crate) enum Verb {
    Put,
    Add,
    Replace,
}

/// What a line says.
#[derive(Clone, Copy, Debug, PartialEq, Eq)]
pub(crate) enum Line {
    /// A tile file of `len` bytes follows.
    Tiled { verb: Verb, leaf: u64, len: u64 },
    Remove { leaf: u64 },
}

/// The line at the front of the bytes, in a survey whose leaves are of order `top`, and what follows its line feed; `None`
/// if and only if the bytes don't begin with a line.
#[tactic(auto, unfolding(crate::specs::Line::line_at))]
pub(crate) fn line_at(bytes: &[u8], top: u8) -> Option<(Line, &[u8])>
    requires { top ≤ 11 }
    ensures { option_map {U = Line × List ℕ} (λ found. (found.0, found.1.now)) result ≡ line_at top bytes.now }
{
    let (text, rest) = cut(b'\n', bytes)?;
    let line = line_of(text, top)?;
    Some((line, rest))
}

// What a line says, up to its line feed.
#[tactic(auto, unfolding(crate::specs::Line::line_of))]
fn line_of(text: &[u8], top: u8) -> Option<Line>
    requires { top ≤ 11 }
    ensures { result ≡ line_of top text.now }
{
    let (word, numbers) = cut(b' ', text)?;
    line_by(word, numbers, top)
}

// What a line says by its word and what follows this.
#[tactic(auto, unfolding(crate::specs::Line::line_by))]
fn line_by(word: &[u8], numbers: &[u8], top: u8) -> Option<Line>
    requires { top ≤ 11 }
    ensures { result ≡ line_by top word.now numbers.now }
{
    if word == b"remove".as_slice() {
        let leaf = number_below(cells(top), numbers)?;
        return Some(Line::Remove { leaf });
    }
    let verb = verb_of(word)?;
    tiled_line(verb, numbers, top)
}

#[tactic(auto, unfolding(crate::specs::Line::verb_of))]
fn verb_of(word: &[u8]) -> Option<Verb>
    ensures { result ≡ verb_of word.now }
{
    if word == b"put".as_slice() {
        Some(Verb::Put)
    } else if word == b"add".as_slice() {
        Some(Verb::Add)
    } else if word == b"replace".as_slice() {
        Some(Verb::Replace)
    } else {
        None
    }
}

// The leaf, and the length of the tile file that follows.
#[tactic(auto, unfolding(crate::specs::Line::tiled_line))]
fn tiled_line(verb: Verb, numbers: &[u8], top: u8) -> Option<Line>
    requires { top ≤ 11 }
    ensures { result ≡ tiled_line top verb numbers.now }
{
    let (leaf, len) = cut(b' ', numbers)?;
    let leaf = number_below(cells(top), leaf)?;
    let len = number_below(1 << 32, len)?;
    Some(Line::Tiled { verb, leaf, len })
}

// A number below the limit, in plain decimals.
#[tactic(auto, unfolding(crate::specs::Line::number_below))]
fn number_below(limit: u64, text: &[u8]) -> Option<u64>
    ensures { result ≡ number_below limit text.now }
{
    plain_decimal(text).filter(|number| *number < limit)
}

// What is before the first such byte, and what is after it.
fn cut(byte: u8, bytes: &[u8]) -> Option<(&[u8], &[u8])>
    ensures { option_map {U = List ℕ × List ℕ} (λ parts. (parts.0.now, parts.1.now)) result ≡ cut byte bytes.now }
{
    let at = place_of(byte, bytes)?;
    Some((&bytes[..at], &bytes[at + 1..]))
}

// Where a byte first is.
fn place_of(byte: u8, bytes: &[u8]) -> Option<usize>
    ensures { result ≡ position (λ b. b == byte) bytes.now }
{
    memchr(byte, bytes)
}
