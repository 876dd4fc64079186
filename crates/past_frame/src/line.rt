//! The line of a record.
ghost use Rattle.std.specs.Prelude.{◌≡◌, ℕ, ◌==◌, ◌^◌, ◌+◌, ◌<◌, ◌≤◌, position, List, codes, option_map, IfSome};
ghost use Rattle.past_frame.specs.Line.{RecordLine, line_content, cut, number_below, batch_of, read_of, line_by, line_of, space};

use decimal_scale::plain_decimal;
use survey_link::place_of;

/// What a line asks for.
#[derive(Clone, Copy, Debug, PartialEq, Eq)]
pub(crate) enum Line<'a> {
    /// That the batch be accepted whose body follows.
    Batch { length: usize },
    /// The file at a path, by the first `k` edits.
    Read { k: u32, path: &'a [u8] },
}

/// What a line says, without its line feed; `None` if and only if it is no line of a record. The body of a batch has at most
/// `room` bytes.
#[tactic(auto, unfolding(crate::specs::Line::line_of))]
pub(crate) fn line_of(room: usize, text: &[u8]) -> Option<Line<'_>>
    requires { room ≤ 2 ^ 30 }
    ensures { option_map line_content result ≡ line_of room text.now }
{
    let (word, rest) = cut(text)?;
    line_by(room, word, rest)
}

// What a line says by its word and what follows the space behind this.
#[tactic(auto, unfolding(crate::specs::Line::line_by))]
fn line_by<'a>(room: usize, word: &[u8], rest: &'a [u8]) -> Option<Line<'a>>
    requires { room ≤ 2 ^ 30 }
    ensures { option_map line_content result ≡ line_by room word.now rest.now }
{
    if word == b"batch".as_slice() {
        return batch_of(room, rest);
    }
    if word == b"read".as_slice() {
        return read_of(rest);
    }
    None
}

// The length of the body of a batch.
#[tactic(auto, unfolding(crate::specs::Line::batch_of))]
fn batch_of(room: usize, rest: &[u8]) -> Option<Line<'_>>
    requires { room ≤ 2 ^ 30 }
    ensures { option_map line_content result ≡ batch_of room rest.now }
{
    let length = number_below(room as u64 + 1, rest)?;
    Some(Line::Batch {
        length: length as usize,
    })
}

// How many edits a read has, and its path.
#[tactic(auto, unfolding(crate::specs::Line::read_of))]
fn read_of(rest: &[u8]) -> Option<Line<'_>>
    ensures { option_map line_content result ≡ read_of rest.now }
{
    let (number, path) = cut(rest)?;
    let k = number_below(1 << 32, number)?;
    Some(Line::Read { k: k as u32, path })
}

// A number below the limit, in plain decimals.
#[tactic(auto, unfolding(crate::specs::Line::number_below))]
fn number_below(limit: u64, text: &[u8]) -> Option<u64>
    ensures number { result ≡ number_below limit text.now }
    ensures below { IfSome result (λ number. number < limit) }
{
    plain_decimal(text).filter(|number| *number < limit)
}

// What is before the first space, and what is after it.
#[tactic(auto, unfolding(crate::specs::Line::cut))]
fn cut(text: &[u8]) -> Option<(&[u8], &[u8])>
    ensures { option_map {U = List ℕ × List ℕ} (λ parts. (parts.0.now, parts.1.now)) result ≡ cut text.now }
{
    let at = place_of(b' ', text)?;
    Some((&text[..at], &text[at + 1..]))
}
