//! The input, line by line.
ghost use Rattle.std.specs.Prelude.{◌≡◌, ◌<◌, ◌≤◌, ◌++◌, ℕ, List, Option, length, None, Ok, IfOk, IfSome, is_err, IsNone, OnErr};
ghost use Rattle.std.specs.Io.KnownBytes.{Consumes, IsAtEnd};
ghost use Rattle.survey_link.specs.Link.{CountsFault};
ghost use Rattle.survey_link.specs.Inbox.{held, size};
ghost use Rattle.catalog_command.specs.Lines.{most_bytes};
ghost use Rattle.catalog_command.specs.Unread.{place_of_feed, IsFound, Receives};

use crate::found::Found;
use survey_link::{Failed, Inbox, Source, place_of};

// How many bytes a line has at most, with its line feed.
const MOST_BYTES: usize = 512;

/// How many bytes are read at once at most.
pub(crate) const ROOM: usize = 65_536;

/// What comes next in the input, of which no more is read than decides it.
///
/// # Errors
///
/// `Failed` only where the source's count of faults rose.
pub(crate) fn find<S: Source>(inbox: &mut Inbox, source: &mut S) -> Result<Found, Failed>
    requires size { size inbox.old ≡ 65536 }
    ensures found { IfOk result (IsFound (held inbox.new) (S.left source.new)) }
    ensures received { Receives (held inbox.old) (held inbox.new) (S.left source.old) (S.left source.new) }
    ensures faults { CountsFault (is_err result) (S.faults source.old) (S.faults source.new) }
    ensures size { size inbox.new ≡ size inbox.old }
{
    'reading: loop {
        if let Some(found) = told(inbox.held()) {
            return Ok(found);
        }
        if inbox.read_more(source, ROOM)? == 0 {
            return Ok(at_end(inbox.held()));
        }
    }
}

// What comes next, if the bytes held decide it.
fn told(held: &[u8]) -> Option<Found>
    ensures found { IfSome result (λ found. (left : Option (List ℕ)) → IsFound held.now left found) }
    ensures few { IsNone result → length held.now < most_bytes }
    ensures none { IsNone result → place_of_feed held.now ≡ None }
{
    if held.len() < MOST_BYTES {
        return match place_of(b'\n', held) {
            Some(count) => Some(Found::Line(count)),
            None => None,
        };
    }
    match place_of(b'\n', &held[..MOST_BYTES]) {
        Some(count) => Some(Found::Line(count)),
        None => Some(Found::Long),
    }
}

// What comes next, if the bytes held don't decide it and nothing follows them.
fn at_end(held: &[u8]) -> Found
    requires few { length held.now < most_bytes }
    requires none { place_of_feed held.now ≡ None }
    ensures { (left : Option (List ℕ)) → IsAtEnd left → IsFound held.now left result }
{
    if held.is_empty() {
        Found::End
    } else {
        Found::Cut
    }
}
