//! Reading of one record.
ghost use Rattle.std.specs.Prelude.{◌≡◌, ◌==◌, ◌+◌, ◌^◌, ◌<◌, ◌≤◌, ◌++◌, ℕ, List, length, position, Some, Err, is_err, IfOk, IfErr, OnOk, OnErr};
ghost use Rattle.survey_link.specs.Link.{CountsFault, readings_after};
ghost use Rattle.survey_link.specs.Inbox.{held, size};
ghost use Rattle.http_frame.specs.Fill.{Takes};
ghost use Rattle.http_frame.specs.Frame.{IsShort};
ghost use Rattle.http_frame.specs.Readings.{ReadsWhile};
ghost use Rattle.past_frame.specs.Line.{batch_line, line_of, line_feed};
ghost use Rattle.past_frame.specs.Record.{most_line};
ghost use Rattle.past_frame.specs.Reading.{NeedsMore, ReadsRecord, LooksOn, NeedsLine, StopsLine, read_failed};

use crate::line::{Line, line_of};
use crate::record::{Record, RecordStop};
use http_frame::take_exact;
use survey_link::{Failed, Inbox, Source, place_of};

/// The greatest length of a line with its line feed: an inbox has so much room.
pub const MAX_LINE: usize = 128;

/// Reads the next record, and its text into `text`. A record is a line of at most 128 bytes with its line feed,
/// `batch LENGTH` or `read K PATH`, numbers in plain decimals, K below 2^32, and behind the line of a batch its body of LENGTH
/// bytes, at most `room`. The source is read only while the bytes that came are no whole record, and may become one. What came
/// behind it stays held.
///
/// # Errors
///
/// `End` if and only if the input ends before the record; `Cut` if and only if it ends within it; `BadLine` if and only if no
/// line of a record comes; `ReadFault` only where the source's count of faults rose; `OutOfMemory`.
pub fn read_record<S: Source>(
    inbox: &mut Inbox,
    src: &mut S,
    text: &mut Vec<u8>,
    room: usize,
) -> Result<Record, RecordStop>
    requires size { size inbox.old ≡ most_line }
    requires room { room ≤ 2 ^ 30 }
    ensures read { (came : List ℕ) × ReadsWhile S.left S.readings (NeedsMore room) (held inbox.old) src.old src.new came
        × ReadsRecord room (held inbox.old ++ came) text.new.items (held inbox.new) (S.left src.new) result }
    ensures faults { CountsFault (read_failed result) (S.faults src.old) (S.faults src.new) }
    ensures never_falls { S.faults src.old ≤ S.faults src.new }
    ensures size { size inbox.new ≡ size inbox.old }
{
    match fill_line(inbox, src) {
        Ok(end) => take_record(inbox, src, text, room, end),
        Err(stop) => Err(stop),
    }
}

/// Whether bytes follow the last record. One of them is then no longer held.
///
/// # Errors
///
/// `Failed` only where the source's count of faults rose; nothing is held then.
pub fn has_more<S: Source>(inbox: &mut Inbox, src: &mut S) -> Result<bool, Failed>
    ensures looks { (came : List ℕ) × ReadsWhile S.left S.readings (IsShort 1) (held inbox.old) src.old src.new came
        × LooksOn (held inbox.old ++ came) (S.left src.new) result }
    ensures faults { CountsFault (is_err result) (S.faults src.old) (S.faults src.new) }
    ensures never_falls { S.faults src.old ≤ S.faults src.new }
    ensures size { size inbox.new ≡ size inbox.old }
{
    take_exact(inbox, src, &mut [0])
}

// Takes the record whose line feed is the byte `end` of those that are held.
fn take_record<S: Source>(
    inbox: &mut Inbox,
    src: &mut S,
    text: &mut Vec<u8>,
    room: usize,
    end: usize,
) -> Result<Record, RecordStop>
    requires size { size inbox.old ≡ most_line }
    requires room { room ≤ 2 ^ 30 }
    requires end { position (λ b. b == line_feed) (held inbox.old) ≡ Some end }
    ensures read { (came : List ℕ) × ReadsWhile S.left S.readings (NeedsMore room) (held inbox.old) src.old src.new came
        × ReadsRecord room (held inbox.old ++ came) text.new.items (held inbox.new) (S.left src.new) result }
    ensures faults { CountsFault (read_failed result) (S.faults src.old) (S.faults src.new) }
    ensures never_falls { S.faults src.old ≤ S.faults src.new }
    ensures size { size inbox.new ≡ size inbox.old }
{
    match line_of(room, &inbox.held()[..end]) {
        None => Err(RecordStop::BadLine),
        Some(Line::Batch { length }) => {
            text.resize(length, 0)?;
            inbox.give(end + 1);
            match take_exact(inbox, src, text) {
                Ok(true) => Ok(Record::Batch),
                Ok(false) => Err(RecordStop::Cut),
                Err(Failed) => Err(RecordStop::ReadFault),
            }
        }
        Some(Line::Read { k, path }) => {
            keep_path(text, path)?;
            inbox.give(end + 1);
            Ok(Record::Read { k })
        }
    }
}

// Makes the path the text of the record.
fn keep_path(text: &mut Vec<u8>, path: &[u8]) -> Result<(), RecordStop>
    ensures kept { OnOk result (text.new.items ≡ path.now) }
    ensures stop { OnErr result (result ≡ Err RecordStop.OutOfMemory) }
{
    text.clear();
    text.extend_from_slice(path)?;
    Ok(())
}

// Reads until a line is held, and answers the place of its line feed.
fn fill_line<S: Source>(inbox: &mut Inbox, src: &mut S) -> Result<usize, RecordStop>
    requires { size inbox.old ≡ most_line }
    ensures found { IfOk result (λ end. position (λ b. b == line_feed) (held inbox.new) ≡ Some end) }
    ensures read { (came : List ℕ) × ReadsWhile S.left S.readings NeedsLine (held inbox.old) src.old src.new came × (held inbox.new ≡ held inbox.old ++ came) }
    ensures stop { IfErr result (StopsLine (held inbox.new) (S.left src.new)) }
    ensures faults { CountsFault (read_failed result) (S.faults src.old) (S.faults src.new) }
    ensures never_falls { S.faults src.old ≤ S.faults src.new }
    ensures size { size inbox.new ≡ size inbox.old }
{
    loop {
        let held = inbox.held();
        if let Some(end) = place_of(b'\n', held) {
            return Ok(end);
        }
        if held.len() >= MAX_LINE {
            return Err(RecordStop::BadLine);
        }
        read_more(inbox, src)?;
    }
}

// Reads once behind the bytes that are held, which are fewer than those of the longest line.
fn read_more<S: Source>(inbox: &mut Inbox, src: &mut S) -> Result<(), RecordStop>
    requires size { size inbox.old ≡ most_line }
    requires needed { NeedsLine (held inbox.old) }
    ensures taken { Takes (held inbox.old) (held inbox.new) (S.left src.old) (S.left src.new) }
    ensures more { OnOk result (length (held inbox.old) < length (held inbox.new)) }
    ensures counted { S.readings src.new ≡ readings_after 1 (S.readings src.old) }
    ensures stop { IfErr result (StopsLine (held inbox.new) (S.left src.new)) }
    ensures faults { CountsFault (read_failed result) (S.faults src.old) (S.faults src.new) }
    ensures never_falls { S.faults src.old ≤ S.faults src.new }
    ensures size { size inbox.new ≡ size inbox.old }
{
    match inbox.read_more(src, MAX_LINE) {
        Ok(count) => {
            if count > 0 {
                Ok(())
            } else if inbox.held().is_empty() {
                Err(RecordStop::End)
            } else {
                Err(RecordStop::Cut)
            }
        }
        Err(Failed) => Err(RecordStop::ReadFault),
    }
}
