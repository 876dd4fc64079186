//! Reading of one reply.
ghost use Rattle.std.specs.Prelude.{◌≡◌, ◌≢◌, ◌<◌, ◌≤◌, ◌++◌, length, take, drop, Ok, Err, IfOk, IfErr, OnOk, OnErr, IsNone, IfSome, Option, ℕ, List};
ghost use Rattle.std.specs.Io.KnownBytes.{IsAtEnd};
ghost use Rattle.survey_link.specs.Link.{CountsFault};
ghost use Rattle.survey_link.specs.Inbox.{held, size};
ghost use Rattle.http_frame.specs.Next.{NeedsMore, most_head};
ghost use Rattle.http_frame.specs.Readings.{ReadsWhile};
ghost use Rattle.mirror_frame.specs.Reply.{BeginsReply, SaysReply, FitsPrefix, FitsBody, IsCutReply};
ghost use Rattle.mirror_frame.specs.Reading.{StopsBegin, ReadsReply, of_stopped, read_failed};

use crate::due::Due;
use crate::head::{ReplyHead, read_head};
use http_frame::{FrameStop, fill_head, take_exact};
use std::alloc::AllocError;
use survey_link::{Failed, Inbox, Source};

/// Why a request has no reply.
#[derive(Clone, Copy, Debug, PartialEq, Eq)]
pub enum ReplyStop {
    /// The reply is malformed.
    Wrong,
    /// The input ended within the reply.
    Cut,
    /// The source failed.
    ReadFault,
    /// The sink failed.
    WriteFault,
    /// There was no memory.
    OutOfMemory,
}

impl From<AllocError> for ReplyStop {
    ghost use Rattle.std.specs.Prelude.{◌≡◌};
    ghost use Rattle.mirror_frame.specs.declared.reading.ReplyStop.TheVariants as stop;

    ghost from_gives = { λ _ stopped. stopped ≡ stop.OutOfMemory };

    fn from(_error: AllocError) -> ReplyStop {
        ReplyStop::OutOfMemory
    }
}

// Reads the next reply into `body`, and answers its Survey-Prefix. What came behind it stays held.
pub(crate) fn read_reply<S: Source>(
    inbox: &mut Inbox,
    src: &mut S,
    body: &mut Vec<u8>,
    due: Due,
) -> Result<Option<u32>, ReplyStop>
    requires { size inbox.old ≡ most_head }
    ensures read { (came : List ℕ) × ReadsWhile S.left S.readings (IsCutReply due) (held inbox.old) src.old src.new came
        × ReadsReply due (held inbox.old ++ came) body.new.items (held inbox.new) (S.left src.new) result }
    ensures faults { CountsFault (read_failed result) (S.faults src.old) (S.faults src.new) }
    ensures size { size inbox.new ≡ size inbox.old }
{
    match begin_reply(inbox, src, due) {
        Ok(begun) => finish_reply(inbox, src, body, due, begun),
        Err(stop) => Err(stop),
    }
}

// Reads the body of the reply whose head is held.
fn finish_reply<S: Source>(
    inbox: &mut Inbox,
    src: &mut S,
    body: &mut Vec<u8>,
    due: Due,
    begun: Begun,
) -> Result<Option<u32>, ReplyStop>
    requires begun { BeginsReply due (held inbox.old) begun.end begun.head.length begun.head.prefix }
    requires end { begun.end ≤ length (held inbox.old) }
    ensures read { (came : List ℕ) × ReadsWhile S.left S.readings (IsCutReply due) (held inbox.old) src.old src.new came
        × ReadsReply due (held inbox.old ++ came) body.new.items (held inbox.new) (S.left src.new) result }
    ensures faults { CountsFault (read_failed result) (S.faults src.old) (S.faults src.new) }
    ensures size { size inbox.new ≡ size inbox.old }
{
    body.resize(begun.head.length, 0)?;
    inbox.give(begun.end);
    match take_exact(inbox, src, body) {
        Ok(true) => judge_body(body, due, begun.head.prefix),
        Ok(false) => Err(ReplyStop::Cut),
        Err(Failed) => Err(ReplyStop::ReadFault),
    }
}

// The Survey-Prefix of a reply, where its body is that of the reply that is due.
fn judge_body(body: &[u8], due: Due, prefix: Option<u32>) -> Result<Option<u32>, ReplyStop>
    ensures told { IfOk result (λ p. (p ≡ prefix) × FitsBody due prefix body.now) }
    ensures wrong { IfErr result (λ stop. (stop ≡ ReplyStop.Wrong) × ¬ FitsBody due prefix body.now) }
{
    if due.fits_body(prefix, body) {
        Ok(prefix)
    } else {
        Err(ReplyStop::Wrong)
    }
}

// A head that was read, and where it ends in the bytes that are held.
#[derive(Clone, Copy)]
struct Begun {
    end: usize,
    head: ReplyHead,
}

// Reads until the head of the reply that is due is held.
fn begin_reply<S: Source>(inbox: &mut Inbox, src: &mut S, due: Due) -> Result<Begun, ReplyStop>
    requires { size inbox.old ≡ most_head }
    ensures begun { IfOk result (λ begun. BeginsReply due (held inbox.new) begun.end begun.head.length begun.head.prefix) }
    ensures end { IfOk result (λ begun. begun.end ≤ length (held inbox.new)) }
    ensures read { (came : List ℕ) × ReadsWhile S.left S.readings NeedsMore (held inbox.old) src.old src.new came × (held inbox.new ≡ held inbox.old ++ came) }
    ensures stop { IfErr result (StopsBegin due (held inbox.new) (S.left src.new)) }
    ensures faults { CountsFault (read_failed result) (S.faults src.old) (S.faults src.new) }
    ensures size { size inbox.new ≡ size inbox.old }
{
    match fill_head(inbox, src) {
        Ok(end) => match judge_head(&inbox.held()[..end], due) {
            Some(head) => Ok(Begun { end, head }),
            None => Err(ReplyStop::Wrong),
        },
        Err(stopped) => Err(stop_of(stopped)),
    }
}

// Why no reply is read where no head was.
fn stop_of(stopped: FrameStop) -> ReplyStop
    ensures { result ≡ of_stopped stopped }
{
    match stopped {
        FrameStop::Refuse(_) => ReplyStop::Wrong,
        FrameStop::End | FrameStop::Cut => ReplyStop::Cut,
        FrameStop::ReadFault => ReplyStop::ReadFault,
    }
}

// What the head says, where it is one of the reply that is due.
fn judge_head(text: &[u8], due: Due) -> Option<ReplyHead>
    ensures says { IfSome result (λ head. SaysReply text.now head.length head.prefix × FitsPrefix due head.prefix) }
    ensures none { IsNone result → (n : ℕ) (prefix : Option ℕ) → SaysReply text.now n prefix → ¬ FitsPrefix due prefix }
{
    match read_head(text) {
        Some(head) => {
            if due.fits_prefix(head.prefix) {
                Some(head)
            } else {
                None
            }
        }
        None => None,
    }
}
