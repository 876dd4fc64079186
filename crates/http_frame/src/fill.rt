//! Reading of a connection until a whole head or a whole body is held.
ghost use Rattle.std.specs.Prelude.{◌≡◌, ◌≢◌, ◌⊎◌, ◌<◌, ◌≤◌, ◌+◌, ◌-◌, ◌^◌, ℕ, List, [], ◌++◌, length, take, Ok, IfOk, is_err, IfErr, OnErr, OnOk, IfSome, IsNone, true, false};
ghost use Rattle.std.specs.Io.KnownBytes.{Consumes, IsAtEnd};
ghost use Rattle.survey_link.specs.Link.{CountsFault, readings_after};
ghost use Rattle.memchr.specs.Find.{OccursAt, Nowhere};
ghost use Rattle.survey_link.specs.Inbox.{held, size};
ghost use Rattle.http_frame.specs.Next.{IsHeadLength, HasNoHead, NeedsMore, head_end, most_head};
ghost use Rattle.http_frame.specs.Fill.{Takes, EndsShort, StopsFill, StopsBodyFill, read_failed};
ghost use Rattle.http_frame.specs.Frame.{IsShort};
ghost use Rattle.http_frame.specs.Readings.{ReadsWhile};

use crate::stop::FrameStop;
use memchr::memmem;
use survey_link::{Failed, Inbox, Source};

/// The greatest length of a head in bytes.
pub const MAX_HEAD: usize = 8192;

/// Reads until a whole head is held, and answers its length. The source is read only while the bytes held don't have one.
///
/// # Errors
///
/// `Refuse` (431) where 8,192 bytes have none; `End` where the input ends and nothing is held, `Cut` where something is;
/// `ReadFault` only where the source's count of faults rose.
pub fn fill_head<S: Source>(buffer: &mut Inbox, src: &mut S) -> Result<usize, FrameStop>
    requires size { most_head ≤ size buffer.old }
    requires places { (buffer.old.start ≡ buffer.old.end) ⊎ (buffer.old.end ≤ most_head) }
    ensures found { IfOk result (IsHeadLength (held buffer.new)) }
    ensures taken { Takes (held buffer.old) (held buffer.new) (S.left src.old) (S.left src.new) }
    ensures stop { IfErr result (StopsFill (held buffer.new) (S.left src.new)) }
    ensures faults { CountsFault (read_failed result) (S.faults src.old) (S.faults src.new) }
    ensures needed { (came : List ℕ) × ReadsWhile S.left S.readings NeedsMore (held buffer.old) src.old src.new came × (held buffer.new ≡ held buffer.old ++ came) }
    ensures untouched { (NeedsMore (held buffer.old) → ⊥) → src.new ≡ src.old }
    ensures never_falls { S.faults src.old ≤ S.faults src.new }
    ensures places { (buffer.new.start ≡ buffer.new.end) ⊎ (buffer.new.end ≤ most_head) }
    ensures size { size buffer.new ≡ size buffer.old }
{
    let mut searched = 0;
    loop {
        let held = buffer.held();
        if let Some(length) = head_length(held, searched) {
            return Ok(length);
        }
        if held.len() >= MAX_HEAD {
            return Err(FrameStop::Refuse(431));
        }
        searched = held.len();
        read_more(buffer, src)?;
    }
}

// Reads once behind the bytes that are held, which are fewer than those of the longest head.
fn read_more<S: Source>(buffer: &mut Inbox, src: &mut S) -> Result<(), FrameStop>
    requires size { most_head ≤ size buffer.old }
    requires needed { NeedsMore (held buffer.old) }
    ensures taken { Takes (held buffer.old) (held buffer.new) (S.left src.old) (S.left src.new) }
    ensures more { OnOk result (length (held buffer.old) < length (held buffer.new)) }
    ensures counted { S.readings src.new ≡ readings_after 1 (S.readings src.old) }
    ensures stop { IfErr result (StopsFill (held buffer.new) (S.left src.new)) }
    ensures faults { CountsFault (read_failed result) (S.faults src.old) (S.faults src.new) }
    ensures same { OnErr result (held buffer.new ≡ held buffer.old) }
    ensures never_falls { S.faults src.old ≤ S.faults src.new }
    ensures places { buffer.new.end ≤ most_head }
    ensures size { size buffer.new ≡ size buffer.old }
{
    buffer.move_to_front();
    match buffer.read(src, MAX_HEAD) {
        Ok(count) => {
            if count > 0 {
                Ok(())
            } else if buffer.held().is_empty() {
                Err(FrameStop::End)
            } else {
                Err(FrameStop::Cut)
            }
        }
        Err(Failed) => Err(FrameStop::ReadFault),
    }
}

/// The length of the head that the held bytes begin with, of which the first `searched` have no end of a head.
pub fn head_length(held: &[u8], searched: usize) -> Option<usize>
    requires most { length held.now ≤ most_head }
    requires searched { searched ≤ length held.now }
    requires none { Nowhere (OccursAt held.now head_end) 0 (searched - 3) }
    ensures found { IfSome result (IsHeadLength held.now) }
    ensures none { IsNone result → HasNoHead held.now }
{
    let from = searched.saturating_sub(3);
    let found = memmem::find(&held[from..], b"\r\n\r\n")?;
    Some(from + found + 4)
}

/// Reads until so many bytes of a body are held.
pub(crate) fn fill_body<S: Source>(
    buffer: &mut Inbox,
    src: &mut S,
    count: usize,
) -> Result<(), FrameStop>
    requires room { buffer.old.start + count ≤ size buffer.old }
    ensures taken { Takes (held buffer.old) (held buffer.new) (S.left src.old) (S.left src.new) }
    ensures filled { OnOk result (count ≤ length (held buffer.new)) }
    ensures exact { OnOk result ((held buffer.new ≡ held buffer.old) ⊎ (length (held buffer.new) ≡ count)) }
    ensures stop { IfErr result (StopsBodyFill count (held buffer.new) (S.left src.new)) }
    ensures faults { CountsFault (read_failed result) (S.faults src.old) (S.faults src.new) }
    ensures needed { (came : List ℕ) × ReadsWhile S.left S.readings (IsShort count) (held buffer.old) src.old src.new came × (held buffer.new ≡ held buffer.old ++ came) }
    ensures untouched { count ≤ length (held buffer.old) → src.new ≡ src.old }
    ensures never_falls { S.faults src.old ≤ S.faults src.new }
    ensures start { buffer.new.start ≡ buffer.old.start }
    ensures size { size buffer.new ≡ size buffer.old }
{
    let end = buffer.start() + count;
    while buffer.held().len() < count {
        match buffer.read(src, end) {
            Ok(read) => {
                if read == 0 {
                    return Err(FrameStop::Cut);
                }
            }
            Err(Failed) => return Err(FrameStop::ReadFault),
        }
    }
    Ok(())
}

/// Takes the next bytes of a connection into all of `out`, those that are held first, and answers whether the input has so
/// many. The source is read only while they are fewer.
///
/// # Errors
///
/// `Failed` only where the source's count of faults rose.
pub fn take_exact<S: Source>(inbox: &mut Inbox, src: &mut S, out: &mut [u8]) -> Result<bool, Failed>
    ensures taken { result ≡ Ok true → Takes (held inbox.old) (out.new ++ held inbox.new) (S.left src.old) (S.left src.new) }
    ensures cut { result ≡ Ok false → EndsShort (length out.old) (held inbox.old) (S.left src.old) (S.left src.new) }
    ensures needed { (came : List ℕ) × ReadsWhile S.left S.readings (IsShort (length out.old)) (held inbox.old) src.old src.new came
        × (result ≡ Ok true → out.new ++ held inbox.new ≡ held inbox.old ++ came) × (result ≢ Ok true → IsShort (length out.old) (held inbox.old ++ came)) }
    ensures faults { CountsFault (is_err result) (S.faults src.old) (S.faults src.new) }
    ensures never_falls { S.faults src.old ≤ S.faults src.new }
    ensures len { length out.new ≡ length out.old }
    ensures size { size inbox.new ≡ size inbox.old }
{
    let front = inbox.give_to(out);
    fill_behind(src, out, front)
}

// Fills `out` behind its first `start` bytes, and answers whether the input has so many.
fn fill_behind<S: Source>(src: &mut S, out: &mut [u8], start: usize) -> Result<bool, Failed>
    requires { start ≤ length out.old }
    ensures taken { result ≡ Ok true → Takes (take start out.old) out.new (S.left src.old) (S.left src.new) }
    ensures cut { result ≡ Ok false → EndsShort (length out.old) (take start out.old) (S.left src.old) (S.left src.new) }
    ensures needed { (came : List ℕ) × ReadsWhile S.left S.readings (IsShort (length out.old)) (take start out.old) src.old src.new came
        × (result ≡ Ok true → out.new ≡ take start out.old ++ came) × (result ≢ Ok true → IsShort (length out.old) (take start out.old ++ came)) }
    ensures faults { CountsFault (is_err result) (S.faults src.old) (S.faults src.new) }
    ensures never_falls { S.faults src.old ≤ S.faults src.new }
    ensures len { length out.new ≡ length out.old }
{
    let mut at = start;
    while at < out.len() {
        match read_behind(src, out, at) {
            Ok(0) => return Ok(false),
            Ok(count) => at += count,
            Err(failed) => return Err(failed),
        }
    }
    Ok(true)
}

// Reads once behind the first `at` bytes, and answers how many bytes came.
fn read_behind<S: Source>(src: &mut S, bytes: &mut [u8], at: usize) -> Result<usize, Failed>
    requires { at < length bytes.old }
    ensures read { IfOk result (λ count. Takes (take at bytes.old) (take (at + count) bytes.new) (S.left src.old) (S.left src.new)) }
    ensures within { IfOk result (λ count. at + count ≤ length bytes.new) }
    ensures counted { S.readings src.new ≡ readings_after 1 (S.readings src.old) }
    ensures end { result ≡ Ok 0 → IsAtEnd (S.left src.new) }
    ensures kept { OnErr result (S.left src.new ≡ S.left src.old) }
    ensures front { take at bytes.new ≡ take at bytes.old }
    ensures faults { CountsFault (is_err result) (S.faults src.old) (S.faults src.new) }
    ensures never_falls { S.faults src.old ≤ S.faults src.new }
    ensures len { length bytes.new ≡ length bytes.old }
{
    let count = src.read(&mut bytes[at..])?;
    Ok(count)
}
