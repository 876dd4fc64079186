//! Where bytes go to, and the writing of all of some bytes.
ghost use Rattle.std.specs.Prelude.{◌≡◌, ℕ, ◌<◌, ◌≤◌, List, Option, length, take, is_err, IfOk, OnOk, OnErr};
ghost use Rattle.std.specs.Io.KnownBytes.{Appends};
ghost use Rattle.survey_link.specs.Link.{CountsFault, AppendsPrefix, parts_bytes};

use crate::faults::Failed;
use crate::parts::{rest_of, total};

/// Where bytes go to.
pub trait Sink {
    /// The bytes held, where the proof can see them.
    ghost held: { Self → Option (List ℕ) };

    /// Those of the bytes held that were flushed, where the proof can see them.
    ghost flushed: { Self → Option (List ℕ) };

    /// How often it has failed: a call that answers `Failed` raises the count, and no other call does.
    ghost faults: { Self → ℕ };

    /// The number of its connection among those of the door that it came through, where the proof can see it. It never
    /// changes.
    ghost number: { Self → Option ℕ };

    /// Writes a prefix of `buf`, at least one byte, and answers how many. What was flushed stays.
    ///
    /// # Errors
    ///
    /// `Failed` only where the count of faults rose; what is held stays.
    fn write(&mut self, buf: &[u8]) -> Result<usize, Failed>
        requires { 0 < length buf.now }
        ensures some { IfOk result (λ m. 0 < m) }
        ensures count { IfOk result (λ m. m ≤ length buf.now) }
        ensures appended { IfOk result (λ m. Appends (held self.old) (held self.new) (take m buf.now)) }
        ensures kept { OnErr result (held self.new ≡ held self.old) }
        ensures flushed { flushed self.new ≡ flushed self.old }
        ensures faults { CountsFault (is_err result) (faults self.old) (faults self.new) }
        ensures never_falls { faults self.old ≤ faults self.new }
        ensures same { number self.new ≡ number self.old };

    /// As `write` of the parts one after another, which aren't all empty.
    ///
    /// # Errors
    ///
    /// As for `write`.
    fn write_parts(&mut self, parts: [&[u8]; 4]) -> Result<usize, Failed>
        requires { 0 < length (parts_bytes parts) }
        ensures some { IfOk result (λ m. 0 < m) }
        ensures count { IfOk result (λ m. m ≤ length (parts_bytes parts.entry)) }
        ensures appended { IfOk result (λ m. Appends (held self.old) (held self.new) (take m (parts_bytes parts.entry))) }
        ensures kept { OnErr result (held self.new ≡ held self.old) }
        ensures flushed { flushed self.new ≡ flushed self.old }
        ensures faults { CountsFault (is_err result) (faults self.old) (faults self.new) }
        ensures never_falls { faults self.old ≤ faults self.new }
        ensures same { number self.new ≡ number self.old };

    /// Flushes all that is held.
    ///
    /// # Errors
    ///
    /// `Failed` only where the count of faults rose; what is held stays, and so does what was flushed.
    fn flush(&mut self) -> Result<(), Failed>
        ensures kept { held self.new ≡ held self.old }
        ensures flushed { OnOk result (flushed self.new ≡ held self.new) }
        ensures stays { OnErr result (flushed self.new ≡ flushed self.old) }
        ensures faults { CountsFault (is_err result) (faults self.old) (faults self.new) }
        ensures never_falls { faults self.old ≤ faults self.new }
        ensures same { number self.new ≡ number self.old };
}

/// Writes all the bytes.
///
/// # Errors
///
/// `Failed` only where the sink's count of faults rose; a prefix may have been written.
pub fn write_whole<K: Sink>(sink: &mut K, bytes: &[u8]) -> Result<(), Failed>
    ensures whole { OnOk result (Appends (K.held sink.old) (K.held sink.new) bytes.now) }
    ensures part { OnErr result (AppendsPrefix (K.held sink.old) (K.held sink.new) bytes.now) }
    ensures flushed { K.flushed sink.new ≡ K.flushed sink.old }
    ensures faults { CountsFault (is_err result) (K.faults sink.old) (K.faults sink.new) }
    ensures never_falls { K.faults sink.old ≤ K.faults sink.new }
{
    let mut rest = bytes;
    while !rest.is_empty() {
        let written = sink.write(rest)?;
        rest = &rest[written..];
    }
    Ok(())
}

/// Writes all the parts, one after another, by one call where the sink takes all.
///
/// # Errors
///
/// `Failed` only where the sink's count of faults rose; a prefix may have been written.
pub fn write_all_parts<K: Sink>(sink: &mut K, parts: [&[u8]; 4]) -> Result<(), Failed>
    ensures whole { OnOk result (Appends (K.held sink.old) (K.held sink.new) (parts_bytes parts.entry)) }
    ensures part { OnErr result (AppendsPrefix (K.held sink.old) (K.held sink.new) (parts_bytes parts.entry)) }
    ensures flushed { K.flushed sink.new ≡ K.flushed sink.old }
    ensures faults { CountsFault (is_err result) (K.faults sink.old) (K.faults sink.new) }
    ensures never_falls { K.faults sink.old ≤ K.faults sink.new }
{
    let mut rest = parts;
    while total(rest) > 0 {
        let written = sink.write_parts(rest)?;
        rest = rest_of(rest, written);
    }
    Ok(())
}
