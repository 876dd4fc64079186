//! What a command writes.
ghost use Rattle.std.specs.Prelude.{◌≡◌, ◌≢◌, ◌⊎◌, ℕ, List, Some, nat_eq, is_err, OnOk, OnErr};
ghost use Rattle.std.specs.Io.KnownBytes.{Appends};
ghost use Rattle.survey_link.specs.Link.{CountsFault, AppendsPrefix};
ghost use Rattle.command_output.specs.Output.{Says, line_of, sink_bytes};
ghost use Rattle.command_output.specs.Status.{number_of};

use crate::status::Status;
use std::alloc::Global;
use std::fmt::Display;
use survey_link::{Failed, Sink, write_whole};

/// Writes what is shown as a line and flushes it, and answers the status: `own`, or `WriteFault` where the sink failed, or
/// `OutOfMemory` where there was no memory for the line, of which nothing is then written.
pub fn say<T: Display, K: Sink>(alloc: Global, sink: &mut K, own: Status, shown: &T) -> Status
    ensures said { (text : List ℕ) → T.output shown.now ≡ Some text → Says (number_of own) (line_of text) (number_of result)
        (sink_bytes K.Sink sink.old) (sink_bytes K.Sink sink.new) }
    ensures status { (result ≡ own) ⊎ ((result ≡ Status.WriteFault) ⊎ (result ≡ Status.OutOfMemory)) }
    ensures write_fault { own ≢ Status.WriteFault → CountsFault (nat_eq (number_of result) 6) (K.faults sink.old) (K.faults sink.new) }
{
    match format!(in alloc; "{shown}\n") {
        Ok(line) => match write_out(sink, line.as_bytes()) {
            Ok(()) => own,
            Err(Failed) => Status::WriteFault,
        },
        Err(_) => Status::OutOfMemory,
    }
}

/// Writes all the bytes, and flushes them.
///
/// # Errors
///
/// `Failed` only where the sink's count of faults rose; a prefix may have been written.
pub fn write_out<K: Sink>(sink: &mut K, bytes: &[u8]) -> Result<(), Failed>
    ensures whole { OnOk result (Appends (K.held sink.old) (K.held sink.new) bytes.now) }
    ensures part { OnErr result (AppendsPrefix (K.held sink.old) (K.held sink.new) bytes.now) }
    ensures flushed { OnOk result (K.flushed sink.new ≡ K.held sink.new) }
    ensures faults { CountsFault (is_err result) (K.faults sink.old) (K.faults sink.new) }
{
    write_whole(sink, bytes)?;
    sink.flush()
}
