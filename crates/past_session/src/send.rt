//! Answers are written.
ghost use Rattle.std.specs.Prelude.{◌≡◌, ◌≤◌, ◌++◌, is_err, OnOk, OnErr};
ghost use Rattle.survey_link.specs.Link.{CountsFault, AppendsPrefix};
ghost use Rattle.command_output.specs.Output.{sink_bytes};
ghost use Rattle.past_session.specs.Steps.{Sends};

use survey_link::{Failed, Sink, write_all_parts, write_whole};

/// Writes a line and a file in three parts, and flushes them.
///
/// # Errors
///
/// `Failed` only where the sink's count of faults rose; a prefix may have been written.
pub(crate) fn send_parts<'a, K: Sink>(
    sink: &mut K,
    line: &'a [u8],
    front: &'a [u8],
    kept: &'a [u8],
    zeros: &'a [u8],
) -> Result<(), Failed>
    ensures sends { OnOk result (Sends (line.now ++ front.now ++ kept.now ++ zeros.now) (sink_bytes K.Sink sink.old) (sink_bytes K.Sink sink.new)) }
    ensures part { OnErr result (AppendsPrefix (K.held sink.old) (K.held sink.new) (line.now ++ front.now ++ kept.now ++ zeros.now)) }
    ensures stays { OnErr result (K.flushed sink.new ≡ K.flushed sink.old) }
    ensures faults { CountsFault (is_err result) (K.faults sink.old) (K.faults sink.new) }
    ensures never_falls { K.faults sink.old ≤ K.faults sink.new }
{
    write_all_parts(sink, [line, front, kept, zeros])?;
    sink.flush()
}

/// Writes a text, and flushes it.
///
/// # Errors
///
/// As for `send_parts`.
pub(crate) fn send_text<K: Sink>(sink: &mut K, text: &[u8]) -> Result<(), Failed>
    ensures sends { OnOk result (Sends text.now (sink_bytes K.Sink sink.old) (sink_bytes K.Sink sink.new)) }
    ensures part { OnErr result (AppendsPrefix (K.held sink.old) (K.held sink.new) text.now) }
    ensures stays { OnErr result (K.flushed sink.new ≡ K.flushed sink.old) }
    ensures faults { CountsFault (is_err result) (K.faults sink.old) (K.faults sink.new) }
    ensures never_falls { K.faults sink.old ≤ K.faults sink.new }
{
    write_whole(sink, text)?;
    sink.flush()
}
