//! Answers to reads.
ghost use Rattle.std.specs.Prelude.{◌≡◌, ◌≤◌, None, Err, IfErr, OnOk};
ghost use Rattle.std.specs.FinMap.{get};
ghost use Rattle.survey_link.specs.Link.{CountsFault};
ghost use Rattle.generation.specs.Files.{files_in};
ghost use Rattle.tile_path.specs.Spelling.{spelling};
ghost use Rattle.past_session.specs.Answers.{file_text, refusal_text};
ghost use Rattle.past_session.specs.Ending.{send_failed};
ghost use Rattle.command_output.specs.Output.{sink_bytes};
ghost use Rattle.past_session.specs.Steps.{Sends, FailsToSend};

use crate::ending::Halt;
use crate::send::{send_parts, send_text};
use generation::Generation;
use past_reads::PastRefusal;
use std::alloc::Global;
use survey_link::Sink;
use tile_path::Path;

/// Answers a read by a generation: the file at the path, or that there is none.
///
/// # Errors
///
/// `WriteFault` only where the sink's count of faults rose; a prefix may have been written. `OutOfMemory` before any
/// is written.
pub(crate) fn send_file<K: Sink>(
    alloc: Global,
    sink: &mut K,
    generation: &Generation,
    path: &[u8],
) -> Result<(), Halt>
    ensures sends { OnOk result (Sends (file_text (get (files_in generation.now) path.now)) (sink_bytes K.Sink sink.old) (sink_bytes K.Sink sink.new)) }
    ensures fails { IfErr result (FailsToSend (file_text (get (files_in generation.now) path.now)) (sink_bytes K.Sink sink.old) (sink_bytes K.Sink sink.new)) }
    ensures faults { CountsFault (send_failed result) (K.faults sink.old) (K.faults sink.new) }
    ensures never_falls { K.faults sink.old ≤ K.faults sink.new }
{
    match Path::read(path) {
        Some(path) => send_known(alloc, sink, generation, &path),
        None => {
            // For the prover: of which orders the tiles are.
            let _orders = generation.conf().shape();
            send_absent(sink)
        }
    }
}

// The same of a path that a survey can have.
fn send_known<K: Sink>(
    alloc: Global,
    sink: &mut K,
    generation: &Generation,
    path: &Path,
) -> Result<(), Halt>
    ensures sends { OnOk result (Sends (file_text (get (files_in generation.now) (spelling path.now))) (sink_bytes K.Sink sink.old) (sink_bytes K.Sink sink.new)) }
    ensures fails { IfErr result (FailsToSend (file_text (get (files_in generation.now) (spelling path.now))) (sink_bytes K.Sink sink.old) (sink_bytes K.Sink sink.new)) }
    ensures faults { CountsFault (send_failed result) (K.faults sink.old) (K.faults sink.new) }
    ensures never_falls { K.faults sink.old ≤ K.faults sink.new }
{
    let mut front = [0u8; 2880];
    match generation.file_parts(path, &mut front) {
        Some(parts) => {
            let length = parts.front as u64 + parts.kept.len() as u64 + parts.zeros.len() as u64;
            let line = format!(in alloc; "file {length}\n")?;
            let front = &front[..parts.front];
            send_parts(sink, line.as_bytes(), front, parts.kept, parts.zeros)?;
            Ok(())
        }
        None => send_absent(sink),
    }
}

// Answers that there is no file at the path.
fn send_absent<K: Sink>(sink: &mut K) -> Result<(), Halt>
    ensures sends { OnOk result (Sends (file_text None) (sink_bytes K.Sink sink.old) (sink_bytes K.Sink sink.new)) }
    ensures fails { IfErr result (FailsToSend (file_text None) (sink_bytes K.Sink sink.old) (sink_bytes K.Sink sink.new)) }
    ensures faults { CountsFault (send_failed result) (K.faults sink.old) (K.faults sink.new) }
    ensures never_falls { K.faults sink.old ≤ K.faults sink.new }
{
    send_text(sink, b"absent\n")?;
    Ok(())
}

/// Answers a read of edits of which there is no generation.
///
/// # Errors
///
/// As for `send_file`; `OutOfMemory` where this is why there is none.
pub(crate) fn send_refusal<K: Sink>(
    alloc: Global,
    sink: &mut K,
    refusal: PastRefusal,
) -> Result<(), Halt>
    ensures sends { OnOk result (Sends (refusal_text refusal) (sink_bytes K.Sink sink.old) (sink_bytes K.Sink sink.new)) }
    ensures fails { IfErr result (FailsToSend (refusal_text refusal) (sink_bytes K.Sink sink.old) (sink_bytes K.Sink sink.new)) }
    ensures memory_faults { refusal ≡ PastRefusal.OutOfMemory → result ≡ Err Halt.OutOfMemory }
    ensures faults { CountsFault (send_failed result) (K.faults sink.old) (K.faults sink.new) }
    ensures never_falls { K.faults sink.old ≤ K.faults sink.new }
{
    match refusal {
        PastRefusal::TooNew { edits } => {
            let text = format!(in alloc; "future {edits}\n")?;
            send_text(sink, text.as_bytes())?;
            Ok(())
        }
        PastRefusal::Split { k } => {
            let text = format!(in alloc; "split {k}\n")?;
            send_text(sink, text.as_bytes())?;
            Ok(())
        }
        PastRefusal::OutOfMemory => Err(Halt::OutOfMemory),
    }
}
