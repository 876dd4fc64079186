//! One record is answered.
ghost use Rattle.std.specs.Prelude.{◌≡◌, ◌≤◌, ◌+◌, IfErr, OnOk};
ghost use Rattle.survey_link.specs.Link.{CountsFault};
ghost use Rattle.past_frame.specs.Record.{batch, read};
ghost use Rattle.past_frame.specs.Reading.{record_of};
ghost use Rattle.past_session.specs.Ending.{send_failed};
ghost use Rattle.command_output.specs.Output.{sink_bytes};
ghost use Rattle.past_session.specs.Steps.{answer_text, answer_cost, session_after, Sends, FailsToSend};

use crate::ending::Halt;
use crate::file::{send_file, send_refusal};
use crate::kept::Session;
use crate::send::send_text;
use dirty_plan::laws::more_touched_is_more_work;
use log::Log;
use parent_rule::Steps;
use past_frame::Record;
use std::thread::Threads;
use std::time::Clock;
use survey_link::{Gate, Means, Sink};

impl Session {
    /// Answers a record with this text, and flushes the answer.
    ///
    /// # Errors
    ///
    /// `WriteFault` only where the sink's count of faults rose; a prefix may have been written. `OutOfMemory` before
    /// any is written.
    pub(crate) fn answer<R: Threads + Sync + Clock + Log, K: Sink, G: Gate + Sync>(
        &mut self,
        means: &Means<'_, R, G>,
        sink: &mut K,
        asked: Record,
        text: &[u8],
        steps: &mut Steps,
    ) -> Result<(), Halt>
        ensures sends { OnOk result (Sends (answer_text self.old (record_of asked text.now)) (sink_bytes K.Sink sink.old) (sink_bytes K.Sink sink.new)) }
        ensures after { OnOk result (self.new ≡ session_after self.old (record_of asked text.now)) }
        ensures fails { IfErr result (FailsToSend (answer_text self.old (record_of asked text.now)) (sink_bytes K.Sink sink.old) (sink_bytes K.Sink sink.new)) }
        ensures steps { steps.new ≤ steps.old + answer_cost self.old (record_of asked text.now) }
        ensures faults { CountsFault (send_failed result) (K.faults sink.old) (K.faults sink.new) }
        ensures never_falls { K.faults sink.old ≤ K.faults sink.new }
        ensures steps_never_fall { steps.old ≤ steps.new }
    {
        match asked {
            Record::Batch => self.answer_batch(sink, text, steps),
            Record::Read { k } => self.answer_read(means, sink, k, text, steps),
        }
    }

    // Answers a batch with this body.
    fn answer_batch<K: Sink>(
        &mut self,
        sink: &mut K,
        body: &[u8],
        steps: &mut Steps,
    ) -> Result<(), Halt>
        ensures sends { OnOk result (Sends (answer_text self.old (batch body.now)) (sink_bytes K.Sink sink.old) (sink_bytes K.Sink sink.new)) }
        ensures after { OnOk result (self.new ≡ session_after self.old (batch body.now)) }
        ensures fails { IfErr result (FailsToSend (answer_text self.old (batch body.now)) (sink_bytes K.Sink sink.old) (sink_bytes K.Sink sink.new)) }
        ensures steps { steps.new ≤ steps.old + answer_cost self.old (batch body.now) }
        ensures faults { CountsFault (send_failed result) (K.faults sink.old) (K.faults sink.new) }
        ensures never_falls { K.faults sink.old ≤ K.faults sink.new }
        ensures steps_never_fall { steps.old ≤ steps.new }
    {
        let text = self.accept(body, steps)?;
        send_text(sink, text.as_bytes())?;
        Ok(())
    }

    // Answers a read of the file at a path, by the first `k` edits.
    fn answer_read<R: Threads + Sync + Clock + Log, K: Sink, G: Gate + Sync>(
        &mut self,
        means: &Means<'_, R, G>,
        sink: &mut K,
        k: u32,
        path: &[u8],
        steps: &mut Steps,
    ) -> Result<(), Halt>
        ensures sends { OnOk result (Sends (answer_text self.old (read k path.now)) (sink_bytes K.Sink sink.old) (sink_bytes K.Sink sink.new)) }
        ensures after { OnOk result (self.new ≡ session_after self.old (read k path.now)) }
        ensures fails { IfErr result (FailsToSend (answer_text self.old (read k path.now)) (sink_bytes K.Sink sink.old) (sink_bytes K.Sink sink.new)) }
        ensures steps { steps.new ≤ steps.old + answer_cost self.old (read k path.now) }
        ensures faults { CountsFault (send_failed result) (K.faults sink.old) (K.faults sink.new) }
        ensures never_falls { K.faults sink.old ≤ K.faults sink.new }
        ensures steps_never_fall { steps.old ≤ steps.new }
    {
        // Later edits touch no leaf that all of them don't.
        more_touched_is_more_work();
        match self.past.at(means.rt, &self.journal, k, means.gate, steps) {
            Ok(generation) => return send_file(self.alloc, sink, &generation, path),
            Err(refusal) => return send_refusal(self.alloc, sink, refusal),
        }
    }
}
