//! What a session keeps between records.
ghost use Rattle.std.specs.Prelude.{◌≡◌, ◌≤◌, ◌<◌, ◌+◌, ◌^◌, ◌++◌, ◌∷◌, [], codes, decimal, map, length, All, None, Err, IfOk, OnOk, OnErr};
ghost use Rattle.std.specs.Arc.{arc_value};
ghost use Rattle.edit_journal.specs.Edit.{edit_of};
ghost use Rattle.edit_journal.specs.Leaves.{charge_of, FitsEdit};
ghost use Rattle.edit_journal.specs.Faults.{batch_fault, most_charge};
ghost use Rattle.survey_core.specs.BatchBody.{batch_entries, tile_count};
ghost use Rattle.survey_core.specs.Faults.{entry_fault_text};
ghost use Rattle.past_frame.specs.Line.{line_feed};
ghost use Rattle.past_session.specs.Answers.{first_state, batch_verdict, batch_text, verdict_by};
ghost use Rattle.past_session.specs.Records.{room_of};
ghost use Rattle.past_session.specs.Session.{state_edits, batch_accepted};

use crate::ending::Halt;
use edit_journal::{BatchRefusal, Edit, Journal};
use generation::Generation;
use parent_rule::Steps;
use past_reads::Past;
use std::alloc::{AllocError, Global};
use std::marker::Model;
use std::sync::Arc;
use survey_conf::Conf;
use survey_core::{BatchRead, EntryFault, batch_room, read_batch};

/// What a session keeps between records: the edits that were accepted, and a few generations. Contracts see the survey's
/// description and opening leaves, the batches, and after how many edits the survey was when a file was last looked for.
#[derive(Drop)]
pub(crate) struct Session {
    pub(crate) alloc: Global,
    pub(crate) conf: Arc<Conf>,
    pub(crate) journal: Journal,
    pub(crate) past: Past,
}

impl Model for Session {
    ghost use Rattle.std.specs.Arc.{arc_value};
    ghost use Rattle.past_session.specs.Session.{SessionContent, kept_content, IsKeptSession};

    ghost Value = { SessionContent };

    ghost view = { λ s. kept_content (arc_value s.conf) s.journal s.past };

    ghost invariant = { λ s. IsKeptSession (arc_value s.conf) s.journal s.past };
}

impl Session {
    /// A session of the survey with this opening generation, that holds at most so many others.
    ///
    /// # Errors
    ///
    /// `AllocError` where there is no memory for it.
    pub(crate) fn start(
        alloc: Global,
        opening: Arc<Generation>,
        cache: usize,
    ) -> Result<Session, AllocError>
        requires first { (arc_value opening).prefix ≡ 0 }
        requires charge { charge_of (arc_value opening).leaves [] ≤ most_charge }
        requires least { 1 ≤ cache }
        requires most { cache ≤ 8 }
        ensures { IfOk result (λ session. session ≡ record { conf = (arc_value opening).conf; opening = (arc_value opening).leaves; state = first_state }) }
    {
        let leaves = opening.leaves().share()?;
        match Journal::start(alloc, opening.conf().shape(), leaves) {
            Ok(journal) => Session::over(alloc, opening, journal, cache),
            Err(_) => Err(AllocError),
        }
    }

    // A session of a survey without edits.
    fn over(
        alloc: Global,
        opening: Arc<Generation>,
        journal: Journal,
        cache: usize,
    ) -> Result<Session, AllocError>
        requires first { (arc_value opening).prefix ≡ 0 }
        requires shape { journal.shape ≡ (arc_value opening).conf.shape }
        requires leaves { journal.opening ≡ (arc_value opening).leaves }
        requires none { journal.batches ≡ [] }
        requires least { 1 ≤ cache }
        requires most { cache ≤ 8 }
        ensures { IfOk result (λ session. session ≡ record { conf = (arc_value opening).conf; opening = (arc_value opening).leaves; state = first_state }) }
    {
        let conf = opening.conf().clone()?;
        let past = Past::over(alloc, opening, &journal, cache)?;
        Ok(Session {
            alloc,
            conf,
            journal,
            past,
        })
    }

    /// The length of the longest body of a batch that is taken.
    pub(crate) fn room(&self) -> usize
        ensures room { result ≡ room_of self.now.conf }
        ensures at_most { result ≤ 2 ^ 30 }
    {
        batch_room(&self.conf)
    }

    /// Accepts a batch by its body, and answers what is written of it: how many edits there are then, or why it is refused,
    /// and nothing is accepted. The steps rise by at most one for each tile in it.
    ///
    /// # Errors
    ///
    /// `OutOfMemory`.
    pub(crate) fn accept(&mut self, body: &[u8], steps: &mut Steps) -> Result<String, Halt>
        ensures told { IfOk result (λ text. text.bytes.items ≡ batch_text (length (state_edits self.old)) (batch_verdict self.old.conf self.old.opening (state_edits self.old) body.now)) }
        ensures after { OnOk result (self.new ≡ batch_accepted self.old (batch_verdict self.old.conf self.old.opening (state_edits self.old) body.now)) }
        ensures stop { OnErr result (result ≡ Err Halt.OutOfMemory) }
        ensures at_most { steps.new ≤ steps.old + tile_count (batch_entries self.old.conf body.now) }
        ensures never_falls { steps.old ≤ steps.new }
    {
        match read_batch(self.alloc, body, &self.conf, steps) {
            Ok(edits) => self.append(edits),
            Err(BatchRead::Entry { at, fault }) => refused_entry(self.alloc, at, fault),
            Err(BatchRead::OutOfMemory) => Err(Halt::OutOfMemory),
        }
    }

    // The same by its edits.
    fn append(&mut self, edits: Vec<Edit>) -> Result<String, Halt>
        requires some { 0 < length edits.items }
        requires most { length edits.items ≤ 1024 }
        requires fits { All (FitsEdit self.old.conf.shape) (map edit_of edits.items) }
        ensures told { IfOk result (λ text. text.bytes.items ≡ batch_text (length (state_edits self.old)) (verdict_by (map edit_of edits.items) None (batch_fault self.old.opening (state_edits self.old) (map edit_of edits.items)))) }
        ensures after { OnOk result (self.new ≡ batch_accepted self.old (verdict_by (map edit_of edits.items) None (batch_fault self.old.opening (state_edits self.old) (map edit_of edits.items)))) }
        ensures stop { OnErr result (result ≡ Err Halt.OutOfMemory) }
    {
        match self.journal.append_all(edits) {
            Ok(journal) => {
                let text = format!(in self.alloc; "edits {}\n", journal.len())?;
                self.journal = journal;
                Ok(text)
            }
            Err(BatchRefusal::Fault(fault)) => {
                let number = fault.fault.number();
                Ok(format!(in self.alloc; "refused {} edit {number}\n", fault.at)?)
            }
            Err(BatchRefusal::OutOfMemory) => Err(Halt::OutOfMemory),
        }
    }
}

// What is written of a body whose entry `at` has this fault.
fn refused_entry(alloc: Global, at: u32, fault: EntryFault) -> Result<String, Halt>
    ensures told { IfOk result (λ text. text.bytes.items ≡ codes "refused " ++ decimal at ++ codes " " ++ entry_fault_text fault ++ line_feed ∷ []) }
    ensures stop { OnErr result (result ≡ Err Halt.OutOfMemory) }
{
    Ok(format!(in alloc; "refused {at} {fault}\n")?)
}
