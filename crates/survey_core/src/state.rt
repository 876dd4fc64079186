//! The states of a survey.
ghost use Rattle.std.specs.Prelude.{◌≡◌, ℕ, List, ◌<◌, ◌≤◌, ◌^◌, [], ◌∷◌, ◌++◌, map, length, take, All, Contains, None, IfOk, IfErr, OnOk};
ghost use Rattle.std.specs.FinMap.{get};
ghost use Rattle.std.specs.Arc.{arc_value};
ghost use Rattle.survey_conf.specs.Description.{IsDescription};
ghost use Rattle.edit_journal.specs.Edit.{edit_of};
ghost use Rattle.edit_journal.specs.Leaves.{leaves_of, charge_of, FitsEdit};
ghost use Rattle.edit_journal.specs.Faults.{edit_fault, batch_fault, edit_refused, batch_refused, most_charge};
ghost use Rattle.edit_journal.specs.Batches.{ends};
ghost use Rattle.generation.specs.Files.{files_in};
ghost use Rattle.survey_core.specs.History.{opening_state, AppendsBatch, IsPublication};
ghost use Rattle.survey_core.specs.Reply.{files_at};
ghost use Rattle.survey_core.specs.Refusal.{TellsTooMany, TellsInstallRefusal};

use crate::refusal::InstallRefusal;
use edit_journal::{BatchRefusal, Edit, EditRefusal, Journal, StartRefusal};
use generation::Generation;
use std::alloc::Global;
use std::marker::Model;
use std::sync::Arc;
use survey_conf::Conf;

/// The batches of edits that a survey has accepted, and the generation of the prefix of them that is published. Contracts
/// see the survey's description and opening leaves, the batches, and how many edits are published, the tip.
///
/// A state never changes: each step answers a new one, which shares the journal's edits and the leaf tiles with the old.
#[derive(Drop)]
pub struct State {
    journal: Journal,
    generation: Arc<Generation>,
}

impl Model for State {
    ghost use Rattle.std.specs.Arc.{arc_value};
    ghost use Rattle.survey_core.specs.State.{StateContent, kept_content, IsKeptState};

    ghost Value = { StateContent };

    ghost view = { λ s. kept_content s.journal (arc_value s.generation) };

    ghost invariant = { λ s. IsKeptState s.journal (arc_value s.generation) };
}

impl State {
    ghost use Rattle.survey_core.specs.State.{StateContent, IsState, state_edits, survey_state, journal_of, generation_of};

    /// The first state of a survey: the generation's leaves are the opening leaves, and no edit was accepted.
    ///
    /// # Errors
    ///
    /// `TooMany` with the number of leaves if and only if their charge exceeds 2^29 bytes; `OutOfMemory` where there is no
    /// memory for the journal.
    pub fn start(alloc: Global, generation: Arc<Generation>) -> Result<State, StartRefusal>
        requires first { (arc_value generation).prefix ≡ 0 }
        ensures started { IfOk result (λ state. state
            ≡ record { conf = (arc_value generation).conf; opening = (arc_value generation).leaves; batches = []; tip = 0 }) }
        ensures charge { OnOk result (charge_of (arc_value generation).leaves [] ≤ most_charge) }
        ensures refused { IfErr result (TellsTooMany (arc_value generation).leaves) }
    {
        let leaves = generation.leaves().share()?;
        let journal = Journal::start(alloc, generation.conf().shape(), leaves)?;
        Ok(State {
            journal,
            generation,
        })
    }

    /// The state with this edit accepted, as a batch of its own. This state stays as it is.
    ///
    /// # Errors
    ///
    /// `Fault` with the first that applies: `Exists` if and only if an Add's leaf is there after all edits, `Absent` if and
    /// only if a Replace's or a Remove's isn't, `Edits` if and only if there are 65,536 edits, `Bytes` if and only if the
    /// charge would exceed 2^29. `OutOfMemory` where there is no memory for the new state.
    pub fn accept(&self, edit: Edit) -> Result<State, EditRefusal>
        requires fits { FitsEdit self.now.conf.shape (edit_of edit) }
        ensures accepted { IfOk result (λ next. next ≡ record self.now { batches = self.now.batches ++ (edit_of edit ∷ []) ∷ [] }) }
        ensures faultless { OnOk result (edit_fault self.now.opening (state_edits self.now) (edit_of edit) ≡ None) }
        ensures step { IfOk result (λ next. AppendsBatch self.now.opening (edit_of edit ∷ []) (survey_state self.now) (survey_state next)) }
        ensures refused { IfErr result (λ refusal. edit_refused refusal ≡ edit_fault self.now.opening (state_edits self.now) (edit_of edit)) }
    {
        let journal = self.journal.append(edit)?;
        Ok(State {
            journal,
            generation: self.generation.clone()?,
        })
    }

    /// The state with this batch accepted, which no published prefix splits. This state stays as it is.
    ///
    /// # Errors
    ///
    /// `Fault` with the least place of an edit that has a fault after those before it, and that fault, as `accept` gives it;
    /// `OutOfMemory` where there is no memory for the new state.
    pub fn accept_all(&self, edits: Vec<Edit>) -> Result<State, BatchRefusal>
        requires some { 0 < length edits.items }
        requires most { length edits.items ≤ 1024 }
        requires fits { All (FitsEdit self.now.conf.shape) (map edit_of edits.items) }
        ensures accepted { IfOk result (λ next. next ≡ record self.now { batches = self.now.batches ++ map edit_of edits.items ∷ [] }) }
        ensures faultless { OnOk result (batch_fault self.now.opening (state_edits self.now) (map edit_of edits.items) ≡ None) }
        ensures step { IfOk result (λ next. AppendsBatch self.now.opening (map edit_of edits.items) (survey_state self.now) (survey_state next)) }
        ensures refused { IfErr result (λ refusal. batch_refused refusal ≡ batch_fault self.now.opening (state_edits self.now) (map edit_of edits.items)) }
    {
        let journal = self.journal.append_all(edits)?;
        Ok(State {
            journal,
            generation: self.generation.clone()?,
        })
    }

    /// The state with this generation published. This state stays as it is.
    ///
    /// # Errors
    ///
    /// `Already` with the tip if and only if the generation's prefix isn't greater than the tip; `OutOfMemory` where there is
    /// no memory for the new state.
    pub fn install(&self, generation: Arc<Generation>) -> Result<State, InstallRefusal>
        requires conf { (arc_value generation).conf ≡ self.now.conf }
        requires whole { Contains (ends self.now.batches) (arc_value generation).prefix }
        requires leaves { (arc_value generation).leaves ≡ leaves_of self.now.opening (take (arc_value generation).prefix (state_edits self.now)) }
        ensures installed { IfOk result (λ next. next ≡ record self.now { tip = (arc_value generation).prefix }) }
        ensures step { IfOk result (λ next. IsPublication (survey_state self.now) (survey_state next)) }
        ensures refused { IfErr result (TellsInstallRefusal (arc_value generation).prefix self.now.tip) }
    {
        let tip = self.tip();
        if generation.prefix() <= tip {
            return Err(InstallRefusal::Already { tip });
        }
        let journal = self.journal.share()?;
        Ok(State {
            journal,
            generation,
        })
    }

    /// How many edits were accepted.
    pub fn edits(&self) -> u32
        ensures count { result ≡ length (state_edits self.now) }
        ensures most { result ≤ 65536 }
        ensures whole { Contains (ends self.now.batches) result }
        ensures first { result ≡ 0 → survey_state self.now ≡ opening_state }
        ensures state { IsState self.now }
    {
        self.journal.len()
    }

    /// How many edits are published.
    pub fn tip(&self) -> u32
        ensures tip { result ≡ self.now.tip }
        ensures whole { Contains (ends self.now.batches) result }
        ensures within { result ≤ length (state_edits self.now) }
    {
        self.generation.prefix()
    }

    /// The generation of the published prefix: it has the files of the leaves after it.
    pub fn generation(&self) -> &Arc<Generation>
        ensures generation { arc_value result.now ≡ generation_of self.now }
        ensures files { files_in (arc_value result.now) ≡ files_at self.now.conf self.now.opening (survey_state self.now) }
    {
        &self.generation
    }

    /// The journal of all edits.
    pub fn journal(&self) -> &Journal
        ensures journal { result.now ≡ journal_of self.now }
    {
        &self.journal
    }

    /// The survey's description.
    pub fn conf(&self) -> &Arc<Conf>
        ensures conf { arc_value result.now ≡ self.now.conf }
        ensures kept { IsDescription self.now.conf }
    {
        self.generation.conf()
    }
}
