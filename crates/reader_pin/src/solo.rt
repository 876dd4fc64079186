//! The board of a survey that nobody else changes.
ghost use Rattle.std.specs.Prelude.{◌≡◌, ℕ, ◌*◌, ◌<◌, ◌≤◌, [], map, length, All, option_map, IfOk, IfErr, OnOk, OnErr};
ghost use Rattle.edit_journal.specs.Edit.{edit_of, leaf_of};
ghost use Rattle.edit_journal.specs.Leaves.{FitsEdit, leaves_of};
ghost use Rattle.edit_journal.specs.Faults.{has_leaf};
ghost use Rattle.dirty_plan.specs.Dirty.{steps_after};
ghost use Rattle.survey_core.specs.History.{edits_at, IsStep, IsHistory};
ghost use Rattle.survey_core.specs.State.{state_edits, survey_state};
ghost use Rattle.reader_pin.specs.Board.{IsOwned, Stays, Happens, Publishes, last_seen, state_in, holding_last, holding_none, publish_work};
ghost use Rattle.reader_pin.specs.Build.{Builds};
ghost use Rattle.reader_pin.specs.Next.{IsPublishable};
ghost use Rattle.reader_pin.specs.Answers.{Accepts, AcceptsAll, TellsRefusal, TellsBatchRefusal, TellsPublished, CountsOnce};

use crate::answer::{Accepted, BoardBatch, BoardRefusal, Published};
use crate::board::Board;
use crate::changed_with::ChangedWith;
use crate::held::Held;
use crate::mark::Mark;
use crate::next::{after_batch, after_edit, after_prefix};
use edit_journal::Edit;
use generation::Generation;
use parent_rule::Steps;
use std::alloc::{AllocError, Global};
use std::marker::Model;
use std::mem::replace;
use survey_core::State;

/// The board of a survey that nobody else changes: it owns the survey's newest state, and every step of the history that it
/// has seen is its own event. So it never waits, each fault is the newest state's, and a publication publishes all edits.
#[derive(Drop)]
pub struct Solo {
    alloc: Global,
    last: State,
    seen: Vec<Mark>,
    held: Held<State>,
}

impl Model for Solo {
    ghost use Rattle.reader_pin.specs.Board.{BoardContent};
    ghost use Rattle.reader_pin.specs.Solo.{solo_content, IsSolo};

    ghost Value = { BoardContent };

    ghost view = { λ s. solo_content s.last s.seen.items s.held };

    ghost invariant = { λ s. IsSolo s.last s.seen.items s.held };
}

impl Solo {
    ghost use Rattle.reader_pin.specs.Board.{last_seen};
    ghost use Rattle.reader_pin.specs.Solo.{opened, after_event, IsAlone};

    /// The board of a survey whose first state this is.
    ///
    /// # Errors
    ///
    /// `AllocError` where there is no memory for what the board keeps of its history.
    pub fn new(alloc: Global, state: State) -> Result<Solo, AllocError>
        requires first { state.batches ≡ [] }
        ensures { IfOk result (λ board. board ≡ opened state) }
    {
        let mut seen = Vec::new(alloc);
        seen.push(Mark::of(&state))?;
        Ok(Solo {
            alloc,
            last: state,
            seen,
            held: Held::Nothing,
        })
    }

    /// Where the memory of the next state comes from.
    fn alloc(&self) -> Global {
        self.alloc
    }

    /// Goes on to the state after an event. What it keeps of the state takes its memory before.
    fn go_on(&mut self, next: State) -> Result<(), AllocError>
        requires conf { next.conf ≡ self.old.conf }
        requires opening { next.opening ≡ self.old.opening }
        requires step { IsStep self.old.opening (last_seen self.old) (survey_state next) }
        ensures went { OnOk result (self.new ≡ after_event (survey_state next) self.old) }
        ensures legal { IsHistory self.new.opening self.new.history }
        ensures stayed { OnErr result (self.new ≡ self.old) }
    {
        self.seen.push(Mark::of(&next))?;
        let last = replace(&mut self.last, next);
        let held = replace(&mut self.held, Held::Nothing);
        self.held = held.behind(last);
        Ok(())
    }

    /// Publishes a generation of a longer prefix than the published one.
    fn install(&mut self, generation: Generation) -> Result<Published, AllocError>
        requires { IsPublishable (state_in self.old (last_seen self.old)) generation }
        ensures published { IfOk result (λ published. published ≡ Published.New generation.prefix) }
        ensures event { OnOk result (Happens (Publishes generation.prefix) self.old self.new) }
        ensures edits { OnOk result (edits_at (last_seen self.new) ≡ edits_at (last_seen self.old)) }
        ensures unchanged { OnErr result (self.new ≡ self.old) }
    {
        let prefix = generation.prefix();
        let next = after_prefix(self.alloc(), self.last(), generation)?;
        self.go_on(next)?;
        // For the prover: the event is its seat's.
        let _made = self.last();
        Ok(Published::New(prefix))
    }
}

impl Board for Solo {
    ghost use Rattle.reader_pin.specs.Solo.{IsAlone};
    ghost use Rattle.reader_pin.specs.Answers.{CountsOnce};

    ghost content = { λ board. board };

    ghost counts = { CountsOnce };

    /// There are no newer states.
    fn pin(&mut self) {
        // For the prover: what a board has seen is a history.
        let _legal = self.last();
    }

    fn last(&self) -> &State
        ensures last { result.now ≡ state_in self.now (last_seen self.now) }
        ensures legal { IsHistory self.now.opening self.now.history }
        ensures owned { IsOwned self.now }
        ensures alone { IsAlone self.now }
    {
        &self.last
    }

    fn hold(&mut self) {
        self.held = Held::Last;
    }

    fn held(&self) -> Option<&State> {
        match &self.held {
            Held::Nothing => None,
            Held::Last => Some(&self.last),
            Held::Earlier(state) => Some(state),
        }
    }

    fn release(&mut self) {
        self.held = Held::Nothing;
    }
}

impl<R> ChangedWith<R> for Solo {
    fn edit(&mut self, _rt: &R, edit: Edit) -> Result<Accepted, BoardRefusal> {
        match after_edit(self.last(), edit) {
            Ok((next, accepted)) => {
                self.go_on(next)?;
                // For the prover: the event is its seat's.
                let _made = self.last();
                Ok(accepted)
            }
            Err(refusal) => Err(refusal),
        }
    }

    fn batch(&mut self, _rt: &R, edits: Vec<Edit>) -> Result<u32, BoardBatch> {
        match after_batch(self.last(), edits) {
            Ok((next, count)) => {
                self.go_on(next)?;
                // For the prover: the event is its seat's.
                let _made = self.last();
                Ok(count)
            }
            Err(refusal) => Err(refusal),
        }
    }

    /// Publishes all edits, by one generation at most.
    fn publish_by<F: Fn(&State, &mut Steps) -> Result<Generation, AllocError>>(
        &mut self,
        _rt: &R,
        build: &F,
        steps: &mut Steps,
    ) -> Result<Published, AllocError>
        requires callable { (state : _) (before : _) → F.pre build.now state before }
        requires builds { (state : _) (before : _) (built : _) (after : _) → F.post build.now state before built after → Builds state.now before.now built after.now }
        ensures published { IfOk result (TellsPublished self.old self.new) }
        ensures unchanged { OnErr result (Stays self.old self.new) }
        ensures counted { IfOk result (CountsOnce self.old self.new steps.old steps.new) }
        ensures steps { OnOk result (steps.new ≤ steps_after steps.old (2 * publish_work self.old self.new)) }
        ensures once { OnOk result (steps.new ≤ steps_after steps.old (publish_work self.old self.new)) }
        ensures never_falls { steps.old ≤ steps.new }
    {
        let last = self.last();
        let edits = last.edits();
        if last.tip() == edits {
            // For the prover: a count fits 64 bits.
            let _count = steps.count();
            return Ok(Published::Already(edits));
        }
        let generation = build(last, steps)?;
        self.install(generation)
    }
}
