//! The calls of a board that make events.
ghost use Rattle.std.specs.Prelude.{◌≡◌, ℕ, ◌*◌, ◌<◌, ◌≤◌, [], map, length, All, option_map, IfOk, IfErr, OnOk, OnErr};
ghost use Rattle.edit_journal.specs.Edit.{edit_of};
ghost use Rattle.edit_journal.specs.Leaves.{FitsEdit};
ghost use Rattle.dirty_plan.specs.Dirty.{steps_after};
ghost use Rattle.reader_pin.specs.Board.{Stays, publish_work};
ghost use Rattle.reader_pin.specs.Build.{Builds};
ghost use Rattle.reader_pin.specs.Answers.{Accepts, AcceptsAll, TellsRefusal, TellsBatchRefusal, TellsPublished};

use crate::answer::{Accepted, BoardBatch, BoardRefusal, Published};
use crate::board::Board;
use edit_journal::Edit;
use generation::Generation;
use parent_rule::Steps;
use std::alloc::AllocError;
use std::thread::Threads;
use survey_core::State;
use survey_link::Gate;

/// A board that is changed with a runtime of the type `R`. Which runtimes change it says whether it may wait: a `Solo` is
/// changed with any, since it waits for nobody, and a `Shared` with those that may wait. So code that serves any board with
/// any runtime waits only if the board does.
pub trait ChangedWith<R>: Board {
    /// Accepts an edit on the newest state, as a batch of its own: one event.
    ///
    /// # Errors
    ///
    /// `Fault` with what the journal of one state answers, and its number of edits; that state isn't before the last one seen
    /// before the call. `OutOfMemory` where there is no memory for the next state. Neither makes an event.
    fn edit(&mut self, rt: &R, edit: Edit) -> Result<Accepted, BoardRefusal>
        requires fits { FitsEdit (Self.content self.old).conf.shape (edit_of edit) }
        ensures accepted { IfOk result (Accepts (edit_of edit) (Self.content self.old) (Self.content self.new)) }
        ensures unchanged { OnErr result (Stays (Self.content self.old) (Self.content self.new)) }
        ensures refused { IfErr result (TellsRefusal (edit_of edit) (Self.content self.old) (Self.content self.new)) };

    /// Accepts a batch of edits on the newest state, whole: one event. It answers how many edits there are then.
    ///
    /// # Errors
    ///
    /// `Fault` with what the journal of one state answers, and its number of edits; that state isn't before the last one seen
    /// before the call. `OutOfMemory` where there is no memory for the next state. Neither makes an event.
    fn batch(&mut self, rt: &R, edits: Vec<Edit>) -> Result<u32, BoardBatch>
        requires some { 0 < length edits.items }
        requires most { length edits.items ≤ 1024 }
        requires fits { All (FitsEdit (Self.content self.old).conf.shape) (map edit_of edits.items) }
        ensures accepted { IfOk result (AcceptsAll (map edit_of edits.items) (Self.content self.old) (Self.content self.new)) }
        ensures unchanged { OnErr result (Stays (Self.content self.old) (Self.content self.new)) }
        ensures refused { IfErr result (TellsBatchRefusal (map edit_of edits.items) (Self.content self.old) (Self.content self.new)) };

    /// The board's own part of `publish`. `build` builds the generations of all edits of a state, one or two of them: a board
    /// has no right to start threads.
    ///
    /// # Errors
    ///
    /// `AllocError` where there is no memory for a generation or for the next state. It makes no event.
    fn publish_by<F: Fn(&State, &mut Steps) -> Result<Generation, AllocError>>(
        &mut self,
        rt: &R,
        build: &F,
        steps: &mut Steps,
    ) -> Result<Published, AllocError>
        requires callable { (state : _) (before : _) → F.pre build.now state before }
        requires builds { (state : _) (before : _) (built : _) (after : _) → F.post build.now state before built after → Builds state.now before.now built after.now }
        ensures published { IfOk result (TellsPublished (Self.content self.old) (Self.content self.new)) }
        ensures unchanged { OnErr result (Stays (Self.content self.old) (Self.content self.new)) }
        ensures counted { IfOk result (Self.counts (Self.content self.old) (Self.content self.new) steps.old steps.new) }
        ensures steps { OnOk result (steps.new ≤ steps_after steps.old (2 * publish_work (Self.content self.old) (Self.content self.new))) }
        ensures never_falls { steps.old ≤ steps.new };

    /// Publishes all edits that the board has seen, and perhaps newer ones: one event, or none where all edits are published.
    /// The gate is passed before each merge of tiles. The steps rise by one for each: at most twice for each cell over a leaf
    /// of the edits from the tip of the last state seen before to the last edit of the last one seen then.
    ///
    /// # Errors
    ///
    /// `AllocError` where there is no memory for the next state. It makes no event.
    final fn publish<G: Gate + Sync>(
        &mut self,
        rt: &R,
        gate: &G,
        steps: &mut Steps,
    ) -> Result<Published, AllocError>
    where
        R: Threads + Sync,
        ensures published { IfOk result (TellsPublished (Self.content self.old) (Self.content self.new)) }
        ensures unchanged { OnErr result (Stays (Self.content self.old) (Self.content self.new)) }
        ensures counted { IfOk result (Self.counts (Self.content self.old) (Self.content self.new) steps.old steps.new) }
        ensures steps { OnOk result (steps.new ≤ steps_after steps.old (2 * publish_work (Self.content self.old) (Self.content self.new))) }
        ensures never_falls { steps.old ≤ steps.new }
    {
        let build = |state: &State, steps: &mut Steps| -> Result<Generation, AllocError>
            ensures { Builds state.now steps.old result steps.new }
        {
            let journal = state.journal();
            state
                .generation()
                .next(rt, journal, state.edits(), gate, steps)
        };
        self.publish_by(rt, &build, steps)
    }
}
