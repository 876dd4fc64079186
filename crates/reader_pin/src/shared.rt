//! The board of a survey that several connections share.
ghost use Rattle.std.specs.Prelude.{◌≡◌, ℕ, ◌*◌, ◌<◌, ◌≤◌, [], map, length, All, option_map, IfOk, IfErr, OnOk, OnErr};
ghost use Rattle.edit_journal.specs.Edit.{edit_of};
ghost use Rattle.edit_journal.specs.Leaves.{FitsEdit};
ghost use Rattle.dirty_plan.specs.Dirty.{steps_after};
ghost use Rattle.survey_core.specs.History.{IsHistory};
ghost use Rattle.reader_pin.specs.Board.{Stays, last_seen, state_in, holding_last, holding_none, publish_work};
ghost use Rattle.reader_pin.specs.Build.{Builds};
ghost use Rattle.reader_pin.specs.Answers.{Accepts, AcceptsAll, TellsRefusal, TellsBatchRefusal, TellsPublished};
ghost use Rattle.reader_pin.specs.Shared.{seated, HaveMet};

use crate::answer::{Accepted, BoardBatch, BoardRefusal, Published};
use crate::board::Board;
use crate::changed_with::ChangedWith;
use crate::sight::Sight;
use crate::survey::{SeenSurvey, Survey, SurveySeat, SurveyWindow};
use dirty_plan::laws::more_touched_is_more_work;
use edit_journal::Edit;
use generation::Generation;
use parent_rule::Steps;
use shared_history::Naming;
use std::alloc::{AllocError, Global};
use std::marker::Model;
use std::sync::Wait;
use survey_core::State;

/// The board of a survey that several connections share. What two boards of one survey have seen are one the beginning of the
/// other. `pin` looks at what is shown and waits for nobody; the calls that make events take the survey's lock. A publication
/// is built before it takes the lock, and built again only where what was built is published by then.
#[derive(Drop)]
pub struct Shared<'a, J: Naming> {
    survey: &'a Survey<J>,
    window: SurveyWindow<J>,
    sight: Sight<J>,
}

impl<'a, J: Naming> Model for Shared<'a, J> {
    ghost use Rattle.reader_pin.specs.Board.{BoardContent};

    ghost Value = { BoardContent };

    ghost view = { λ s. s.sight };
}

impl<'a, J: Naming> Shared<'a, J> {
    /// A board at a place of the survey.
    pub fn new(alloc: Global, survey: &'a Survey<J>, seat: SurveySeat<J>) -> Shared<'a, J>
        ensures { result ≡ seated seat }
    {
        let (number, window, seen) = seat.into_parts();
        Shared {
            survey,
            window,
            sight: Sight::new(alloc, number, seen),
        }
    }

    /// Both boards have then seen what the one that had seen more had seen.
    ///
    /// # Errors
    ///
    /// `AllocError` where a count of the state's owners is full.
    pub fn meet<'b>(&mut self, other: &mut Shared<'b, J>) -> Result<(), AllocError>
        ensures this { Stays self.old self.new }
        ensures that { Stays other.old other.new }
        ensures met { OnOk result (HaveMet self.new other.new) }
    {
        if self.sight.seen().len() < other.sight.seen().len() {
            return self.sight.catch_up(other.sight.seen());
        }
        other.sight.catch_up(self.sight.seen())
    }

    /// Goes on to what the other board has seen, which stays as it is.
    ///
    /// # Errors
    ///
    /// `AllocError` where the other has seen less, or a count of the state's owners is full.
    pub fn follow<'b>(&mut self, other: &Shared<'b, J>) -> Result<(), AllocError>
        ensures stays { Stays self.old self.new }
        ensures met { OnOk result (HaveMet self.new other.now) }
    {
        self.sight.catch_up(other.sight.seen())
    }
}

impl<'a, J: Naming> Board for Shared<'a, J> {
    ghost content = { λ board. board };

    ghost counts = { λ old new before after published. Unit {0} };

    fn pin(&mut self) {
        self.sight.look(&mut self.window);
    }

    fn last(&self) -> &State {
        self.sight.state()
    }

    fn hold(&mut self) {
        self.sight.hold();
    }

    fn held(&self) -> Option<&State> {
        self.sight.held()
    }

    fn release(&mut self) {
        self.sight.release();
    }
}

impl<'a, J: Naming, R: Wait> ChangedWith<R> for Shared<'a, J> {
    fn edit(&mut self, rt: &R, edit: Edit) -> Result<Accepted, BoardRefusal> {
        let mut desk = self.survey.lock(rt);
        self.sight.edit(rt, &mut **desk, edit)
    }

    fn batch(&mut self, rt: &R, edits: Vec<Edit>) -> Result<u32, BoardBatch> {
        let mut desk = self.survey.lock(rt);
        self.sight.batch(rt, &mut **desk, edits)
    }

    fn publish_by<F: Fn(&State, &mut Steps) -> Result<Generation, AllocError>>(
        &mut self,
        rt: &R,
        build: &F,
        steps: &mut Steps,
    ) -> Result<Published, AllocError> {
        // For the prover: more edits are no less work, and what was seen is a history.
        more_touched_is_more_work();
        let _last = self.sight.state();
        self.sight.look(&mut self.window);
        let built = self.sight.build_pending(build, steps)?;
        let mut desk = self.survey.lock(rt);
        self.sight.publish(rt, &mut **desk, built, build, steps)
    }
}
