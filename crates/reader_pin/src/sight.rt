//! What a board of a shared survey has seen, made and holds.
ghost use Rattle.std.specs.Prelude.{◌≡◌, ℕ, ◌*◌, ◌<◌, ◌≤◌, [], ◌++◌, map, length, All, option_map, Some, None, IfOk, IfErr, IfSome, OnOk, OnErr};
ghost use Rattle.std.specs.Arc.{arc_value};
ghost use Rattle.shared_history.specs.Histories.{places_of};
ghost use Rattle.edit_journal.specs.Edit.{edit_of};
ghost use Rattle.edit_journal.specs.Leaves.{FitsEdit};
ghost use Rattle.dirty_plan.specs.Dirty.{steps_after};
ghost use Rattle.survey_core.specs.History.{edits_at, IsStep, IsHistory};
ghost use Rattle.survey_core.specs.State.{state_edits, survey_state};
ghost use Rattle.reader_pin.specs.Board.{IsOwned, Stays, Happens, Publishes, last_seen, state_in, edit_count, holding_last, holding_none, publish_work};
ghost use Rattle.reader_pin.specs.Build.{Builds, BuildsAll, build_work};
ghost use Rattle.reader_pin.specs.Answers.{Accepts, AcceptsAll, TellsRefusal, TellsBatchRefusal, TellsPublished};
ghost use Rattle.reader_pin.specs.Next.{IsPublishable};
ghost use Rattle.reader_pin.specs.Solo.{after_event};
ghost use Rattle.reader_pin.specs.Shared.{HasSeen, shared_content, held_at};

use crate::answer::{Accepted, BoardBatch, BoardRefusal, Published};
use crate::held::Held;
use crate::next::{after_batch, after_edit, after_prefix};
use crate::survey::{SeenSurvey, SurveyDesk, SurveyWindow};
use dirty_plan::laws::more_touched_is_more_work;
use edit_journal::Edit;
use generation::Generation;
use parent_rule::Steps;
use shared_history::Naming;
use std::alloc::{AllocError, Global};
use std::marker::Model;
use std::mem::replace;
use std::sync::{Arc, Wait};
use survey_core::State;

/// The number of the board's seat, the history that was seen with its last state, the places of the board's own events, and the
/// state that it holds.
#[derive(Drop)]
pub(crate) struct Sight<J: Naming> {
    alloc: Global,
    number: usize,
    seen: SeenSurvey<J>,
    own: Vec<u64>,
    held: Held<Arc<State>>,
}

impl<J: Naming> Model for Sight<J> {
    ghost use Rattle.std.specs.Prelude.{option_map};
    ghost use Rattle.std.specs.Arc.{arc_value};
    ghost use Rattle.reader_pin.specs.Board.{BoardContent};
    ghost use Rattle.reader_pin.specs.Shared.{held_at, shared_content, IsSight};

    ghost Value = { BoardContent };

    ghost view = { λ s. shared_content s.number s.seen s.own.items (held_at arc_value s.seen.last s.held) };

    ghost invariant = { λ s. IsSight s.number s.seen s.own.items (held_at arc_value s.seen.last s.held) };
}

impl<J: Naming> Sight<J> {
    /// At the seat with that number it has seen that, made no event, and holds nothing.
    pub(crate) fn new(alloc: Global, number: usize, seen: SeenSurvey<J>) -> Sight<J>
        requires seated { number < seen.seats }
        requires fresh { places_of number seen.owners ≡ [] }
        ensures { result ≡ shared_content number seen [] None }
    {
        // For the prover: what was seen is a history.
        let _last = seen.last();
        Sight {
            alloc,
            number,
            seen,
            own: Vec::new(alloc),
            held: Held::Nothing,
        }
    }

    /// The history that was seen.
    pub(crate) fn seen(&self) -> &SeenSurvey<J>
        ensures seen { HasSeen result.now self.now }
        ensures legal { IsHistory self.now.opening self.now.history }
        ensures owned { IsOwned self.now }
    {
        &self.seen
    }

    /// The last state that was seen.
    pub(crate) fn state(&self) -> &State
        ensures last { result.now ≡ state_in self.now (last_seen self.now) }
        ensures legal { IsHistory self.now.opening self.now.history }
        ensures owned { IsOwned self.now }
    {
        &**self.seen.last()
    }

    /// Holds the last state seen.
    pub(crate) fn hold(&mut self)
        ensures { self.new ≡ holding_last self.old }
    {
        self.held = Held::Last;
    }

    /// The state that is held.
    pub(crate) fn held(&self) -> Option<&State>
        ensures { option_map (λ state. state.now) result ≡ option_map (state_in self.now) self.now.held }
    {
        match &self.held {
            Held::Nothing => None,
            Held::Last => Some(&**self.seen.last()),
            Held::Earlier(state) => Some(&**state),
        }
    }

    /// Holds nothing.
    pub(crate) fn release(&mut self)
        ensures { self.new ≡ holding_none self.old }
    {
        self.held = Held::Nothing;
    }

    /// Goes on to what is shown, where that is more.
    pub(crate) fn look(&mut self, window: &mut SurveyWindow<J>)
        ensures { Stays self.old self.new }
    {
        // For the prover: what was seen is a history.
        let _last = self.seen.last();
        if let Some(newer) = window.look(&self.seen, self.number) {
            // For the prover: so is what is shown.
            let _newest = newer.last();
            move_on(&mut self.seen, &mut self.held, newer);
        }
    }

    /// Goes on to what another has seen.
    ///
    /// # Errors
    ///
    /// `AllocError` where the other has seen less, or a count of its owners is full.
    pub(crate) fn catch_up(&mut self, newest: &SeenSurvey<J>) -> Result<(), AllocError>
        ensures seen { OnOk result (HasSeen newest.now self.new) }
        ensures stays { Stays self.old self.new }
    {
        // For the prover: what was seen is a history.
        let _last = self.seen.last();
        let _newest = newest.last();
        if let Some(newer) = self.seen.newer(newest, self.number)? {
            move_on(&mut self.seen, &mut self.held, newer);
        }
        Ok(())
    }

    /// Makes an event of its own: the state becomes the last one of the survey.
    ///
    /// # Errors
    ///
    /// `AllocError` where there is no memory for it: it makes no event.
    fn happen<R: Wait>(
        &mut self,
        rt: &R,
        desk: &mut SurveyDesk<J>,
        next: State,
    ) -> Result<(), AllocError>
        requires seen { HasSeen desk.old.newest self.old }
        requires conf { next.conf ≡ self.old.conf }
        requires opening { next.opening ≡ self.old.opening }
        requires step { IsStep self.old.opening (last_seen self.old) (survey_state next) }
        ensures went { OnOk result (self.new ≡ after_event (survey_state next) self.old) }
        ensures legal { IsHistory self.new.opening self.new.history }
        ensures stayed { OnErr result (self.new ≡ self.old) }
    {
        // For the prover: what was seen is a history.
        let _last = self.seen.last();
        let _all = desk.newest().last();
        let place = self.seen.len();
        self.own.reserve(1)?;
        let newest = desk.append(rt, self.number, next)?;
        // For the prover: so is it with the event.
        let _newest = newest.last();
        self.own.push_reserved(place);
        move_on(&mut self.seen, &mut self.held, newest);
        Ok(())
    }

    /// `Board::edit`, with the desk at hand.
    pub(crate) fn edit<R: Wait>(
        &mut self,
        rt: &R,
        desk: &mut SurveyDesk<J>,
        edit: Edit,
    ) -> Result<Accepted, BoardRefusal>
        requires fits { FitsEdit self.old.conf.shape (edit_of edit) }
        ensures accepted { IfOk result (Accepts (edit_of edit) self.old self.new) }
        ensures unchanged { OnErr result (Stays self.old self.new) }
        ensures refused { IfErr result (TellsRefusal (edit_of edit) self.old self.new) }
    {
        self.catch_up(desk.newest())?;
        match after_edit(self.state(), edit) {
            Ok((next, accepted)) => {
                self.happen(rt, desk, next)?;
                // For the prover: the event is its seat's.
                let _made = self.state();
                Ok(accepted)
            }
            Err(refusal) => Err(refusal),
        }
    }

    /// `Board::batch`, with the desk at hand.
    pub(crate) fn batch<R: Wait>(
        &mut self,
        rt: &R,
        desk: &mut SurveyDesk<J>,
        edits: Vec<Edit>,
    ) -> Result<u32, BoardBatch>
        requires some { 0 < length edits.items }
        requires most { length edits.items ≤ 1024 }
        requires fits { All (FitsEdit self.old.conf.shape) (map edit_of edits.items) }
        ensures accepted { IfOk result (AcceptsAll (map edit_of edits.items) self.old self.new) }
        ensures unchanged { OnErr result (Stays self.old self.new) }
        ensures refused { IfErr result (TellsBatchRefusal (map edit_of edits.items) self.old self.new) }
    {
        self.catch_up(desk.newest())?;
        match after_batch(self.state(), edits) {
            Ok((next, count)) => {
                self.happen(rt, desk, next)?;
                // For the prover: the event is its seat's.
                let _made = self.state();
                Ok(count)
            }
            Err(refusal) => Err(refusal),
        }
    }

    /// The generation of all edits of the last state seen, where these aren't all published.
    pub(crate) fn build_pending<F: Fn(&State, &mut Steps) -> Result<Generation, AllocError>>(
        &self,
        build: &F,
        steps: &mut Steps,
    ) -> Result<Option<Generation>, AllocError>
        requires callable { (state : _) (before : _) → F.pre build.now state before }
        requires builds { (state : _) (before : _) (built : _) (after : _) → F.post build.now state before built after → Builds state.now before.now built after.now }
        ensures built { IfOk result (BuildsAll (state_in self.now (last_seen self.now))) }
        ensures steps { OnOk result (steps.new ≤ steps_after steps.old (build_work (state_in self.now (last_seen self.now)))) }
        ensures never_falls { steps.old ≤ steps.new }
    {
        let last = self.state();
        if last.tip() == last.edits() {
            // For the prover: a count fits 64 bits.
            let _count = steps.count();
            return Ok(None);
        }
        let generation = build(last, steps)?;
        Ok(Some(generation))
    }

    /// Publishes, with the desk at hand, what was built of the last state seen; or all edits, where that is no more than what
    /// is published by now.
    pub(crate) fn publish<R: Wait, F: Fn(&State, &mut Steps) -> Result<Generation, AllocError>>(
        &mut self,
        rt: &R,
        desk: &mut SurveyDesk<J>,
        built: Option<Generation>,
        build: &F,
        steps: &mut Steps,
    ) -> Result<Published, AllocError>
        requires callable { (state : _) (before : _) → F.pre build.now state before }
        requires builds { (state : _) (before : _) (built : _) (after : _) → F.post build.now state before built after → Builds state.now before.now built after.now }
        requires built { BuildsAll (state_in self.old (last_seen self.old)) built }
        ensures published { IfOk result (TellsPublished self.old self.new) }
        ensures unchanged { OnErr result (Stays self.old self.new) }
        ensures steps { OnOk result (steps.new ≤ steps_after steps.old (publish_work self.old self.new)) }
        ensures never_falls { steps.old ≤ steps.new }
    {
        // For the prover: more edits are no less work, a count fits 64 bits, and what was seen is a history.
        more_touched_is_more_work();
        let _count = steps.count();
        let _pinned = self.state();
        self.catch_up(desk.newest())?;
        let tip = self.state().tip();
        if let Some(generation) = built {
            if generation.prefix() > tip {
                return self.install(rt, desk, generation);
            }
        }
        self.publish_all(rt, desk, build, steps)
    }

    /// Publishes all edits, by one generation at most.
    fn publish_all<R: Wait, F: Fn(&State, &mut Steps) -> Result<Generation, AllocError>>(
        &mut self,
        rt: &R,
        desk: &mut SurveyDesk<J>,
        build: &F,
        steps: &mut Steps,
    ) -> Result<Published, AllocError>
        requires callable { (state : _) (before : _) → F.pre build.now state before }
        requires builds { (state : _) (before : _) (built : _) (after : _) → F.post build.now state before built after → Builds state.now before.now built after.now }
        requires seen { HasSeen desk.old.newest self.old }
        ensures published { IfOk result (TellsPublished self.old self.new) }
        ensures unchanged { OnErr result (Stays self.old self.new) }
        ensures steps { OnOk result (steps.new ≤ steps_after steps.old (publish_work self.old self.new)) }
        ensures never_falls { steps.old ≤ steps.new }
    {
        let last = self.state();
        let edits = last.edits();
        if last.tip() == edits {
            // For the prover: a count fits 64 bits.
            let _count = steps.count();
            return Ok(Published::Already(edits));
        }
        let generation = build(last, steps)?;
        self.install(rt, desk, generation)
    }

    /// Publishes a generation of a longer prefix than the published one.
    fn install<R: Wait>(
        &mut self,
        rt: &R,
        desk: &mut SurveyDesk<J>,
        generation: Generation,
    ) -> Result<Published, AllocError>
        requires seen { HasSeen desk.old.newest self.old }
        requires publishable { IsPublishable (state_in self.old (last_seen self.old)) generation }
        ensures published { IfOk result (λ published. published ≡ Published.New generation.prefix) }
        ensures event { OnOk result (Happens (Publishes generation.prefix) self.old self.new) }
        ensures edits { OnOk result (edits_at (last_seen self.new) ≡ edits_at (last_seen self.old)) }
        ensures unchanged { OnErr result (self.new ≡ self.old) }
    {
        let prefix = generation.prefix();
        let next = after_prefix(self.alloc, self.state(), generation)?;
        self.happen(rt, desk, next)?;
        // For the prover: the event is its seat's.
        let _made = self.state();
        Ok(Published::New(prefix))
    }
}

// Goes on to a newer state. A held one stays.
fn move_on<J: Naming>(seen: &mut SeenSurvey<J>, held: &mut Held<Arc<State>>, newer: SeenSurvey<J>)
    ensures seen { seen.new ≡ newer }
    ensures held { held_at arc_value newer.last held.new ≡ held_at arc_value seen.old.last held.old }
{
    let last = replace(seen, newer).into_last();
    let before = replace(held, Held::Nothing);
    *held = before.behind(last);
}
