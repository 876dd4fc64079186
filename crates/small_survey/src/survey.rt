//! The first state of a survey, and the edits that fit it.
ghost use Rattle.std.specs.Prelude.{◌≡◌, [], map, All, IfOk, IsTrue};
ghost use Rattle.edit_journal.specs.Edit.{edit_of};
ghost use Rattle.edit_journal.specs.Leaves.{FitsEdit};

use edit_journal::Edit;
use generation::Generation;
use healpix_nested::cells;
use leaf_store::Store;
use parent_rule::Steps;
use std::alloc::Global;
use std::sync::Arc;
use std::test::Fail;
use std::thread::Threads;
use survey_conf::Conf;
use survey_core::State;
use survey_link::OpenGate;

/// The first state of the survey with that description, without leaves.
///
/// # Errors
///
/// Where the description is refused, or there is no memory.
pub fn first_state<R: Threads + Sync>(rt: &R, alloc: Global, conf: &str) -> Result<State, Fail>
    ensures { IfOk result (λ state. state.batches ≡ []) }
{
    let conf = Arc::new(alloc, Conf::read(alloc, conf.as_bytes())?)?;
    let generation = Generation::start(
        rt,
        alloc,
        conf,
        Store::new(alloc),
        &OpenGate::new(),
        &mut Steps::new(),
    )?;
    Ok(State::start(alloc, Arc::new(alloc, generation)?)?)
}

/// Whether the edit fits the survey of a state.
pub fn fits(state: &State, edit: &Edit) -> bool
    ensures { IsTrue result → FitsEdit state.now.conf.shape (edit_of edit.now) }
{
    let shape = state.conf().shape();
    if edit.leaf() >= cells(shape.top) {
        return false;
    }
    match edit.tile() {
        Some(tile) => tile.depth() == shape.depth && tile.n() == shape.n,
        None => true,
    }
}

/// Whether each of the edits fits it.
pub fn all_fit(state: &State, edits: &[Edit]) -> bool
    ensures { IsTrue result → All (FitsEdit state.now.conf.shape) (map edit_of edits.now) }
{
    for edit in edits {
        if !fits(state, edit) {
            return false;
        }
    }
    true
}
