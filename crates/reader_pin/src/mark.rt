//! What a board keeps of a state that it has seen.
ghost use Rattle.std.specs.Prelude.{◌≡◌};
ghost use Rattle.survey_core.specs.History.{opening_state};
ghost use Rattle.survey_core.specs.State.{IsState, survey_state};

use survey_core::State;

/// How many edits a state has, and how many of them are published. With the batches of a later state that is all of it.
#[derive(Clone, Copy)]
pub(crate) struct Mark {
    pub(crate) edits: u32,
    pub(crate) tip: u32,
}

impl Mark {
    ghost use Rattle.reader_pin.specs.Solo.{mark_of};

    /// What is kept of a state.
    pub(crate) fn of(state: &State) -> Mark
        ensures mark { result ≡ mark_of state.now }
        ensures first { result.edits ≡ 0 → survey_state state.now ≡ opening_state }
        ensures state { IsState state.now }
    {
        Mark {
            edits: state.edits(),
            tip: state.tip(),
        }
    }
}
