//! A survey that several boards share.
ghost use Rattle.std.specs.Prelude.{◌≡◌, ◌<◌, ◌≤◌, [], map, length, All, IfOk};
ghost use Rattle.std.specs.List.{range_with_len};
ghost use Rattle.shared_history.specs.Histories.{one_state};

use shared_history::{Blank, Desk, Law, Naming, Seat, SharedHistory, Shown, Window};
use std::alloc::{AllocError, Global};
use std::sync::Wait;
use survey_core::State;

/// The law of a survey's history: its states are steps of one survey.
pub struct SurveyLaw;

impl Law<State> for SurveyLaw {
    ghost use Rattle.reader_pin.specs.Shared.{IsOneSurvey};

    ghost legal = { IsOneSurvey };
}

/// A survey that is open for several boards. It can't be dropped: end it by `close`, once its boards are gone.
pub type Survey<J> = SharedHistory<State, SurveyLaw, J>;

/// A place for a board at a survey.
pub type SurveySeat<J> = Seat<State, SurveyLaw, J>;

/// The right to append to a survey's history.
pub(crate) type SurveyDesk<J> = Desk<State, SurveyLaw, J>;

/// What was seen of a survey's history.
pub type SeenSurvey<J> = Shown<State, SurveyLaw, J>;

/// What a board looks through at what is shown of a survey.
pub(crate) type SurveyWindow<J> = Window<State, SurveyLaw, J>;

/// A book for the history of a survey, which has no name yet. Whoever opens the survey is generic in the name `J`, asks that it
/// be the book's, and is called with `Brand`.
pub type SurveyBook = Blank<State, SurveyLaw>;

/// Opens a survey with so many places, each of which has seen the history of this one state. Their numbers are 0, 1 and so on.
///
/// # Errors
///
/// `AllocError` where there is no memory for it.
pub fn open_shared<J: Naming, R: Wait>(
    rt: &R,
    alloc: Global,
    book: SurveyBook,
    state: State,
    places: usize,
) -> Result<(Survey<J>, Vec<SurveySeat<J>>), AllocError>
    requires book { book ≡ J.book }
    requires first { state.batches ≡ [] }
    requires some { 0 < places }
    requires most { places ≤ 64 }
    ensures places { IfOk result (λ opened. length opened.1.items ≡ places) }
    ensures numbers { IfOk result (λ opened. map (λ seat. seat.number) opened.1.items ≡ range_with_len 0 places) }
    ensures seen { IfOk result (λ opened. All (λ seat. seat.seen ≡ one_state places state) opened.1.items) }
{
    // For the prover: what a state is.
    let _first = state.edits();
    book.open(rt, alloc, state, places)
}
