//! A survey that is open for a scenario test of its boards.
ghost use Rattle.std.specs.Prelude.{◌≡◌, ◌<◌, ◌≤◌, []};

use crate::tales::{Tale, tell};
use crate::teller::tellers;
use crate::tiles::tile;
use reader_pin::{Survey, SurveyBook, SurveySeat, open_shared};
use shared_history::Naming;
use small_files::SURVEY;
use small_survey::first_state;
use std::alloc::Global;
use std::io::Print;
use std::marker::Brand;
use std::sync::Wait;
use std::test::Fail;
use std::thread::Threads;
use survey_core::State;

/// Opens the small survey for so many boards, runs the test with them, and ends it.
///
/// # Errors
///
/// Where a board answers otherwise than it must, there are no places or more than 64, or there is no memory to open the
/// survey.
pub fn with_boards<R: Threads + Wait + Print + Sync>(
    rt: &R,
    alloc: Global,
    places: usize,
    tale: Tale,
) -> Result<(), Fail> {
    if places == 0 || places > 64 {
        return Err("no such places".into());
    }
    let state = first_state(rt, alloc, SURVEY)?;
    open::<Brand, R>(rt, alloc, SurveyBook::new(), state, places, tale)
}

fn open<J: Naming + Send + Sync, R: Threads + Wait + Print + Sync>(
    rt: &R,
    alloc: Global,
    book: SurveyBook,
    state: State,
    places: usize,
    tale: Tale,
) -> Result<(), Fail>
    requires book { book ≡ J.book }
    requires first { state.batches ≡ [] }
    requires some { 0 < places }
    requires most { places ≤ 64 }
{
    let (survey, seats): (Survey<J>, Vec<SurveySeat<J>>) = open_shared(
        rt, alloc, book, state, places,
    )?;
    let told = tell_at(rt, alloc, &survey, seats, tale);
    survey.close(rt);
    told
}

fn tell_at<J: Naming + Send + Sync, R: Threads + Wait + Print + Sync>(
    rt: &R,
    alloc: Global,
    survey: &Survey<J>,
    seats: Vec<SurveySeat<J>>,
    tale: Tale,
) -> Result<(), Fail> {
    let tile = tile(alloc)?;
    match tellers(alloc, survey, seats) {
        Ok(mut tellers) => Ok(tell(rt, alloc, &tile, &mut tellers, tale)?),
        Err(_) => Err("no memory".into()),
    }
}
