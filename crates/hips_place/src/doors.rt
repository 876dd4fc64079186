//! The doors of a survey, at once.
ghost use Rattle.std.specs.Prelude.{◌≡◌, ◌≢◌, ◌<◌, ◌≤◌, [], Ok, Err, map, length, All, IfOk, OnOk};
ghost use Rattle.std.specs.List.{AllZip};
ghost use Rattle.survey_core.specs.State.{StateContent};
ghost use Rattle.survey_core.specs.History.{Begins};
ghost use Rattle.reader_pin.specs.Board.{Stays};
ghost use Rattle.reader_pin.specs.Shared.{seated};
ghost use Rattle.hips_place.specs.declared.place.PlaceEnd.TheVariants.{Done, Failed};
ghost use Rattle.hips_place.specs.declared.doors.ServeRefusal.TheVariants.{NotOpened};
ghost use Rattle.hips_place.specs.Place.{door_of, ServesAs, SomeRises, AreFirstSeats, HaveAllMet, OwnsAmong};

use crate::place::{InConnection, PlaceEnd};
use crate::places::serve_places;
use log::Log;
use reader_pin::{Board, Shared, Survey, SurveyBook, SurveySeat, open_shared};
use shared_history::Naming;
use shared_history::laws::{each_is_one_seats, places_are_own};
use std::alloc::{AllocError, Global};
use std::marker::Brand;
use std::sync::Wait;
use std::thread::Threads;
use std::time::Clock;
use survey_core::State;
use survey_link::{Door, Gate, Means};
use thiserror::Error;

/// What there was no memory for when serving the doors of a survey.
#[derive(Clone, Copy, Debug, PartialEq, Eq, Error)]
pub enum ServeRefusal {
    /// The survey wasn't opened, and no door was touched.
    #[error("the survey wasn't opened")]
    NotOpened,
    /// All places have ended, all in all so; then their boards couldn't meet.
    #[error("the histories of the places couldn't be joined; each place's own is whole")]
    NotMet(PlaceEnd),
}

/// Opens the survey of which this is the first state, and serves its doors at once, each by a place of its own: up to `most`
/// connections of each. When all places have ended, the first board meets each other one, so that one history holds what
/// happened at all of them, and each of its states but the first is one session's event; then the survey is closed.
///
/// It answers `Failed` if and only if an accept failed; else `OutOfMemory` where a place ended so; else `Done`.
///
/// # Errors
///
/// Where there is no memory to open the survey, or for boards to meet.
pub fn serve_doors<R: Threads + Wait + Sync + Clock + Log, D: Door + Send, G: Gate + Sync>(
    means: &Means<'_, R, G>,
    state: State,
    most: u32,
    doors: &mut [D],
) -> Result<PlaceEnd, ServeRefusal>
where
    D::In: Send,
    D::Out: Send,
    requires first { (state.batches ≡ []) × (state.tip ≡ 0) }
    requires some { 0 < length doors.old }
    requires most { length doors.old ≤ 64 }
    ensures served { ServesAs state.conf state.opening most (map (door_of D.Door) doors.old) (map (door_of D.Door) doors.new) result }
    ensures kept { result ≡ Err NotOpened → doors.new ≡ doors.old }
    ensures failed { result ≡ Ok Failed → SomeRises (map D.faults doors.old) (map D.faults doors.new) }
    ensures sound { IfOk result (λ end. end ≢ Failed → map D.faults doors.new ≡ map D.faults doors.old) }
    ensures done { result ≡ Ok Done → map D.memory_faults doors.new ≡ map D.memory_faults doors.old }
{
    serve_named::<Brand, R, D, G>(means, SurveyBook::new(), state, most, doors)
}

// The same, under the name of the survey's book.
fn serve_named<J, R, D, G>(
    means: &Means<'_, R, G>,
    book: SurveyBook,
    state: State,
    most: u32,
    doors: &mut [D],
) -> Result<PlaceEnd, ServeRefusal>
where
    J: Naming + Send + Sync,
    R: Threads + Wait + Sync + Clock + Log,
    D: Door + Send,
    D::In: Send,
    D::Out: Send,
    G: Gate + Sync,
    requires book { book ≡ J.book }
    requires first { (state.batches ≡ []) × (state.tip ≡ 0) }
    requires some { 0 < length doors.old }
    requires most { length doors.old ≤ 64 }
    ensures served { ServesAs state.conf state.opening most (map (door_of D.Door) doors.old) (map (door_of D.Door) doors.new) result }
    ensures kept { result ≡ Err NotOpened → doors.new ≡ doors.old }
{
    match open_shared::<J, R>(means.rt, means.alloc, book, state, doors.len()) {
        Ok((survey, seats)) => {
            let ended = serve_seats(means, &survey, seats, most, doors);
            survey.close(means.rt);
            ended
        }
        Err(AllocError) => Err(ServeRefusal::NotOpened),
    }
}

// Serves the doors at the seats of a survey that was just opened; then the first board meets each other one.
fn serve_seats<'a, J, R, D, G>(
    means: &Means<'_, R, G>,
    survey: &'a Survey<J>,
    seats: Vec<SurveySeat<J>>,
    most: u32,
    doors: &mut [D],
) -> Result<PlaceEnd, ServeRefusal>
where
    J: Naming + Send + Sync,
    R: Threads + Wait + Sync + Clock + Log,
    D: Door + Send,
    D::In: Send,
    D::Out: Send,
    G: Gate + Sync,
    requires same { length seats.items ≡ length doors.old }
    requires some { 0 < length doors.old }
    ensures served { (state : StateContent) → AreFirstSeats state seats.items
        → ServesAs state.conf state.opening most (map (door_of D.Door) doors.old) (map (door_of D.Door) doors.new) result }
    ensures kept { result ≡ Err NotOpened → doors.new ≡ doors.old }
{
    places_are_own();
    each_is_one_seats();
    match boards_at(means.alloc, survey, seats) {
        Ok(mut boards) => {
            let boards = boards.as_mut_slice();
            // By a reference to the runtime, since each connection's has a copy of it.
            let by_reference = Means {
                rt: &means.rt,
                alloc: means.alloc,
                gate: means.gate,
            };
            let end = serve_places::<&R, InConnection<&R>, Shared<'a, J>, D, G>(
                &by_reference,
                1,
                most,
                boards,
                doors,
            );
            match meet_first(boards) {
                Ok(()) => Ok(end),
                Err(AllocError) => Err(ServeRefusal::NotMet(end)),
            }
        }
        Err(AllocError) => Err(ServeRefusal::NotOpened),
    }
}

// A board at each seat.
fn boards_at<'a, J: Naming>(
    alloc: Global,
    survey: &'a Survey<J>,
    seats: Vec<SurveySeat<J>>,
) -> Result<Vec<Shared<'a, J>>, AllocError>
    ensures { IfOk result (λ boards. boards.items ≡ map seated seats.items) }
{
    let mut boards = Vec::new(alloc);
    for seat in seats {
        boards.push(Shared::new(alloc, survey, seat))?;
    }
    Ok(boards)
}

// The first board meets each other one, and then each other one goes on to what the first one has seen.
fn meet_first<'a, J: Naming>(boards: &mut [Shared<'a, J>]) -> Result<(), AllocError>
    requires { 0 < length boards.old }
    ensures { OnOk result (HaveAllMet boards.old) }
{
    let (first, others) = boards.split_at_mut(1);
    let first = &mut first[0];
    meet_others(first, others)?;
    follow_first(first, others)
}

// A board meets each of these.
fn meet_others<'a, J: Naming>(
    first: &mut Shared<'a, J>,
    others: &mut [Shared<'a, J>],
) -> Result<(), AllocError>
    ensures stays { OnOk result (Stays first.old first.new) }
    ensures others { OnOk result (AllZip Stays others.old others.new) }
    ensures met { OnOk result (All (λ board. Begins board.history first.new.history) others.old) }
{
    // For the prover: what a board has seen is a history.
    let _legal = first.last();
    for other in others {
        first.meet(other)?;
    }
    Ok(())
}

// Each of these goes on to what the first board has seen. The events of each are then those of its seat.
fn follow_first<'a, J: Naming>(
    first: &Shared<'a, J>,
    others: &mut [Shared<'a, J>],
) -> Result<(), AllocError>
    ensures { OnOk result (All (OwnsAmong first.now) others.old) }
{
    for other in others {
        other.follow(first)?;
    }
    Ok(())
}
