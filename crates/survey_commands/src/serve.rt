//! The command `serve`: the connections of many doors at once, over one survey.
ghost use Rattle.std.specs.Prelude.{◌≡◌, ◌⊎◌, ◌<◌, ◌≤◌, [], nat_eq, map, length, take, drop};
ghost use Rattle.survey_link.specs.Link.{CountsFault};
ghost use Rattle.command_output.specs.Output.{sink_bytes};
ghost use Rattle.command_output.specs.Status.{IsAmong, number_of};
ghost use Rattle.hips_place.specs.Place.{SomeRises, door_of};
ghost use Rattle.shelf_io.specs.Opening.{OpenedSurvey};
ghost use Rattle.survey_commands.specs.Serve.{IsServe, state_of, Serves, RunsServe, serve_status, serve_statuses};

use crate::refusing::say_why;
use crate::session::open_state;
use command_output::Status;
use generation::Generation;
use hips_http::say_room;
use hips_place::{PlaceEnd, ServeRefusal, serve_doors};
use log::{Log, error, info, warn};
use parent_rule::Steps;
use std::sync::Wait;
use std::thread::Threads;
use std::time::{Clock, Instant};
use survey_core::State;
use survey_link::{Door, Gate, Means, Shelf, Sink};

/// What `serve` is asked for: so many places, with up to so many connections at each.
#[derive(Clone, Copy, Debug, PartialEq, Eq)]
pub struct AskedPlaces {
    /// How many connections of each door.
    pub connections: u32,
    /// How many doors.
    pub places: usize,
}

/// Opens the shelf, serves the first of the doors, so many as there are places, at once over its survey, up to
/// `asked.connections` connections of each, and answers the status.
///
/// | Status | Where |
/// |---|---|
/// | 0 | each place took its connections |
/// | 2, 3 | the shelf isn't opened, for its description or for its leaves; a line says why, and no connection is taken |
/// | 6, 7 | the sink's, the shelf's count of faults rose, and does so at no other status |
/// | 8 | a door's count of faults rose; the other places went on to their ends |
/// | 11 | there was no memory, and no door's count of faults rose: to open the survey, or at a place; or for the places' boards to meet |
pub fn run_serve<R, K, H, D, G>(
    means: &Means<'_, R, G>,
    asked: AskedPlaces,
    sink: &mut K,
    shelf: &mut H,
    steps: &mut Steps,
    doors: &mut [D],
) -> Status
where
    R: Threads + Wait + Sync + Clock + Log,
    K: Sink,
    H: Shelf,
    D: Door + Send,
    D::In: Send,
    D::Out: Send,
    G: Gate + Sync,
    requires asked { IsServe asked.connections asked.places }
    requires there { asked.places ≤ length doors.old }
    ensures run { RunsServe (H.files shelf.old) asked.connections (map (door_of D.Door) (take asked.places doors.old)) (map (door_of D.Door) (take asked.places doors.new)) (number_of result)
        (sink_bytes K.Sink sink.old) (sink_bytes K.Sink sink.new) }
    ensures beyond { drop asked.places doors.new ≡ drop asked.places doors.old }
    ensures closed { (number_of result ≡ 2) ⊎ ((number_of result ≡ 3) ⊎ (number_of result ≡ 7)) → doors.new ≡ doors.old }
    ensures kept { H.files shelf.new ≡ H.files shelf.old }
    ensures ends { IsAmong serve_statuses (number_of result) }
    ensures write_fault { CountsFault (nat_eq (number_of result) 6) (K.faults sink.old) (K.faults sink.new) }
    ensures shelf_fault { CountsFault (nat_eq (number_of result) 7) (H.faults shelf.old) (H.faults shelf.new) }
    ensures door_fault { number_of result ≡ 8 → SomeRises (map D.faults doors.old) (map D.faults doors.new) }
    ensures steps_never_fall { steps.old ≤ steps.new }
{
    let rt = means.rt;
    let (served, _) = doors.split_at_mut(asked.places);
    let begun = Instant::now(rt).ok();
    match open_state(means, shelf, steps) {
        Ok(state) => {
            say_loaded(rt, state.generation(), begun);
            say_room(rt, &state);
            serve_state(means, state, asked.connections, served)
        }
        Err(refusal) => say_why(means.alloc, sink, &refusal),
    }
}

// Logs what was loaded since then.
fn say_loaded<R: Clock + Log>(rt: &R, generation: &Generation, begun: Option<Instant>) {
    let leaves = generation.leaves().len();
    let files = generation.file_count();
    let took = begun.and_then(|begun| begun.elapsed(rt).ok());
    let millis = took.map_or(0, |took| took.as_millis());
    info!(rt; "loaded {leaves} leaves in {millis} ms: {files} files are served");
    if leaves == 0 {
        warn!(rt; "the folder has no leaf tiles, so the survey is empty: is it the right folder?");
    }
}

// Serves the doors over the survey of which this is the first state, and answers the status.
fn serve_state<R, D, G>(
    means: &Means<'_, R, G>,
    state: State,
    connections: u32,
    doors: &mut [D],
) -> Status
where
    R: Threads + Wait + Sync + Clock + Log,
    D: Door + Send,
    D::In: Send,
    D::Out: Send,
    G: Gate + Sync,
    requires first { (state.batches ≡ []) × (state.tip ≡ 0) }
    requires some { 0 < length doors.old }
    requires most { length doors.old ≤ 64 }
    ensures served { (survey : OpenedSurvey) → state ≡ state_of survey
        → Serves survey connections (map (door_of D.Door) doors.old) (map (door_of D.Door) doors.new) (number_of result) }
    ensures status { (result ≡ Status.Done) ⊎ ((result ≡ Status.DoorFault) ⊎ (result ≡ Status.OutOfMemory)) }
    ensures door_fault { number_of result ≡ 8 → SomeRises (map D.faults doors.old) (map D.faults doors.new) }
{
    let rt = means.rt;
    info!(rt; "{} places, up to {connections} connections at each", doors.len());
    let served = serve_doors(means, state, connections, doors);
    match &served {
        Ok(end) => {
            info!(rt; "all places have ended: {end:?}. The edits since the start are lost unless a journal or a copy has them");
        }
        Err(refusal) => error!(rt; "out of memory: {refusal}"),
    }
    serve_status(served)
}

// The status of doors that were served so, or why they weren't.
fn serve_status(served: Result<PlaceEnd, ServeRefusal>) -> Status
    ensures { number_of result ≡ serve_status served }
{
    match served {
        Ok(PlaceEnd::Done) => Status::Done,
        Ok(PlaceEnd::Failed) => Status::DoorFault,
        Ok(PlaceEnd::OutOfMemory) => Status::OutOfMemory,
        Err(_) => Status::OutOfMemory,
    }
}
