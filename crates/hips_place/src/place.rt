//! One place of the server: the connections of one door, one after another.
ghost use Rattle.std.specs.Prelude.{◌≡◌, ◌≢◌, ◌≤◌, ◌↔◌, IfSome, IsSome, IsNone};
ghost use Rattle.hips_http.specs.Moment.{connection_of};
ghost use Rattle.hips_http.specs.SessionRun.{room_of};
ghost use Rattle.hips_place.specs.Place.{GivesBack, ServesPlace, door_of, worse};

use crate::numbered::{NumberedSink, NumberedSource, Numbers};
use hips_http::{SessionEnd, frame_for, session_in};
use http_frame::Frame;
use log::kv::With;
use log::{Level, Log, Span, debug, error, info, log_enabled, warn};
use parent_rule::Steps;
use reader_pin::ChangedWith;
use std::alloc::Global;
use std::marker::Brand;
use std::thread::Threads;
use std::time::Clock;
use survey_link::{Door, DoorFault, Gate, Means};

/// A runtime by which a connection is served: what it logs names the connection's place and its number there.
pub type InConnection<R> = Span<'static, R, With<'static, With<'static, (), usize>, u32>>;

/// A runtime that has one of the type `N` for each connection.
pub trait NamesConnections<N> {
    /// The runtime by which the connection of that number at that place is served.
    fn within(&self, place: usize, number: u32) -> N;
}

impl<R: Log + Copy> NamesConnections<InConnection<R>> for R {
    // It names the connection where edits are logged.
    fn within(&self, place: usize, number: u32) -> InConnection<R> {
        Span::enter(*self, "connection")
            .shown_if(log_enabled!(*self; Level::Info))
            .with("place", place)
            .with("number", number)
    }
}

/// How a place ended.
#[derive(Clone, Copy, Debug, PartialEq, Eq)]
pub enum PlaceEnd {
    /// It reached its limit of connections, or none is left; no session ran out of memory.
    Done,
    /// The door failed.
    Failed,
    /// A session ran out of memory, or an accept did.
    OutOfMemory,
}

impl PlaceEnd {
    /// The worse of two ends: `Failed` where one is so; else `OutOfMemory` where one is; else `Done`.
    pub(crate) fn worse(self, other: PlaceEnd) -> PlaceEnd
        ensures { result ≡ worse self other }
    {
        match (self, other) {
            (PlaceEnd::Failed, _) | (_, PlaceEnd::Failed) => PlaceEnd::Failed,
            (PlaceEnd::OutOfMemory, _) | (_, PlaceEnd::OutOfMemory) => PlaceEnd::OutOfMemory,
            (PlaceEnd::Done, PlaceEnd::Done) => PlaceEnd::Done,
        }
    }

    // How a place ends then, if it ends after this session.
    fn after(self, session: SessionEnd) -> PlaceEnd
        ensures ran_out { session ≡ SessionEnd.OutOfMemory → result ≡ PlaceEnd.OutOfMemory }
        ensures other { session ≢ SessionEnd.OutOfMemory → result ≡ self }
    {
        match session {
            SessionEnd::OutOfMemory => PlaceEnd::OutOfMemory,
            _ => self,
        }
    }
}

/// Takes up to `most` connections from the door, one after another, serves each from the states that the board sees, and
/// gives it back. It keeps one frame for all; a connection for which there was no memory for one ends out of memory, with
/// nothing read or written, and the next one is served if there is. `place` is the place's number, from 1 on, for the log
/// alone.
///
/// It waits only for the door and its connections, if the board waits for nobody. A runtime that can't be copied is given as
/// a reference to it.
///
/// It warns when 80 and when 95 percent of the connections were taken, since it ends after the last one.
///
/// `Failed` if and only if an accept fails, also after a session that ran out of memory. `OutOfMemory` where an accept
/// answers it, or a session ran out of memory and no accept failed; such a session doesn't end the place.
pub fn serve_place<
    R: Log + NamesConnections<N>,
    N: Threads + Sync + Clock + Log + Drop,
    B: ChangedWith<N>,
    D: Door,
    G: Gate + Sync,
>(
    rt: &R,
    alloc: Global,
    place: usize,
    board: &mut B,
    door: &mut D,
    most: u32,
    gate: &G,
    steps: &mut Steps,
) -> PlaceEnd
    ensures place { ServesPlace (record { board = B.content board.old; steps = steps.old }) (record { board = B.content board.new; steps = steps.new })
        (door_of D.Door door.old) (door_of D.Door door.new) most result }
    ensures steps_never_fall { steps.old ≤ steps.new }
{
    // For the prover: what a board has seen is a history.
    let _legal = board.last();
    let mut frame: Option<Frame> = None;
    let mut end = PlaceEnd::Done;
    for count in 0..most {
        if frame.is_none() {
            frame = frame_for(alloc, board);
        }
        match door.accept() {
            Ok(Some(connection)) => {
                let number = count + 1;
                let rt_within: N = rt.within(place, number);
                let means = Means {
                    rt: &rt_within,
                    alloc,
                    gate,
                };
                let session = serve_connection::<Brand, N, B, D, G>(
                    &means, &mut frame, board, door, connection, steps,
                );
                end = end.after(session);
                warn_of_last(rt, place, number, most);
            }
            Ok(None) => return say_ended(rt, place, end, count),
            Err(fault) => return say_ended(rt, place, end_by(fault), count),
        }
    }
    say_ended(rt, place, end, most)
}

// Serves a connection, whose ends have the numbers of `J`, over the frame, and gives it back; how its session ended. Without a
// frame that ends out of memory.
fn serve_connection<
    J: Numbers,
    N: Threads + Sync + Clock + Log,
    B: ChangedWith<N>,
    D: Door,
    G: Gate + Sync,
>(
    means: &Means<'_, N, G>,
    frame: &mut Option<Frame>,
    board: &mut B,
    door: &mut D,
    connection: (D::In, D::Out),
    steps: &mut Steps,
) -> SessionEnd
    requires source { D.In.number connection.0 ≡ J.source }
    requires sink { D.Out.number connection.1 ≡ J.sink }
    requires room { IfSome frame.old (λ frame. frame.room ≡ room_of (B.content board.old).conf) }
    ensures room { IfSome frame.new (λ frame. frame.room ≡ room_of (B.content board.new).conf) }
    ensures gives_back { GivesBack (record { board = B.content board.old; steps = steps.old }) (record { board = B.content board.new; steps = steps.new })
        (door_of D.Door door.old) (door_of D.Door door.new) (record {
          source = D.In.number connection.0;
          sink = D.Out.number connection.1;
          told = connection_of D.In.Source D.Out.Sink connection.0 connection.1;
        }) result }
    ensures ran_out { (result ≡ SessionEnd.OutOfMemory) ↔ IsNone frame.old }
    ensures kept { IsSome frame.old → IsSome frame.new }
    ensures steps_never_fall { steps.old ≤ steps.new }
{
    let Means { rt, alloc, gate } = *means;
    let mut input = NumberedSource::<D::In, J>::new(connection.0);
    let mut output = NumberedSink::<D::Out, J>::new(connection.1);
    let end = session_in(
        rt,
        alloc,
        frame,
        board,
        &mut input,
        &mut output,
        gate,
        steps,
    )
    .end;
    door.done(input.into_inner(), output.into_inner());
    say_session(rt, end);
    end
}

// Logs how a session ended.
fn say_session<R: Log>(rt: &R, end: SessionEnd) {
    debug!(rt; target: "ended", "{end:?}");
}

// Warns once when 80 and once when 95 percent of the connections that a place takes were taken.
fn warn_of_last<R: Log>(rt: &R, place: usize, number: u32, most: u32) {
    let left = most.saturating_sub(number);
    if left > 0 && (number == share_of(most, 80) || number == share_of(most, 95)) {
        warn!(rt; "place {place} has taken {number} of {most} connections: after {left} more it ends. When all places have ended the server ends, and its edits are lost: run rollover.sh before");
    }
}

// So many percent, up to 100, of some connections, rounded up.
fn share_of(most: u32, percent: u8) -> u32
    requires { percent ≤ 100 }
{
    let share = (u64::from(most) * u64::from(percent)).div_ceil(100);
    u32::try_from(share).unwrap_or(most)
}

// Logs how a place ended that has served so many connections.
fn say_ended<R: Log>(rt: &R, place: usize, end: PlaceEnd, served: u32) -> PlaceEnd
    ensures { result ≡ end }
{
    match end {
        PlaceEnd::Done => {
            info!(rt; "place {place} ended after {served} connections: that is its limit, or none is left");
        }
        PlaceEnd::Failed =>
            error!(rt; "place {place} ended after {served} connections: accepting failed"),
        PlaceEnd::OutOfMemory =>
            error!(rt; "place {place} ended after {served} connections: memory ran out"),
    }
    end
}

// How a place ends whose door refused.
fn end_by(fault: DoorFault) -> PlaceEnd
    ensures failed { fault ≡ DoorFault.Failed → result ≡ PlaceEnd.Failed }
    ensures ran_out { fault ≡ DoorFault.OutOfMemory → result ≡ PlaceEnd.OutOfMemory }
{
    match fault {
        DoorFault::Failed => PlaceEnd::Failed,
        DoorFault::OutOfMemory => PlaceEnd::OutOfMemory,
    }
}
