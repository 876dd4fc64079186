//! The command `session`: one connection over the source and the sink.
ghost use Rattle.std.specs.Prelude.{◌≡◌, ◌⊎◌, ℕ, ◌≤◌, List, Some, [], nat_eq, IfOk, IfErr};
ghost use Rattle.survey_link.specs.Link.{CountsFault};
ghost use Rattle.command_output.specs.Status.{IsAmong, number_of};
ghost use Rattle.edit_journal.specs.Leaves.{charge_of};
ghost use Rattle.edit_journal.specs.Faults.{most_charge};
ghost use Rattle.shelf_io.specs.Opening.{OpenedSurvey};
ghost use Rattle.shelf_io.specs.Refusals.{at_shelf};
ghost use Rattle.hips_http.specs.SessionRun.{is_read_fault, is_write_fault};
ghost use Rattle.hips_http.specs.Moment.{connection_of};
ghost use Rattle.survey_commands.specs.Serve.{state_of};
ghost use Rattle.survey_commands.specs.Session.{OpensAs, OpensNot, Serves, FailsToFlush, RunsSession, board_of, end_status, served_statuses, session_statuses};

use crate::refusing::say_why;
use command_output::Status;
use edit_journal::StartRefusal;
use generation::Generation;
use hips_http::{SessionEnd, session};
use log::Log;
use parent_rule::Steps;
use reader_pin::{Board, Solo};
use shelf_io::{LoadRefusal, load};
use std::alloc::{AllocError, Global};
use std::sync::Arc;
use std::thread::Threads;
use std::time::Clock;
use survey_core::State;
use survey_link::{Failed, Gate, Means, Shelf, Sink, Source};

/// Opens the shelf, serves one connection of its survey over the source and the sink, and answers the status.
///
/// | Status | Where |
/// |---|---|
/// | 0 | the input was read to its end, or to a request that asked to close |
/// | 2, 3 | the shelf isn't opened, for its description or for its leaves; a line says why, and nothing is read |
/// | 4 | the input ends within a request |
/// | 5, 6, 7 | the source's, the sink's, the shelf's count of faults rose, and does so at no other status |
/// | 11 | there was no memory |
/// | 12 | 65,536 requests were answered, and none asked to close |
/// | 14 | the framing of a request is refused |
pub fn run_session<R, S, K, H, G>(
    means: &Means<'_, R, G>,
    source: &mut S,
    sink: &mut K,
    shelf: &mut H,
    steps: &mut Steps,
) -> Status
where
    R: Threads + Sync + Clock + Log,
    S: Source,
    K: Sink,
    H: Shelf,
    G: Gate + Sync,
    ensures run { (input : List ℕ) → S.left source.old ≡ Some input → RunsSession (H.files shelf.old) input
        (connection_of S.Source K.Sink source.old sink.old) (connection_of S.Source K.Sink source.new sink.new)
        (number_of result) }
    ensures kept { H.files shelf.new ≡ H.files shelf.old }
    ensures unread { (number_of result ≡ 2) ⊎ (number_of result ≡ 3) → source.new ≡ source.old }
    ensures ends { IsAmong session_statuses (number_of result) }
    ensures read_fault { CountsFault (nat_eq (number_of result) 5) (S.faults source.old) (S.faults source.new) }
    ensures write_fault { CountsFault (nat_eq (number_of result) 6) (K.faults sink.old) (K.faults sink.new) }
    ensures shelf_fault { CountsFault (nat_eq (number_of result) 7) (H.faults shelf.old) (H.faults shelf.new) }
    ensures steps_never_fall { steps.old ≤ steps.new }
{
    match open_board(means, shelf, steps) {
        Ok(mut board) => serve_source(means, &mut board, source, sink, steps),
        Err(refusal) => say_why(means.alloc, sink, &refusal),
    }
}

// The board of the survey that the shelf describes.
fn open_board<R, H, G>(
    means: &Means<'_, R, G>,
    shelf: &mut H,
    steps: &mut Steps,
) -> Result<Solo, LoadRefusal>
where
    R: Threads + Sync + Clock + Log,
    H: Shelf,
    G: Gate + Sync,
    ensures opened { IfOk result (λ board. (survey : OpenedSurvey) × OpensAs (H.files shelf.old) survey × (board ≡ board_of survey)) }
    ensures refused { IfErr result (OpensNot (H.files shelf.old)) }
    ensures kept { H.files shelf.new ≡ H.files shelf.old }
    ensures faults { CountsFault (at_shelf result) (H.faults shelf.old) (H.faults shelf.new) }
    ensures steps_never_fall { steps.old ≤ steps.new }
{
    let state = open_state(means, shelf, steps)?;
    Ok(Solo::new(means.alloc, state)?)
}

/// The first state of the survey that the shelf describes.
///
/// # Errors
///
/// Why the shelf isn't opened, or that there was no memory. The shelf's files stay.
pub(crate) fn open_state<R, H, G>(
    means: &Means<'_, R, G>,
    shelf: &mut H,
    steps: &mut Steps,
) -> Result<State, LoadRefusal>
where
    R: Threads + Sync + Clock + Log,
    H: Shelf,
    G: Gate + Sync,
    ensures opened { IfOk result (λ state. (survey : OpenedSurvey) × OpensAs (H.files shelf.old) survey × (state ≡ state_of survey)) }
    ensures refused { IfErr result (OpensNot (H.files shelf.old)) }
    ensures kept { H.files shelf.new ≡ H.files shelf.old }
    ensures faults { CountsFault (at_shelf result) (H.faults shelf.old) (H.faults shelf.new) }
    ensures steps_never_fall { steps.old ≤ steps.new }
{
    let Means { rt, alloc, gate } = *means;
    let generation = load(rt, alloc, shelf, gate, steps)?;
    Ok(first_state(alloc, generation)?)
}

/// The board of a survey of which this is the first generation.
///
/// # Errors
///
/// `AllocError` where there is no memory for it.
pub fn first_board(alloc: Global, generation: Generation) -> Result<Solo, AllocError>
    requires first { generation.prefix ≡ 0 }
    requires charge { charge_of generation.leaves [] ≤ most_charge }
    ensures { IfOk result (λ board. board ≡ board_of (record { conf = generation.conf; leaves = generation.leaves })) }
{
    Solo::new(alloc, first_state(alloc, generation)?)
}

// The first state of a survey of which this is the first generation.
fn first_state(alloc: Global, generation: Generation) -> Result<State, AllocError>
    requires first { generation.prefix ≡ 0 }
    requires charge { charge_of generation.leaves [] ≤ most_charge }
    ensures { IfOk result (λ state. state ≡ state_of (record { conf = generation.conf; leaves = generation.leaves })) }
{
    match State::start(alloc, Arc::new(alloc, generation)?) {
        Ok(state) => Ok(state),
        Err(StartRefusal::OutOfMemory) => Err(AllocError),
        Err(StartRefusal::TooMany { .. }) => unreachable!(),
    }
}

// Flushes what the sink holds back, serves one connection by a board that nobody else has, and answers the status. A flush
// at the end could fail where the source has failed already.
fn serve_source<R, S, K, G>(
    means: &Means<'_, R, G>,
    board: &mut Solo,
    source: &mut S,
    sink: &mut K,
    steps: &mut Steps,
) -> Status
where
    R: Threads + Sync + Clock + Log,
    S: Source,
    K: Sink,
    G: Gate + Sync,
    ensures served { (survey : OpenedSurvey) (input : List ℕ) → board.old ≡ board_of survey → S.left source.old ≡ Some input
        → Serves survey input
        (connection_of S.Source K.Sink source.old sink.old) (connection_of S.Source K.Sink source.new sink.new)
        (number_of result)
        ⊎ FailsToFlush (number_of result) (connection_of S.Source K.Sink source.old sink.old) (connection_of S.Source K.Sink source.new sink.new) }
    ensures ends { IsAmong served_statuses (number_of result) }
    ensures read_fault { CountsFault (nat_eq (number_of result) 5) (S.faults source.old) (S.faults source.new) }
    ensures write_fault { CountsFault (nat_eq (number_of result) 6) (K.faults sink.old) (K.faults sink.new) }
    ensures steps_never_fall { steps.old ≤ steps.new }
{
    match sink.flush() {
        Ok(()) => {
            let Means { rt, alloc, gate } = *means;
            let served = session(rt, alloc, board, source, sink, gate, steps);
            // For the prover: what a board has seen is a history.
            let _alone = board.last();
            end_status(served.end)
        }
        Err(Failed) => Status::WriteFault,
    }
}

// The status of a connection that ended so.
fn end_status(end: SessionEnd) -> Status
    ensures status { number_of result ≡ end_status end }
    ensures ends { IsAmong served_statuses (number_of result) }
    ensures read_fault { nat_eq (number_of result) 5 ≡ is_read_fault end }
    ensures write_fault { nat_eq (number_of result) 6 ≡ is_write_fault end }
{
    match end {
        SessionEnd::Closed | SessionEnd::Asked => Status::Done,
        SessionEnd::Cut => Status::Cut,
        SessionEnd::ReadFault => Status::ReadFault,
        SessionEnd::WriteFault => Status::WriteFault,
        SessionEnd::OutOfMemory => Status::OutOfMemory,
        SessionEnd::Spent => Status::Spent,
        SessionEnd::Refused(_) => Status::Refused,
    }
}
