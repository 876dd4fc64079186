//! The command `make`: a survey is made by its script, and summed up.
ghost use Rattle.std.specs.Prelude.{◌≡◌, ℕ, ◌≤◌, [], nat_eq, IfOk, OnOk};
ghost use Rattle.survey_link.specs.Link.{CountsFault};
ghost use Rattle.command_output.specs.Output.{sink_bytes};
ghost use Rattle.command_output.specs.Status.{IsAmong, number_of};
ghost use Rattle.shelf_io.specs.Opening.{OpenedSurvey};
ghost use Rattle.survey_commands.specs.Session.{board_of};
ghost use Rattle.survey_commands.specs.Make.{IsMake, made_survey, RunsScript, IsMade, RunsMake, make_statuses};

use crate::session::first_board;
use crate::summary::{Summary, summary_of};
use command_output::{Status, say};
use hips_http::{SessionEnd, session};
use leaf_store::Store;
use log::Log;
use memory_link::SureSource;
use parent_rule::Steps;
use reader_pin::{Board, Solo};
use shelf_io::first_generation;
use std::alloc::AllocError;
use std::thread::Threads;
use std::time::Clock;
use survey_link::{Gate, Means, NullSink, Sink};
use survey_make::{read_conf, script};

/// Makes the survey of a number by so many edits, writes its summary and LF, and answers the status.
///
/// | Status | Where |
/// |---|---|
/// | 0 | the survey is made, and its summary is written |
/// | 6 | the sink's count of faults rose, and does so at no other status |
/// | 11 | there was no memory, at any time; nothing is written |
pub fn run_make<R, K, G>(
    means: &Means<'_, R, G>,
    number: u64,
    edits: u32,
    sink: &mut K,
    steps: &mut Steps,
) -> Status
where
    R: Threads + Sync + Clock + Log,
    K: Sink,
    G: Gate + Sync,
    requires { IsMake number edits }
    ensures run { RunsMake number edits (number_of result) (sink_bytes K.Sink sink.old) (sink_bytes K.Sink sink.new) }
    ensures ends { IsAmong make_statuses (number_of result) }
    ensures write_fault { CountsFault (nat_eq (number_of result) 6) (K.faults sink.old) (K.faults sink.new) }
    ensures steps_never_fall { steps.old ≤ steps.new }
{
    match make_survey(means, number, edits, steps) {
        Ok(summary) => say(means.alloc, sink, Status::Done, &summary),
        Err(_) => Status::OutOfMemory,
    }
}

// Makes the survey, and sums it up.
fn make_survey<R, G>(
    means: &Means<'_, R, G>,
    number: u64,
    edits: u32,
    steps: &mut Steps,
) -> Result<Summary, AllocError>
where
    R: Threads + Sync + Clock + Log,
    G: Gate + Sync,
    requires { IsMake number edits }
    ensures made { IfOk result (IsMade number edits) }
    ensures steps_never_fall { steps.old ≤ steps.new }
{
    let script = script(means.alloc, number, edits)?;
    let mut board = empty_board(means, steps)?;
    serve_script(means, &mut board, script, steps)?;
    Ok(summary_of(board.last(), edits))
}

// The board of the made survey, without leaves.
fn empty_board<R, G>(means: &Means<'_, R, G>, steps: &mut Steps) -> Result<Solo, AllocError>
where
    R: Threads + Sync + Clock + Log,
    G: Gate + Sync,
    ensures board { IfOk result (λ board. board ≡ board_of made_survey) }
    ensures steps_never_fall { steps.old ≤ steps.new }
{
    let alloc = means.alloc;
    let generation = first_generation(means, read_conf(alloc)?, Store::new(alloc), steps)?;
    first_board(alloc, generation)
}

// Serves the script by a board that nobody else has. `AllocError` where there was no memory for the connection or for what a
// request of it asked for.
fn serve_script<R, G>(
    means: &Means<'_, R, G>,
    board: &mut Solo,
    script: Vec<u8>,
    steps: &mut Steps,
) -> Result<(), AllocError>
where
    R: Threads + Sync + Clock + Log,
    G: Gate + Sync,
    ensures conf { board.new.conf ≡ board.old.conf }
    ensures opening { board.new.opening ≡ board.old.opening }
    ensures runs { (survey : OpenedSurvey) → board.old ≡ board_of survey → OnOk result (RunsScript survey script.items board.new.history) }
    ensures steps_never_fall { steps.old ≤ steps.new }
{
    let mut source = SureSource::new(script);
    let mut sink = NullSink::new();
    let Means { rt, alloc, gate } = *means;
    let served = session(rt, alloc, board, &mut source, &mut sink, gate, steps);
    // For the prover: what a board has seen is a history.
    let _alone = board.last();
    match served.end {
        SessionEnd::Closed if served.memory_faults == 0 => Ok(()),
        _ => Err(AllocError),
    }
}
