//! The command `verify`: the shelf is compared with the survey that it describes.
ghost use Rattle.std.specs.Prelude.{◌≡◌, ◌⊎◌, ◌≤◌, nat_eq};
ghost use Rattle.survey_link.specs.Link.{CountsFault};
ghost use Rattle.command_output.specs.Output.{sink_bytes};
ghost use Rattle.command_output.specs.Status.{IsAmong, number_of};
ghost use Rattle.shelf_io.specs.Refusals.{at_shelf};
ghost use Rattle.survey_commands.specs.Survey.{IsComparison, RunsVerify, verdict_status, verify_statuses};

use crate::refusing::say_why;
use command_output::{Status, say};
use log::Log;
use parent_rule::Steps;
use shelf_io::{LoadRefusal, Verdict, load, verify};
use std::thread::Threads;
use std::time::Clock;
use survey_link::{Gate, Means, Shelf, Sink};

/// Opens the shelf, writes whether it has the survey's files and no others, and answers the status.
///
/// | Status | Where |
/// |---|---|
/// | 0 | it has, and `verified N` and LF are written, N how many they are |
/// | 2, 3 | the shelf isn't opened, for its description or for its leaves; a line says why |
/// | 6, 7 | the sink's, the shelf's count of faults rose, and does so at no other status |
/// | 9 | it hasn't, and `differs PATH` and LF are written, of the first path by its spelling |
/// | 11 | there was no memory |
pub fn run_verify<R, K, H, G>(
    means: &Means<'_, R, G>,
    sink: &mut K,
    shelf: &mut H,
    steps: &mut Steps,
) -> Status
where
    R: Threads + Sync + Clock + Log,
    K: Sink,
    H: Shelf,
    G: Gate + Sync,
    ensures run { RunsVerify (H.files shelf.old) (number_of result)
        (sink_bytes K.Sink sink.old) (sink_bytes K.Sink sink.new) }
    ensures kept { H.files shelf.new ≡ H.files shelf.old }
    ensures ends { IsAmong verify_statuses (number_of result) }
    ensures write_fault { CountsFault (nat_eq (number_of result) 6) (K.faults sink.old) (K.faults sink.new) }
    ensures shelf_fault { CountsFault (nat_eq (number_of result) 7) (H.faults shelf.old) (H.faults shelf.new) }
    ensures steps_never_fall { steps.old ≤ steps.new }
{
    match verify_survey(means, shelf, steps) {
        Ok(verdict) => say(means.alloc, sink, verdict_status(&verdict), &verdict),
        Err(refusal) => say_why(means.alloc, sink, &refusal),
    }
}

// The status of a verdict.
fn verdict_status(verdict: &Verdict) -> Status
    ensures status { number_of result ≡ verdict_status verdict.now }
    ensures either { (result ≡ Status.Done) ⊎ (result ≡ Status.Differs) }
{
    match verdict {
        Verdict::Same(_) => Status::Done,
        Verdict::Differs(_) => Status::Differs,
    }
}

// Compares the shelf with the survey that it describes.
fn verify_survey<R, H, G>(
    means: &Means<'_, R, G>,
    shelf: &mut H,
    steps: &mut Steps,
) -> Result<Verdict, LoadRefusal>
where
    R: Threads + Sync + Clock + Log,
    H: Shelf,
    G: Gate + Sync,
    ensures outcome { IsComparison (H.files shelf.old) result }
    ensures kept { H.files shelf.new ≡ H.files shelf.old }
    ensures faults { CountsFault (at_shelf result) (H.faults shelf.old) (H.faults shelf.new) }
    ensures steps_never_fall { steps.old ≤ steps.new }
{
    let Means { rt, alloc, gate } = *means;
    let generation = load(rt, alloc, shelf, gate, steps)?;
    match verify(rt, alloc, shelf, &generation) {
        Ok(verdict) => Ok(verdict),
        Err(fault) => Err(LoadRefusal::from(fault)),
    }
}
