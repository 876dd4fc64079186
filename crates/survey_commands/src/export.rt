//! The command `export`: the survey that the shelf describes is put on the shelf.
ghost use Rattle.std.specs.Prelude.{◌≡◌, ◌≤◌, nat_eq, Some};
ghost use Rattle.survey_link.specs.Link.{CountsFault};
ghost use Rattle.command_output.specs.Output.{sink_bytes};
ghost use Rattle.command_output.specs.Status.{IsAmong, number_of};
ghost use Rattle.shelf_io.specs.Refusals.{at_shelf};
ghost use Rattle.survey_commands.specs.Survey.{IsExport, SaysExport, RunsExport, export_statuses, export_text};

use crate::refusing::say_why;
use command_output::{Status, say};
use log::Log;
use parent_rule::Steps;
use shelf_io::{LoadRefusal, export, load};
use std::fmt;
use std::thread::Threads;
use std::time::Clock;
use survey_link::{Gate, Means, Shelf, Sink};

// How many files were put on the shelf.
#[derive(Drop)]
struct Exported(u64);

impl fmt::Display for Exported {
    ghost output = { λ exported. Some (export_text exported.0) };

    fn fmt<W: fmt::Write>(&self, f: &mut fmt::Formatter<W>) -> fmt::Result {
        write!(f, "exported {}", self.0)
    }
}

/// Opens the shelf, puts the survey's files on it, writes `exported N` and LF, N how many they are, and answers the status.
///
/// | Status | Where |
/// |---|---|
/// | 0 | the files are on the shelf, and the line is written |
/// | 2, 3 | the shelf isn't opened, for its description or for its leaves; a line says why |
/// | 6, 7 | the sink's, the shelf's count of faults rose, and does so at no other status |
/// | 11 | there was no memory |
pub fn run_export<R, K, H, G>(
    means: &Means<'_, R, G>,
    sink: &mut K,
    shelf: &mut H,
    steps: &mut Steps,
) -> Status
where
    R: Threads + Sync + Clock + Log,
    K: Sink,
    H: Shelf,
    G: Gate + Sync,
    ensures run { RunsExport (H.files shelf.old) (H.files shelf.new) (number_of result)
        (sink_bytes K.Sink sink.old) (sink_bytes K.Sink sink.new) }
    ensures ends { IsAmong export_statuses (number_of result) }
    ensures write_fault { CountsFault (nat_eq (number_of result) 6) (K.faults sink.old) (K.faults sink.new) }
    ensures shelf_fault { CountsFault (nat_eq (number_of result) 7) (H.faults shelf.old) (H.faults shelf.new) }
    ensures steps_never_fall { steps.old ≤ steps.new }
{
    match export_survey(means, shelf, steps) {
        Ok(count) => say(means.alloc, sink, Status::Done, &Exported(count)),
        Err(refusal) => say_why(means.alloc, sink, &refusal),
    }
}

// Puts the files of the survey that the shelf describes on it, and answers how many they are.
fn export_survey<R, H, G>(
    means: &Means<'_, R, G>,
    shelf: &mut H,
    steps: &mut Steps,
) -> Result<u64, LoadRefusal>
where
    R: Threads + Sync + Clock + Log,
    H: Shelf,
    G: Gate + Sync,
    ensures outcome { IsExport (H.files shelf.old) (H.files shelf.new) result }
    ensures faults { CountsFault (at_shelf result) (H.faults shelf.old) (H.faults shelf.new) }
    ensures steps_never_fall { steps.old ≤ steps.new }
{
    let Means { rt, alloc, gate } = *means;
    let generation = load(rt, alloc, shelf, gate, steps)?;
    match export(rt, alloc, shelf, &generation) {
        Ok(count) => Ok(count),
        Err(fault) => Err(LoadRefusal::from(fault)),
    }
}
