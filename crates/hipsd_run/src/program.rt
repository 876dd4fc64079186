//! The whole program, over whatever ends it is given.
ghost use Rattle.std.specs.Prelude.{◌≡◌, ◌≤◌, nat_eq};
ghost use Rattle.healpix_nested.specs.Cells.{cell_count};
ghost use Rattle.survey_link.specs.Link.{CountsFault};
ghost use Rattle.command_output.specs.Status.{IsAmong, number_of};
ghost use Rattle.leaf_probe.specs.Probe.{IsProbe};
ghost use Rattle.leaf_probe.specs.Reading.{ReadsToTheEnd};
ghost use Rattle.hips_http.specs.Moment.{connection_of};
ghost use Rattle.hips_place.specs.Place.{door_of};
ghost use Rattle.hipsd_run.specs.Command.{texts};
ghost use Rattle.hipsd_run.specs.Probe.{RunsProbe, probe_statuses};
ghost use Rattle.hipsd_run.specs.Runs.{RunsWords, PrintsUsage, ends_of};

use crate::command::{Command, command_for};
use crate::help::say_commands;
use catalog_command::run_catalog;
use command_output::{Status, write_out};
use leaf_probe::{Probe, probe};
use log::Log;
use parent_rule::Steps;
use std::alloc::Global;
use std::sync::Wait;
use std::thread::Threads;
use std::time::Clock;
use survey_commands::{
    run_export, run_make, run_mirror, run_past, run_serve, run_session, run_verify,
};
use survey_link::{Door, Gate, Means, Shelf, Sink, Source};

/// Runs the command that the words ask for, over these ends, and answers its status.
///
/// | Status | Where |
/// |---|---|
/// | 0 | the command is done |
/// | 1 | the command line is invalid; `usage: hipsd COMMAND` and LF are written |
/// | 2 | the shelf has no `survey.conf`, and `conf absent` and LF are written; or this has a fault: `conf LINE KIND` and LF |
/// | 3 | the file of a leaf is refused: `tile PATH FAULT` and LF are written; or there are too many: `leaves N` and LF |
/// | 4 | `probe`, `past`: the input ends within a record; `session`: within a request; `catalog`: within a line; `mirror`: within a reply |
/// | 5, 6, 7 | the source's, the sink's, the shelf's count of faults rose, and does so at no other status |
/// | 8 | `serve`: a door's count of faults rose; the other places went on to their ends |
/// | 9 | `verify`: the shelf differs from the survey |
/// | 10 | `probe`: no leaf lies at or under the asked tile |
/// | 11 | there was no memory |
/// | 12 | `probe`, `past`: the input goes on after 65,536 records; `session`: 65,536 requests were answered, and none asked to close |
/// | 13 | `probe`: the asked tile is no cell of its order, or a record's number is no leaf's |
/// | 14 | `session`: the framing of a request is refused |
/// | 16 | `catalog`: a line has a fault, and `row LINE KIND` and LF are written |
/// | 17 | `past`: a record has no line of its form |
/// | 21 to 26 | `mirror`: a reply is malformed; the properties, the coverage are refused; there are too many leaves; a leaf is refused; the properties or the mosaic aren't those of the leaves |
///
/// Of a tile nothing is written with a status but 0 and 6.
///
/// It has the right to wait only for `serve`, whose places share a lock. Each other command is a function without that right.
pub fn run<R, S, K, H, D, G>(
    rt: &R,
    words: &[String],
    source: &mut S,
    sink: &mut K,
    shelf: &mut H,
    doors: &mut Vec<D>,
    gate: &G,
    steps: &mut Steps,
) -> u8
where
    R: AllocGlobal + Threads + Wait + Sync + Clock + Log,
    S: Source,
    K: Sink,
    H: Shelf,
    D: Door + Send,
    D::In: Send,
    D::Out: Send,
    G: Gate + Sync,
    ensures runs { RunsWords (texts words.now)
        (ends_of S.Source K.Sink H.Shelf (door_of D.Door) source.old sink.old shelf.old doors.old steps.old)
        (ends_of S.Source K.Sink H.Shelf (door_of D.Door) source.new sink.new shelf.new doors.new steps.new)
        result }
{
    let alloc = rt.alloc();
    let means = Means { rt, alloc, gate };
    match command_for(words, doors.len()) {
        None => {
            say_commands(rt, words);
            usage(sink).number()
        }
        Some(command) => match command {
            Command::Probe(asked) => run_probe(alloc, &asked, source, sink, steps).number(),
            Command::Session => run_session(&means, source, sink, shelf, steps).number(),
            Command::Export => run_export(&means, sink, shelf, steps).number(),
            Command::Verify => run_verify(&means, sink, shelf, steps).number(),
            Command::Make { number, edits } => {
                run_make(&means, number, edits, sink, steps).number()
            }
            Command::Serve(asked) => run_serve(&means, asked, sink, shelf, steps, doors).number(),
            Command::Past { cache } => run_past(&means, cache, source, sink, shelf, steps).number(),
            Command::Catalog { top, per_tile } => {
                run_catalog(rt, top, per_tile, source, sink, shelf).number()
            }
            Command::Mirror => run_mirror(&means, source, sink, shelf, steps).number(),
        },
    }
}

// Writes how the program is called.
fn usage<K: Sink>(sink: &mut K) -> Status
    ensures prints { PrintsUsage (K.held sink.old) (K.held sink.new) (K.flushed sink.new) (number_of result) }
    ensures fault { CountsFault (nat_eq (number_of result) 6) (K.faults sink.old) (K.faults sink.new) }
{
    match write_out(sink, b"usage: hipsd COMMAND\n") {
        Ok(()) => Status::Usage,
        Err(_) => Status::WriteFault,
    }
}

// Runs `probe`, and answers its status.
fn run_probe<S: Source, K: Sink>(
    alloc: Global,
    asked: &Probe,
    source: &mut S,
    sink: &mut K,
    steps: &mut Steps,
) -> Status
    requires { IsProbe asked.now }
    ensures run { RunsProbe asked.now
        (connection_of S.Source K.Sink source.old sink.old) (connection_of S.Source K.Sink source.new sink.new)
        steps.old steps.new (number_of result) }
    ensures range { cell_count asked.now.order ≤ asked.now.npix → (number_of result ≡ 13) × (source.new ≡ source.old) }
    ensures reads { ReadsToTheEnd (S.left source.old) (S.left source.new) (S.readings source.old) (S.readings source.new) }
    ensures ends { IsAmong probe_statuses (number_of result) }
    ensures read_fault { CountsFault (nat_eq (number_of result) 5) (S.faults source.old) (S.faults source.new) }
    ensures write_fault { CountsFault (nat_eq (number_of result) 6) (K.faults sink.old) (K.faults sink.new) }
    ensures steps_never_fall { steps.old ≤ steps.new }
{
    match probe(alloc, asked, source, sink, steps) {
        Ok(()) => Status::Done,
        Err(fault) => fault.status(),
    }
}
