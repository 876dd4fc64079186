//! What is written if the shelf isn't opened.
ghost use Rattle.std.specs.Prelude.{◌≡◌, nat_eq, Err, ⊤};
ghost use Rattle.survey_link.specs.Link.{CountsFault};
ghost use Rattle.command_output.specs.Output.{sink_bytes};
ghost use Rattle.command_output.specs.Status.{IsAmong, number_of};
ghost use Rattle.shelf_io.specs.Refusals.{at_shelf};
ghost use Rattle.survey_commands.specs.Survey.{SaysWhy, unopened_statuses};

use command_output::{Status, say};
use shelf_io::LoadRefusal;
use std::alloc::Global;
use survey_link::Sink;

/// Writes why the shelf isn't opened, and answers the status: `BadConf` for its description, `BadLeaves` for its leaves;
/// `ShelfFault` where the shelf failed and `OutOfMemory` where there was no memory, of which nothing is written.
pub fn say_why<K: Sink>(alloc: Global, sink: &mut K, refusal: &LoadRefusal) -> Status
    ensures said { SaysWhy refusal.now (number_of result) (sink_bytes K.Sink sink.old) (sink_bytes K.Sink sink.new) }
    ensures ends { IsAmong unopened_statuses (number_of result) }
    ensures write_fault { CountsFault (nat_eq (number_of result) 6) (K.faults sink.old) (K.faults sink.new) }
    ensures shelf_fault { nat_eq (number_of result) 7 ≡ at_shelf {A = ⊤} (Err refusal.now) }
{
    match refusal {
        LoadRefusal::NoConf | LoadRefusal::Conf(_) => say(alloc, sink, Status::BadConf, refusal),
        LoadRefusal::Tile { .. } | LoadRefusal::TooMany { .. } => say(
            alloc,
            sink,
            Status::BadLeaves,
            refusal,
        ),
        LoadRefusal::ShelfFault => Status::ShelfFault,
        LoadRefusal::OutOfMemory => Status::OutOfMemory,
    }
}
