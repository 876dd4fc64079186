//! The whole command.
ghost use Rattle.std.specs.Prelude.{◌≡◌, ◌≢◌, ℕ, ◌≤◌, List, Some, IfOk, OnOk, nat_eq, Err};
ghost use Rattle.std.specs.Io.KnownBytes.{IsAtEnd};
ghost use Rattle.survey_link.specs.Link.{CountsFault};
ghost use Rattle.command_output.specs.Output.{sink_bytes};
ghost use Rattle.command_output.specs.Status.{IsAmong, number_of};
ghost use Rattle.catalog_command.specs.Input.{OfInput};
ghost use Rattle.catalog_command.specs.Lines.{catalogue_of};
ghost use Rattle.catalog_command.specs.Stops.{read_failed, stopped_at_shelf};
ghost use Rattle.catalog_command.specs.Run.{RunsCatalog, IsOutcome, SaysOutcome, catalog_statuses, refused_statuses};

use crate::counts::Counts;
use crate::logging::{say_stop, say_written};
use crate::reading::read_catalog;
use crate::refusal::CatalogRefusal;
use crate::tiles::put_tiles;
use command_output::{Status, say};
use log::Log;
use std::alloc::Global;
use std::time::Clock;
use survey_link::{Shelf, Sink, Source};

/// Reads lines to the end of the input, each a row or a removal, makes the catalogue tiles on the shelf those of their
/// catalogue, writes `rows R tiles T` and LF, and answers the status. The catalogue's deepest order is `top`, and a tile above
/// it holds at most `per_tile` rows. Over a source whose bytes the proof can't see, it is so of the bytes that were read, as though
/// the input ended behind them.
///
/// | Status | Where |
/// |---|---|
/// | 0 | the tiles are on the shelf, and the line is written |
/// | 4 | the input ends within a line; the shelf stays |
/// | 5, 6, 7 | the source's, the sink's, the shelf's count of faults rose, and does so at no other status |
/// | 11 | there was no memory |
/// | 16 | a line has a fault; `row LINE KIND` and LF are written, and the shelf stays |
pub fn run_catalog<R, S, K, H>(
    rt: &R,
    top: u8,
    per_tile: u32,
    source: &mut S,
    sink: &mut K,
    shelf: &mut H,
) -> Status
where
    R: AllocGlobal + Clock + Log,
    S: Source,
    K: Sink,
    H: Shelf,
    requires top { top ≤ 11 }
    requires least { 1 ≤ per_tile }
    requires most { per_tile ≤ 4096 }
    ensures run { OfInput (λ input. RunsCatalog top per_tile input (H.files shelf.old) (H.files shelf.new) (number_of result)
        (sink_bytes K.Sink sink.old) (sink_bytes K.Sink sink.new)) (S.left source.old) (S.left source.new) }
    ensures end { number_of result ≡ 0 → IsAtEnd (S.left source.new) }
    ensures ends { IsAmong catalog_statuses (number_of result) }
    ensures read_fault { CountsFault (nat_eq (number_of result) 5) (S.faults source.old) (S.faults source.new) }
    ensures write_fault { CountsFault (nat_eq (number_of result) 6) (K.faults sink.old) (K.faults sink.new) }
    ensures shelf_fault { CountsFault (nat_eq (number_of result) 7) (H.faults shelf.old) (H.faults shelf.new) }
{
    match put_catalog(rt, top, per_tile, source, shelf) {
        Ok(counts) => say(rt.alloc(), sink, Status::Done, &counts),
        Err(stop) => {
            say_stop(rt, stop);
            end_by(rt.alloc(), sink, stop)
        }
    }
}

// Puts the catalogue of the input on the shelf.
fn put_catalog<R, S, H>(
    rt: &R,
    top: u8,
    per_tile: u32,
    source: &mut S,
    shelf: &mut H,
) -> Result<Counts, CatalogRefusal>
where
    R: AllocGlobal + Clock + Log,
    S: Source,
    H: Shelf,
    requires top { top ≤ 11 }
    requires least { 1 ≤ per_tile }
    requires most { per_tile ≤ 4096 }
    ensures outcome { OfInput (λ input. IsOutcome (catalogue_of top per_tile input) (H.files shelf.old) (H.files shelf.new) result)
        (S.left source.old) (S.left source.new) }
    ensures end { OnOk result (IsAtEnd (S.left source.new)) }
    ensures read_fault { CountsFault (read_failed result) (S.faults source.old) (S.faults source.new) }
    ensures shelf_fault { CountsFault (stopped_at_shelf result) (H.faults shelf.old) (H.faults shelf.new) }
{
    let catalog = read_catalog(rt, top, per_tile, source)?;
    let tiles = put_tiles(rt, shelf, &catalog)?;
    let rows = catalog.len();
    say_written(rt, rows, tiles);
    Ok(Counts { rows, tiles })
}

// Writes why there is no catalogue, if that is written, and answers the status.
fn end_by<K: Sink>(alloc: Global, sink: &mut K, stop: CatalogRefusal) -> Status
    ensures said { SaysOutcome (Err stop) (number_of result) (sink_bytes K.Sink sink.old) (sink_bytes K.Sink sink.new) }
    ensures ends { IsAmong refused_statuses (number_of result) }
    ensures read_fault { nat_eq (number_of result) 5 ≡ read_failed {A = Counts} (Err stop) }
    ensures write_fault { CountsFault (nat_eq (number_of result) 6) (K.faults sink.old) (K.faults sink.new) }
    ensures shelf_fault { nat_eq (number_of result) 7 ≡ stopped_at_shelf {A = Counts} (Err stop) }
{
    match stop {
        CatalogRefusal::Cut => Status::Cut,
        CatalogRefusal::Line(bad) => say(alloc, sink, Status::BadRow, &bad),
        CatalogRefusal::ReadFault => Status::ReadFault,
        CatalogRefusal::ShelfFault => Status::ShelfFault,
        CatalogRefusal::OutOfMemory => Status::OutOfMemory,
    }
}
