//! The catalogue of an input of lines.
ghost use Rattle.std.specs.Prelude.{◌≡◌, ℕ, ◌+◌, ◌<◌, ◌≤◌, ◌++◌, List, Some, Option, true, false, Ok, IfOk, OnOk, IfErr};
ghost use Rattle.survey_link.specs.Link.{CountsFault};
ghost use Rattle.std.specs.Io.KnownBytes.{IsAtEnd};
ghost use Rattle.hips_catalog.specs.Catalogue.{Catalogue, no_rows};
ghost use Rattle.survey_link.specs.Inbox.{held, size};
ghost use Rattle.catalog_command.specs.Input.{OfInput};
ghost use Rattle.catalog_command.specs.Lines.{after_input, after_line, catalogue_of, most_lines, then_lines};
ghost use Rattle.catalog_command.specs.Stops.{TellsStop, IsReading, read_failed};
ghost use Rattle.catalog_command.specs.Judging.{judged, numbered, TakesLine};

use crate::found::Found;
use crate::line::{LineRefusal, use_line};
use crate::lines::{ROOM, find};
use crate::refusal::{BadLine, CatalogRefusal, LineFault};
use command_output::Progress;
use hips_catalog::Catalog;
use log::Log;
use std::alloc::Global;
use std::time::Clock;
use survey_link::{Inbox, Source};

// How many lines there are at most.
const MOST_LINES: u64 = 2_000_000;

/// The catalogue that the lines of the input give.
///
/// # Errors
///
/// The first in the input: `Line` where one has a fault, `Cut` where it ends within one; `ReadFault` only where the source's
/// count of faults rose; `OutOfMemory`.
pub(crate) fn read_catalog<R: AllocGlobal + Clock + Log, S: Source>(
    rt: &R,
    top: u8,
    per_tile: u32,
    source: &mut S,
) -> Result<Catalog, CatalogRefusal>
    requires top { top ≤ 11 }
    requires least { 1 ≤ per_tile }
    requires most { per_tile ≤ 4096 }
    ensures read { IfOk result (λ catalog. OfInput (λ input. catalogue_of top per_tile input ≡ Ok catalog) (S.left source.old) (S.left source.new)) }
    ensures stopped { IfErr result (λ stop. OfInput (λ input. TellsStop (catalogue_of top per_tile input) stop) (S.left source.old) (S.left source.new)) }
    ensures kinds { IfErr result IsReading }
    ensures end { OnOk result (IsAtEnd (S.left source.new)) }
    ensures faults { CountsFault (read_failed result) (S.faults source.old) (S.faults source.new) }
{
    let mut catalog = Catalog::new(rt.alloc(), top, per_tile);
    let mut inbox = Inbox::new(rt.alloc(), ROOM)?;
    let mut progress = Progress::begin(rt, "lines read", None);
    let mut number = 1;
    'lines: loop {
        if !take_line(rt.alloc(), &mut inbox, source, number, top, &mut catalog)? {
            return Ok(catalog);
        }
        progress.part_done(rt);
        number += 1;
    }
}

// Uses the line of this number, which comes next in the input; false at the end of the input.
fn take_line<S: Source>(
    alloc: Global,
    inbox: &mut Inbox,
    source: &mut S,
    number: u64,
    top: u8,
    catalog: &mut Catalog,
) -> Result<bool, CatalogRefusal>
    requires top { catalog.old.top ≡ top }
    requires few { top ≤ 11 }
    requires size { size inbox.old ≡ 65536 }
    ensures size { size inbox.new ≡ size inbox.old }
    ensures taken { result ≡ Ok true
        → TakesLine number catalog.old catalog.new (held inbox.old) (held inbox.new) (S.left source.old) (S.left source.new) }
    ensures last { result ≡ Ok false
        → OfInput (λ input. after_input catalog.old number (held inbox.old ++ input) ≡ Ok catalog.new) (S.left source.old) (S.left source.new) }
    ensures stopped { IfErr result (λ stop.
        OfInput (λ input. TellsStop (after_input catalog.old number (held inbox.old ++ input)) stop) (S.left source.old) (S.left source.new)) }
    ensures kinds { IfErr result IsReading }
    ensures end { result ≡ Ok false → IsAtEnd (S.left source.new) }
    ensures more { result ≡ Ok true → number ≤ most_lines }
    ensures top { catalog.new.top ≡ catalog.old.top }
    ensures faults { CountsFault (read_failed result) (S.faults source.old) (S.faults source.new) }
{
    let found = find(inbox, source)?;
    match judged(number, found)? {
        None => Ok(false),
        Some(count) => {
            used(
                number,
                use_line(alloc, catalog, top, &inbox.held()[..count]),
            )?;
            inbox.give(count + 1);
            Ok(true)
        }
    }
}

// How many bytes the line of this number has, by what comes next; `None` at the end of the input.
fn judged(number: u64, found: Found) -> Result<Option<usize>, CatalogRefusal>
    ensures judged { result ≡ judged number found }
    ensures kinds { IfErr result IsReading }
{
    if found == Found::End {
        return Ok(None);
    }
    if number > MOST_LINES {
        return Err(stop_at(number, LineFault::Many));
    }
    match found {
        Found::Line(count) => Ok(Some(count)),
        Found::Long => Err(stop_at(number, LineFault::Long)),
        Found::Cut => Err(CatalogRefusal::Cut),
        Found::End => Ok(None),
    }
}

// What use was made of a line, as that of this number.
fn used(number: u64, used: Result<(), LineRefusal>) -> Result<(), CatalogRefusal>
    ensures numbered { result ≡ numbered number used }
    ensures kinds { IfErr result IsReading }
{
    match used {
        Ok(()) => Ok(()),
        Err(LineRefusal::Fault(fault)) => Err(stop_at(number, fault)),
        Err(LineRefusal::OutOfMemory) => Err(CatalogRefusal::OutOfMemory),
    }
}

// The fault of the line of this number.
fn stop_at(line: u64, fault: LineFault) -> CatalogRefusal
    ensures { result ≡ CatalogRefusal.Line (record { line = line; fault = fault }) }
{
    CatalogRefusal::Line(BadLine { line, fault })
}
