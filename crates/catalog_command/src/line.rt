//! What one line does to a catalogue.
ghost use Rattle.std.specs.Prelude.{◌≡◌, ◌≤◌, Ok};
ghost use Rattle.healpix_nested.specs.Cells.{IsCell};
ghost use Rattle.hips_catalog.specs.Reading.{read_row};
ghost use Rattle.catalog_command.specs.Lines.{is_removal, after_removal, after_row, after_line};
ghost use Rattle.catalog_command.specs.Answers.{IsAnswered};

use crate::refusal::LineFault;
use hips_catalog::laws::row_is_read;
use hips_catalog::{Catalog, InsertRefusal, Row, RowFault, RowRefusal, is_id};
use std::alloc::Global;

// How a line begins that takes a row out.
const REMOVAL: &[u8] = b"-\t";

/// Why a line wasn't used. The catalogue is then as it was.
#[derive(Clone, Copy, Debug, PartialEq, Eq)]
pub enum LineRefusal {
    /// It has a fault.
    Fault(LineFault),
    /// There was no memory.
    OutOfMemory,
}

/// Puts the row of a line in, or takes out the one that it names. The line is given without its line feed.
#[tactic(auto, unfolding(crate::specs::Lines::after_line))]
pub(crate) fn use_line(
    alloc: Global,
    catalog: &mut Catalog,
    top: u8,
    line: &[u8],
) -> Result<(), LineRefusal>
    requires top { catalog.old.top ≡ top }
    requires few { top ≤ 11 }
    ensures answered { IsAnswered (after_line catalog.old line.now) catalog.old result catalog.new }
    ensures top { catalog.new.top ≡ catalog.old.top }
{
    if line.starts_with(REMOVAL) {
        return remove(catalog, &line[REMOVAL.len()..]);
    }
    insert(alloc, catalog, top, line)
}

// Takes out the row of an id.
#[tactic(auto, unfolding(crate::specs::Lines::after_removal))]
fn remove(catalog: &mut Catalog, id: &[u8]) -> Result<(), LineRefusal>
    ensures answered { IsAnswered (after_removal catalog.old id.now) catalog.old result catalog.new }
    ensures top { catalog.new.top ≡ catalog.old.top }
{
    if !is_id(id) {
        return Err(LineRefusal::Fault(LineFault::Row(RowFault::Id)));
    }
    match catalog.remove(id) {
        Ok(true) => Ok(()),
        Ok(false) => Err(LineRefusal::Fault(LineFault::Absent)),
        // Taking a row out needs no memory.
        Err(_) => unreachable!(),
    }
}

// Puts the row of a line in.
fn insert(alloc: Global, catalog: &mut Catalog, top: u8, line: &[u8]) -> Result<(), LineRefusal>
    requires top { catalog.old.top ≡ top }
    requires few { top ≤ 11 }
    ensures answered { IsAnswered (after_row catalog.old (read_row catalog.old.top line.now)) catalog.old result catalog.new }
    ensures top { catalog.new.top ≡ catalog.old.top }
{
    // For the prover: the cell of a row that is read is of the deepest order.
    row_is_read();
    match Row::read(alloc, line, top) {
        Ok(row) => put_in(catalog, row),
        Err(RowRefusal::Fault(fault)) => Err(LineRefusal::Fault(LineFault::Row(fault))),
        Err(RowRefusal::OutOfMemory) => Err(LineRefusal::OutOfMemory),
    }
}

// Puts a row in.
#[tactic(auto, unfolding(crate::specs::Lines::after_row))]
fn put_in(catalog: &mut Catalog, row: Row) -> Result<(), LineRefusal>
    requires cell { IsCell catalog.old.top row.npix }
    ensures answered { IsAnswered (after_row catalog.old (Ok row)) catalog.old result catalog.new }
    ensures top { catalog.new.top ≡ catalog.old.top }
{
    match catalog.insert(row) {
        Ok(()) => Ok(()),
        Err(InsertRefusal::Twice) => Err(LineRefusal::Fault(LineFault::Twice)),
        Err(InsertRefusal::Full) => Err(LineRefusal::Fault(LineFault::Full)),
        Err(InsertRefusal::OutOfMemory) => Err(LineRefusal::OutOfMemory),
    }
}
