//! One cell more or less: four siblings become the row above them, or a row above is cut into its children.
ghost use Rattle.std.specs.Prelude.{◌≡◌, ◌<◌, ◌≤◌, ◌∷◌, List, ℕ, false, IfOk, OnOk};
ghost use Rattle.healpix_nested.specs.Cells.{cell_count};
ghost use Rattle.coverage_moc.specs.Cover.{has, IsAscending, cover, leaves_under, without};
ghost use Rattle.coverage_moc.specs.Rows.{AgreesUpTo, SameAbove};

use crate::rows::{has_rows, put_row, put_rows, take_row, take_rows};
use crate::tree::{children, is_covered, uniq};
use std::alloc::{AllocError, Global};

// How many rows more than before a change can leave at most: three siblings of each of the eleven orders below order 0.
const MOST_NEW_ROWS: usize = 33;

/// The rows of the cover of the leaves under these rows and of one leaf more, which may be among them.
pub(crate) fn rows_with(
    alloc: Global,
    top: u8,
    rows: &[u64],
    leaf: u64,
) -> Result<Vec<u64>, AllocError>
    requires top { top ≤ 11 }
    requires leaf { leaf < cell_count top }
    requires rows { rows.now ≡ cover top (leaves_under top rows.now) }
    ensures { IfOk result (λ more. more.items ≡ cover top (leaf ∷ leaves_under top rows.now)) }
{
    let mut more = copied(alloc, rows)?;
    if is_covered(rows, top, leaf) {
        return Ok(more);
    }
    add_cell(&mut more, top, leaf)?;
    Ok(more)
}

/// The rows of the cover of the leaves under these rows without one leaf, which need not be among them.
pub(crate) fn rows_without(
    alloc: Global,
    top: u8,
    rows: &[u64],
    leaf: u64,
) -> Result<Vec<u64>, AllocError>
    requires top { top ≤ 11 }
    requires leaf { leaf < cell_count top }
    requires rows { rows.now ≡ cover top (leaves_under top rows.now) }
    ensures { IfOk result (λ fewer. fewer.items ≡ cover top (without leaf (leaves_under top rows.now))) }
{
    let mut fewer = copied(alloc, rows)?;
    remove_cell(&mut fewer, top, leaf)?;
    Ok(fewer)
}

// The rows, with room for those that a change adds.
fn copied(alloc: Global, rows: &[u64]) -> Result<Vec<u64>, AllocError>
    ensures { IfOk result (λ copy. copy.items ≡ rows.now) }
{
    let mut copy = Vec::with_capacity(alloc, rows.len().saturating_add(MOST_NEW_ROWS))?;
    copy.extend_from_slice(rows)?;
    Ok(copy)
}

// Adds a cell that isn't covered.
fn add_cell(rows: &mut Vec<u64>, order: u8, npix: u64) -> Result<(), AllocError>
    requires order { order ≤ 11 }
    requires cell { npix < cell_count order }
    requires ascending { IsAscending rows.old.items }
    ensures ascending { IsAscending rows.new.items }
    ensures added { OnOk result ((cells : List ℕ) → has cells npix ≡ false → AgreesUpTo order rows.old.items cells → AgreesUpTo order rows.new.items (npix ∷ cells)) }
    ensures same { OnOk result (SameAbove order rows.new.items rows.old.items) }
{
    put_row(rows, uniq(order, npix))?;
    if order > 0 && has_rows(rows, &children(order, npix / 4)) {
        take_rows(rows, &children(order, npix / 4));
        add_cell(rows, order - 1, npix / 4)?;
    }
    Ok(())
}

// Removes a cell, and says whether it was covered.
fn remove_cell(rows: &mut Vec<u64>, order: u8, npix: u64) -> Result<bool, AllocError>
    requires order { order ≤ 11 }
    requires cell { npix < cell_count order }
    requires ascending { IsAscending rows.old.items }
    ensures ascending { IsAscending rows.new.items }
    ensures was { IfOk result (λ was. (cells : List ℕ) → AgreesUpTo order rows.old.items cells → was ≡ has cells npix) }
    ensures removed { OnOk result ((cells : List ℕ) → AgreesUpTo order rows.old.items cells → AgreesUpTo order rows.new.items (without npix cells)) }
    ensures same { OnOk result (SameAbove order rows.new.items rows.old.items) }
{
    if take_row(rows, uniq(order, npix)) {
        return Ok(true);
    }
    if order == 0 {
        return Ok(false);
    }
    let covered = remove_cell(rows, order - 1, npix / 4)?;
    if !covered {
        return Ok(false);
    }
    put_rows(rows, &children(order, npix / 4))?;
    take_row(rows, uniq(order, npix));
    Ok(true)
}
