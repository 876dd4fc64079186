//! The leaves under the rows, order by order: the children of those of the order above, and the order's own rows.
ghost use Rattle.std.specs.Prelude.{ℕ, IsTrue, ◌↔◌, ◌||◌, IfOk, OnOk, flat_map, ◌≡◌, ◌+◌, ◌*◌, ◌^◌, ◌<◌, ◌≤◌, ◌&&◌, nat_le, nat_lt, length, count_by, All};
ghost use Rattle.healpix_nested.specs.Cells.{uniq_number};
ghost use Rattle.coverage_moc.specs.Cover.{has, IsAscending, cover, leaves_under};
ghost use Rattle.coverage_moc.specs.Rows.{IsMaximalRow, four_cells};

use crate::rows::put_row;
use healpix_nested::cells;
use std::alloc::{AllocError, Global};

/// How many leaves there are under the rows of a cover.
pub(crate) fn leaf_count(top: u8, rows: &[u64]) -> u64
    requires top { top ≤ 11 }
    requires rows { rows.now ≡ cover top (leaves_under top rows.now) }
    ensures { result ≡ length (leaves_under top rows.now) }
{
    cell_count(top, rows)
}

// How many cells of an order lie under the rows of orders up to it.
fn cell_count(order: u8, rows: &[u64]) -> u64
    requires order { order ≤ 11 }
    requires ascending { IsAscending rows.now }
    requires few { length rows.now < 2 ^ 32 }
    requires alone { All (IsMaximalRow 11 rows.now) rows.now }
    ensures count { result ≡ length (leaves_under order rows.now) }
    ensures at_most { result + 2 ^ 32 ≤ 2 ^ 33 * 4 ^ order }
{
    let own = row_count(order, rows);
    if order == 0 {
        return own;
    }
    4 * cell_count(order - 1, rows) + own
}

// How many rows are cells of that order.
fn row_count(order: u8, rows: &[u64]) -> u64
    requires order { order ≤ 11 }
    requires few { length rows.now < 2 ^ 32 }
    ensures count { result ≡ count_by (λ row. nat_le (4 * 4 ^ order) row && nat_lt row (16 * 4 ^ order)) rows.now }
    ensures at_most { result < 2 ^ 32 }
{
    let first = first_number(order);
    rows_between(first, 4 * first, rows)
}

// How many rows are at least `low` and below `high`.
fn rows_between(low: u64, high: u64, rows: &[u64]) -> u64
    requires { length rows.now < 2 ^ 32 }
    ensures count { result ≡ count_by (λ row. nat_le low row && nat_lt row high) rows.now }
    ensures at_most { result < 2 ^ 32 }
{
    rows.iter()
        .filter(|row| low <= **row && **row < high)
        .count() as u64
}

/// The numbers of the leaves under the rows of a cover, ascending.
pub(crate) fn covered_leaves(alloc: Global, top: u8, rows: &[u64]) -> Result<Vec<u64>, AllocError>
    requires top { top ≤ 11 }
    requires rows { rows.now ≡ cover top (leaves_under top rows.now) }
    ensures { IfOk result (λ leaves. leaves.items ≡ leaves_under top rows.now) }
{
    cells_under(alloc, top, rows)
}

// The cells of an order that lie under the rows of orders up to it, ascending.
fn cells_under(alloc: Global, order: u8, rows: &[u64]) -> Result<Vec<u64>, AllocError>
    requires { order ≤ 11 }
    ensures { IfOk result (λ cells. cells.items ≡ leaves_under order rows.now) }
{
    if order == 0 {
        let mut first = Vec::new(alloc);
        put_own(order, rows, &mut first)?;
        return Ok(first);
    }
    let above = cells_under(alloc, order - 1, rows)?;
    let mut under = children_of(alloc, &above)?;
    put_own(order, rows, &mut under)?;
    Ok(under)
}

// The four children of each of these cells.
fn children_of(alloc: Global, parents: &[u64]) -> Result<Vec<u64>, AllocError>
    requires { All (λ p. p < 2 ^ 32) parents.now }
    ensures { IfOk result (λ cells. cells.items ≡ flat_map four_cells parents.now) }
{
    let mut cells = Vec::new(alloc);
    for parent in parents {
        let first = 4 * *parent;
        cells.extend_from_slice(&[first, first + 1, first + 2, first + 3])?;
    }
    Ok(cells)
}

// Puts in the cells of an order that are rows of their own.
fn put_own(order: u8, rows: &[u64], under: &mut Vec<u64>) -> Result<(), AllocError>
    requires order { order ≤ 11 }
    requires ascending { IsAscending under.old.items }
    ensures ascending { IsAscending under.new.items }
    ensures own { OnOk result ((p : ℕ) → has under.new.items p ≡ (has under.old.items p || (nat_lt p (12 * 4 ^ order) && has rows.now (uniq_number order p)))) }
{
    let first = first_number(order);
    for row in rows {
        let own = is_between(first, 4 * first, *row);
        if own {
            put_row(under, *row - first)?;
        }
    }
    Ok(())
}

/// The least number of a cell of that order: a third of how many cells it has.
pub(crate) fn first_number(order: u8) -> u64
    requires { order ≤ 11 }
    ensures number { result ≡ 4 * 4 ^ order }
    ensures at_most { result < 2 ^ 32 }
{
    cells(order) / 3
}

// Whether a row is at least `low` and below `high`.
fn is_between(low: u64, high: u64, row: u64) -> bool
    ensures { IsTrue result ↔ ((low ≤ row) × (row < high)) }
{
    low <= row && row < high
}
