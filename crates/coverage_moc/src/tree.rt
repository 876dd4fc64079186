//! Rows as a tree of cells: the number of a cell, its children, and whether it is covered.
ghost use Rattle.std.specs.Prelude.{All, IsTrue, ◌↔◌, ◌≡◌, ◌+◌, ◌*◌, ◌^◌, ◌<◌, ◌≤◌};
ghost use Rattle.std.specs.List.{list_all};
ghost use Rattle.healpix_nested.specs.Cells.{cell_count, uniq_number};
ghost use Rattle.coverage_moc.specs.Cover.{has, IsAscending, cover, is_under, leaves_under};
ghost use Rattle.coverage_moc.specs.Rows.{children as spec_children, is_alone, IsMaximalRow};

use crate::rows::has_row;
use crate::written::WrittenRows;
use healpix_nested::Cell;

/// The number of a cell among the cells of all orders.
pub(crate) fn uniq(order: u8, npix: u64) -> u64
    requires order { order ≤ 11 }
    requires cell { npix < cell_count order }
    ensures { result ≡ uniq_number order npix }
{
    match Cell::new(order, npix) {
        Some(cell) => cell.uniq(),
        None => unreachable!(),
    }
}

/// The numbers of the four children of a cell of the order above.
pub(crate) fn children(order: u8, parent: u64) -> [u64; 4]
    requires order { order ≤ 11 }
    requires cells { 4 * parent + 4 ≤ cell_count order }
    ensures { result ≡ spec_children order parent }
{
    let first = 4 * parent;
    [
        uniq(order, first),
        uniq(order, first + 1),
        uniq(order, first + 2),
        uniq(order, first + 3),
    ]
}

/// Whether a cell lies under some row.
pub(crate) fn is_covered(rows: &[u64], order: u8, npix: u64) -> bool
    requires order { order ≤ 11 }
    requires cell { npix < cell_count order }
    requires ascending { IsAscending rows.now }
    ensures { result ≡ is_under order rows.now npix }
{
    has_row(rows, uniq(order, npix)) || order > 0 && is_covered(rows, order - 1, npix / 4)
}

/// Whether these are the rows of a cover: ascending cells of orders up to `top`, none under another, and no four siblings.
pub(crate) fn is_canonical(top: u8, rows: &WrittenRows<'_>) -> bool
    requires { top ≤ 11 }
    ensures { IsTrue result ↔ (rows.now ≡ cover top (leaves_under top rows.now)) }
{
    is_ascending(rows) && are_maximal(top, rows)
}

// Whether each row is below the next.
fn is_ascending(rows: &WrittenRows<'_>) -> bool
    ensures { IsTrue result ↔ IsAscending rows.now }
{
    for i in 1..rows.len() {
        if rows.at(i) <= rows.at(i - 1) {
            return false;
        }
    }
    true
}

// Whether all rows are cells of orders up to `top` that lie under no other row and don't stand with their three siblings.
fn are_maximal(top: u8, rows: &WrittenRows<'_>) -> bool
    requires top { top ≤ 11 }
    requires ascending { IsAscending rows.now }
    ensures { IsTrue result ↔ All (IsMaximalRow top rows.now) rows.now }
{
    for i in 0..rows.len() {
        let maximal = is_maximal(top, rows, rows.at(i));
        if !maximal {
            return false;
        }
    }
    true
}

// Whether a row is the number of such a cell.
fn is_maximal(top: u8, rows: &WrittenRows<'_>, row: u64) -> bool
    requires top { top ≤ 11 }
    requires ascending { IsAscending rows.now }
    ensures { IsTrue result ↔ IsMaximalRow top rows.now row }
{
    match Cell::from_uniq(row) {
        Some(cell) => cell.order() <= top && stands_alone(rows, cell.order(), cell.npix()),
        None => false,
    }
}

// Whether a cell lies under no row of a lower order and doesn't stand with its three siblings.
fn stands_alone(rows: &WrittenRows<'_>, order: u8, npix: u64) -> bool
    requires order { order ≤ 11 }
    requires cell { npix < cell_count order }
    requires ascending { IsAscending rows.now }
    ensures { result ≡ is_alone rows.now order npix }
{
    order == 0 || !rows.covers(order - 1, npix / 4) && !has_children(rows, order, npix / 4)
}

// Whether all four children of a cell of the order above are rows.
fn has_children(rows: &WrittenRows<'_>, order: u8, parent: u64) -> bool
    requires order { order ≤ 11 }
    requires cells { 4 * parent + 4 ≤ cell_count order }
    requires ascending { IsAscending rows.now }
    ensures { result ≡ list_all (has rows.now) (spec_children order parent) }
{
    children(order, parent).iter().all(|row| rows.has(*row))
}
