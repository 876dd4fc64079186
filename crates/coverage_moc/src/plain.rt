//! The plain program: it asks each cell of each order by itself whether it is a row of the cover. It is slow, and what `Cover`
//! is compared with.
ghost use Rattle.std.specs.Prelude.{◌≡◌, ◌^◌, ◌<◌, ◌≤◌, ◌++◌, IfOk, OnOk};
ghost use Rattle.coverage_moc.specs.Cover.{has, is_full, is_row, rows_of_order, cover};

use crate::leaves::first_number;
use healpix_nested::cells;
use std::alloc::{AllocError, Global};

/// The cover of the leaves with these numbers, in whatever order they are given.
///
/// # Errors
///
/// `AllocError` where there is no memory for it.
pub fn cover(alloc: Global, top: u8, leaves: &[u64]) -> Result<Vec<u64>, AllocError>
    requires { top ≤ 11 }
    ensures { IfOk result (λ rows. rows.items ≡ cover top leaves.now) }
{
    let mut rows = Vec::new(alloc);
    for order in 0..top + 1 {
        push_rows(top, leaves, order, &mut rows)?;
    }
    Ok(rows)
}

// Appends the rows of one order.
fn push_rows(top: u8, leaves: &[u64], order: u8, rows: &mut Vec<u64>) -> Result<(), AllocError>
    requires top { top ≤ 11 }
    requires order { order ≤ top }
    ensures { OnOk result (rows.new.items ≡ rows.old.items ++ rows_of_order top leaves.now order) }
{
    for cell in 0..cells(order) {
        if is_row(top, leaves, order, cell) {
            rows.push(first_number(order) + cell)?;
        }
    }
    Ok(())
}

// Whether every leaf under the cell is there, and that doesn't hold for its parent.
fn is_row(top: u8, leaves: &[u64], order: u8, cell: u64) -> bool
    requires top { top ≤ 11 }
    requires order { order ≤ top }
    ensures { result ≡ is_row top leaves.now order cell }
{
    is_full(top, leaves, order, cell) && (order == 0 || !is_full(top, leaves, order - 1, cell / 4))
}

// Whether every leaf under the cell is there.
fn is_full(top: u8, leaves: &[u64], order: u8, cell: u64) -> bool
    requires top { top ≤ 11 }
    requires order { order ≤ top }
    ensures { result ≡ is_full top leaves.now order cell }
{
    let below = cells_below(top - order);
    for leaf in 0..cells(top) {
        if leaf / below == cell && !is_there(leaves, leaf) {
            return false;
        }
    }
    true
}

// How many cells lie that many orders below one cell: a twelfth of how many cells the order has.
fn cells_below(levels: u8) -> u64
    requires { levels ≤ 11 }
    ensures count { result ≡ 4 ^ levels }
    ensures some { 0 < result }
{
    cells(levels) / 12
}

// Whether the leaf is there.
fn is_there(leaves: &[u64], leaf: u64) -> bool
    ensures { result ≡ has leaves.now leaf }
{
    leaves.iter().any(|other| *other == leaf)
}
