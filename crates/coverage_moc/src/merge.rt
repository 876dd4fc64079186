//! The cover of all leaves: four full cells are one full cell of the order above.
ghost use Rattle.std.specs.Prelude.{◌≡◌, ◌+◌, ◌-◌, ◌/◌, ◌%◌, ◌<◌, ◌≤◌, ◌==◌, ◌&&◌, ◌||◌, ◌++◌, not, length, map, filter, slice_index, All, IfOk, OnOk};
ghost use Rattle.healpix_nested.specs.Cells.{cell_count, uniq_number};
ghost use Rattle.coverage_moc.specs.Cover.{has, IsAscending, cover};
ghost use Rattle.coverage_moc.specs.Rows.{four};

use crate::tree::uniq;
use std::alloc::{AllocError, Global};

/// Adds the rows of the cover of these cells of an order, which are full.
pub(crate) fn push_cover(
    alloc: Global,
    order: u8,
    full: &[u64],
    rows: &mut Vec<u64>,
) -> Result<(), AllocError>
    requires order { order ≤ 11 }
    requires ascending { IsAscending full.now }
    requires cells { All (λ p. p < cell_count order) full.now }
    ensures { OnOk result (rows.new.items ≡ rows.old.items ++ cover order full.now) }
{
    if order == 0 {
        return push_rows(order, full, rows);
    }
    let above = full_above(alloc, full)?;
    push_cover(alloc, order - 1, &above, rows)?;
    push_rows(order, full, rows)
}

// The cells of the order above all of whose children are there.
fn full_above(alloc: Global, full: &[u64]) -> Result<Vec<u64>, AllocError>
    requires { IsAscending full.now }
    ensures { IfOk result (λ above. above.items ≡ map (λ p. p / 4) (filter (λ p. (p % 4 == 0) && four (has full.now) (p / 4)) full.now)) }
{
    let mut above = Vec::new(alloc);
    for i in 0..full.len() {
        if full[i] % 4 == 0 && has_siblings(full, i) {
            above.push(full[i] / 4)?;
        }
    }
    Ok(above)
}

// Adds those of these cells of an order that don't stand with their three siblings; at order 0 all of them.
fn push_rows(order: u8, full: &[u64], rows: &mut Vec<u64>) -> Result<(), AllocError>
    requires order { order ≤ 11 }
    requires ascending { IsAscending full.now }
    requires cells { All (λ p. p < cell_count order) full.now }
    ensures { OnOk result (rows.new.items ≡ rows.old.items ++ map (uniq_number order) (filter (λ p. (order == 0) || not (four (has full.now) (p / 4))) full.now)) }
{
    for i in 0..full.len() {
        if order == 0 || !has_siblings(full, i) {
            rows.push(uniq(order, full[i]))?;
        }
    }
    Ok(())
}

// Whether all four children of the cell over cell `i` of these are there.
fn has_siblings(full: &[u64], i: usize) -> bool
    requires ascending { IsAscending full.now }
    requires i { i < length full.now }
    ensures { result ≡ four (has full.now) (slice_index full.now i / 4) }
{
    let child = (full[i] % 4) as usize;
    if i < child || full.len() - (i - child) < 4 {
        return false;
    }
    let start = i - child;
    let first = full[i] / 4 * 4;
    full[start] == first && full[start + 3] == first + 3
}
