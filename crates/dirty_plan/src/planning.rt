//! From the touched leaves to the lowest order.
ghost use Rattle.std.specs.Prelude.{◌≡◌, ◌<◌, ◌≤◌, All, OnOk, OnErr, IfOk};
ghost use Rattle.std.specs.List.Sorted.{IsStrictlyIncreasing};
ghost use Rattle.healpix_nested.specs.Cells.{cell_count};
ghost use Rattle.dirty_plan.specs.Dirty.{dirty, work, steps_after};
ghost use Rattle.dirty_plan.specs.Climb.{parents};

use crate::worklist::Worklist;
use parent_rule::Steps;
use std::alloc::{AllocError, Global};

/// A permit for each cell of the orders from `top - 1` down to `low` under which one of the touched leaves, cells of order
/// `top`, lies. The steps rise by the number of permits, and at a refusal by at most that number.
///
/// # Errors
///
/// `AllocError` where there is no memory for the permits.
pub fn plan(
    alloc: Global,
    top: u8,
    low: u8,
    touched: &[u64],
    steps: &mut Steps,
) -> Result<Worklist, AllocError>
    requires lowest { low ≤ 3 }
    requires least_top { 3 ≤ top }
    requires greatest_top { top ≤ 11 }
    requires ascending { IsStrictlyIncreasing touched.now }
    requires leaves { All (λ leaf. leaf < cell_count top) touched.now }
    ensures planned { IfOk result (λ list. list ≡ dirty top low touched.now) }
    ensures counted { OnOk result (steps.new ≡ steps_after steps.old (work top low touched.now)) }
    ensures refused { OnErr result (steps.new ≤ steps_after steps.old (work top low touched.now)) }
    ensures never_falls { steps.old ≤ steps.new }
{
    // For the prover: a count fits 64 bits.
    let _count = steps.count();
    let mut cells = touched.to_vec(alloc)?;
    let mut list = Worklist::new(alloc);
    for order in (low..top).rev() {
        climb(&mut cells);
        list.push(alloc, order, &cells, steps)?;
    }
    Ok(list)
}

// Puts the parents of ascending cells in their place, each once: they ascend too.
fn climb(cells: &mut Vec<u64>)
    ensures { cells.new.items ≡ parents cells.old.items }
{
    for cell in cells.iter_mut() {
        *cell /= 4;
    }
    cells.dedup();
}
