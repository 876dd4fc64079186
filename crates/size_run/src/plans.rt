//! Plans of as many touched leaves as a journal has edits, whose counter has passed a million.
ghost use Rattle.std.specs.Prelude.{◌<◌, All, IsTrue};
ghost use Rattle.std.specs.List.Sorted.{IsStrictlyIncreasing};
ghost use Rattle.healpix_nested.specs.Cells.{cell_count};

use dirty_plan::plan;
use healpix_nested::cells;
use parent_rule::Steps;
use std::alloc::{AllocError, Global};
use std::test::Fail;

const LEAVES: u64 = 65_536;

// How far a leaf is from the next.
const APART: u64 = 256;

const TOP: u8 = 11;

// After so many plans the counter has passed a million.
const PLANS: u32 = 4;

/// How many leaves were touched, the steps of some plans of them, and those of one more.
#[derive(Clone, Copy)]
pub struct PlanSizes {
    pub leaves: usize,
    pub before: u64,
    pub after: u64,
}

/// Those of plans of 65,536 leaves of order 11, each under a cell of order 7 of its own.
///
/// # Errors
///
/// Where there is no memory.
pub fn sizes(alloc: Global) -> Result<PlanSizes, Fail> {
    let touched = leaves(alloc)?;
    sizes_of(alloc, &touched)
}

fn leaves(alloc: Global) -> Result<Vec<u64>, AllocError> {
    let mut leaves = Vec::new(alloc);
    for i in 0..LEAVES {
        leaves.push(i * APART)?;
    }
    Ok(leaves)
}

fn sizes_of(alloc: Global, touched: &[u64]) -> Result<PlanSizes, Fail> {
    if !ascend(touched) || !are_leaves(touched) {
        return Err("no ascending leaves".into());
    }
    let mut steps = Steps::new();
    for _ in 0..PLANS {
        let _list = plan(alloc, TOP, 0, touched, &mut steps)?;
    }
    let before = steps.count();
    let _list = plan(alloc, TOP, 0, touched, &mut steps)?;
    Ok(PlanSizes {
        leaves: touched.len(),
        before,
        after: steps.count(),
    })
}

// Whether each number is below the next.
fn ascend(numbers: &[u64]) -> bool
    ensures { IsTrue result → IsStrictlyIncreasing numbers.now }
{
    for i in 1..numbers.len() {
        if numbers[i - 1] >= numbers[i] {
            return false;
        }
    }
    true
}

// Whether all are leaves.
fn are_leaves(numbers: &[u64]) -> bool
    ensures { IsTrue result → All (λ leaf. leaf < cell_count 11) numbers.now }
{
    let end = cells(TOP);
    numbers.iter().all(|number| *number < end)
}
