//! Worked plans.
ghost use Rattle.std.specs.Prelude.{◌<◌, All, IsTrue};
ghost use Rattle.std.specs.List.Sorted.{IsStrictlyIncreasing};
ghost use Rattle.healpix_nested.specs.Cells.{cell_count};

use dirty_plan::{Worklist, plan};
use healpix_nested::cells;
use parent_rule::{Permit, Steps};
use std::alloc::Global;
use std::test::Fail;

// An order and its cells.
type Order<'a> = (u8, &'a [u64]);

// Whether each number is below the next.
fn ascend(numbers: &[u64]) -> bool
    ensures { IsTrue result → IsStrictlyIncreasing numbers.now }
{
    for i in 1..numbers.len() {
        if numbers[i - 1] >= numbers[i] {
            return false;
        }
    }
    true
}

// Whether all are cells of the order.
fn are_cells(order: u8, numbers: &[u64]) -> bool
    ensures { IsTrue result → All (λ cell. cell < cell_count order) numbers.now }
{
    if order > 20 {
        return false;
    }
    let end = cells(order);
    numbers.iter().all(|number| *number < end)
}

// Whether the permits are those of these cells; it uses them up.
fn are_of(order: u8, cells: &[u64], mut permits: Vec<Permit>) -> bool {
    let mut same = permits.len() == cells.len();
    while let Some(permit) = permits.pop() {
        let wanted = cells.get(permits.len()).copied();
        same = same && permit.order() == order && wanted == Some(permit.npix());
        permit.spend();
    }
    permits.destroy_empty();
    same
}

// Whether these permits come next.
fn next_is(list: &mut Worklist, (order, cells): Order<'_>) -> bool {
    match list.take() {
        Some((found, permits)) => are_of(order, cells, permits) && found == order,
        None => false,
    }
}

// Whether all orders were taken.
fn is_taken(list: &mut Worklist) -> bool {
    match list.take() {
        Some((order, permits)) => {
            are_of(order, &[], permits);
            false
        }
        None => true,
    }
}

// The orders of the leaves and of the lowest tiles, the touched leaves, the cells of each order, and how many these are.
type PlanRow = (u8, u8, &'static [u64], &'static [Order<'static>], u64);

static PLANS: [PlanRow; 6] = [
    (4, 3, &[0, 1, 4, 3071], &[(3, &[0, 1, 767])], 3),
    (5, 3, &[0, 16], &[(4, &[0, 4]), (3, &[0, 1])], 4),
    (5, 3, &[], &[(4, &[]), (3, &[])], 0),
    (3, 3, &[0, 5], &[], 0),
    (4, 2, &[0, 15, 16], &[(3, &[0, 3, 4]), (2, &[0, 1])], 5),
    (
        3,
        0,
        &[0, 63, 767],
        &[(2, &[0, 15, 191]), (1, &[0, 3, 47]), (0, &[0, 11])],
        8,
    ),
];

// Whether these orders come next, and no other.
fn comes(list: &mut Worklist, wanted: &[Order<'_>]) -> bool {
    for order in wanted {
        if !next_is(list, *order) {
            return false;
        }
    }
    is_taken(list)
}

// The plan of these leaves.
fn planned(
    alloc: Global,
    top: u8,
    low: u8,
    touched: &[u64],
    steps: &mut Steps,
) -> Result<Worklist, Fail> {
    if low > 3 || top < 3 || top > 11 || !ascend(touched) || !are_cells(top, touched) {
        return Err("no leaves of a survey".into());
    }
    Ok(plan(alloc, top, low, touched, steps)?)
}

// Whether the plan of a row has its orders.
fn is_planned(alloc: Global, row: &PlanRow) -> Result<bool, Fail> {
    let (top, low, touched, wanted, work) = *row;
    let mut steps = Steps::new();
    let mut list = planned(alloc, top, low, touched, &mut steps)?;
    Ok(steps.count() == work && comes(&mut list, wanted))
}

#[test]
fn plans(rt: HostRuntime) -> Result<(), Fail> {
    for row in &PLANS {
        assert!(rt; is_planned(rt.alloc(), row)?, "{row:?}");
    }
    Ok(())
}

// Whether the first order comes, and all others are dropped.
fn is_let_go(alloc: Global) -> Result<bool, Fail> {
    let mut steps = Steps::new();
    let mut list = planned(alloc, 11, 0, &[7], &mut steps)?;
    Ok(steps.count() == 11 && next_is(&mut list, (10, &[1])))
}

#[test]
fn a_list_may_be_let_go(rt: HostRuntime) -> Result<(), Fail> {
    assert!(rt; is_let_go(rt.alloc())?);
    Ok(())
}
