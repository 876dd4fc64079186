//! The permits that are left to hand out.
ghost use Rattle.std.specs.Prelude.{◌≡◌, ◌≤◌, List, ℕ, [], ◌∷◌, ◌++◌, length, MatchOption, OnOk, OnErr, IfOk};
ghost use Rattle.parent_rule.specs.Permit.{PermittedCell};
ghost use Rattle.dirty_plan.specs.Dirty.{permits_of, steps_after};

use parent_rule::{Permit, Steps};
use std::alloc::{AllocError, Global};
use std::collections::VecDeque;
use std::marker::Model;

// The permits of one order.
struct Level {
    order: u8,
    permits: Vec<Permit>,
}

impl Level {
    // Uses the permits up.
    fn spend(self) {
        let Level {
            order: _,
            mut permits,
        } = self;
        while let Some(permit) = permits.pop() {
            permit.spend();
        }
        permits.destroy_empty();
    }
}

/// The orders with stale tiles that weren't taken yet, deepest first, each with its permits. Contracts see the list of these
/// pairs. Dropping the list consumes the permits that weren't taken.
pub struct Worklist {
    levels: VecDeque<Level>,
}

impl Drop for Worklist {
    fn drop(self) {
        let Worklist { mut levels } = self;
        while let Some(level) = levels.pop_front() {
            level.spend();
        }
        levels.destroy_empty();
    }
}

impl Model for Worklist {
    ghost use Rattle.std.specs.Prelude.{ℕ, List, map};
    ghost use Rattle.parent_rule.specs.Permit.{PermittedCell};

    ghost Value = { List (ℕ × List PermittedCell) };

    ghost view = { λ w. map (λ level. (level.order, level.permits.items)) w.levels.items };
}

impl Worklist {
    // No order.
    pub(crate) fn new(alloc: Global) -> Worklist
        ensures { result ≡ [] }
    {
        Worklist {
            levels: VecDeque::new(alloc),
        }
    }

    // Puts these cells of an order last, with a permit for each.
    pub(crate) fn push(
        &mut self,
        alloc: Global,
        order: u8,
        cells: &[u64],
        steps: &mut Steps,
    ) -> Result<(), AllocError>
        ensures pushed { OnOk result (self.new ≡ self.old ++ (order, permits_of order cells.now) ∷ []) }
        ensures counted { OnOk result (steps.new ≡ steps_after steps.old (length cells.now)) }
        ensures refused { OnErr result (steps.new ≡ steps.old) }
    {
        self.levels.reserve(1)?;
        let permits = issue(alloc, order, cells, steps)?;
        self.levels.push_back_reserved(Level { order, permits });
        Ok(())
    }

    /// The next order and its permits, ascending, the deepest order first; `None` exactly when all orders were taken.
    pub fn take(&mut self) -> Option<(u8, Vec<Permit>)>
        ensures { MatchOption result ((self.old ≡ []) × (self.new ≡ [])) (λ level. self.old ≡ (level.0, level.1.items) ∷ self.new) }
    {
        let Level { order, permits } = self.levels.pop_front()?;
        Some((order, permits))
    }
}

// A permit for each of the cells.
fn issue(
    alloc: Global,
    order: u8,
    cells: &[u64],
    steps: &mut Steps,
) -> Result<Vec<Permit>, AllocError>
    ensures permits { IfOk result (λ permits. permits.items ≡ permits_of order cells.now) }
    ensures counted { OnOk result (steps.new ≡ steps_after steps.old (length cells.now)) }
    ensures refused { OnErr result (steps.new ≡ steps.old) }
{
    // For the prover: a count fits 64 bits.
    let _count = steps.count();
    let mut permits = Vec::with_capacity(alloc, cells.len())?;
    for cell in cells {
        permits.push_reserved(Permit::issue(order, *cell, steps));
    }
    Ok(permits)
}
