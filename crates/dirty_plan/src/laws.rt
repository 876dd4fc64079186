//! What follows from the definitions alone. Each function does nothing: its contract is the law.
ghost use Rattle.dirty_plan.specs.Laws.{DirtyCellsAreAncestors, MoreTouchedIsMoreWork};

/// The dirty cells of an order ascend, each stands once, and they are exactly the ancestors of touched leaves.
pub fn dirty_cells_are_ancestors()
    ensures { DirtyCellsAreAncestors }
{}

/// Where more leaves are touched, there is at least as much work.
pub fn more_touched_is_more_work()
    ensures { MoreTouchedIsMoreWork }
{}
