//! What follows from the definitions alone. Each function does nothing: its contract is the law.
ghost use Rattle.coverage_moc.specs.Laws.{LeavesComeBack, LeavesDecide};

/// The leaves under the rows of a cover are those that it was made of.
pub fn leaves_come_back()
    ensures { LeavesComeBack }
{}

/// Two sets of the same leaves have the same cover.
pub fn leaves_decide()
    ensures { LeavesDecide }
{}
