//! What follows from the definitions alone. Each function does nothing: its contract is the law.
ghost use Rattle.edit_journal.specs.Laws.{EditsGoOn, EditsKeepTheShape, EditsTouchTheirLeaves};

/// The leaves after some edits and more are those that the more leave of those that the some left, and so is the charge.
pub fn edits_go_on()
    ensures { EditsGoOn }
{}

/// Edits that fit the shape keep leaves that do.
pub fn edits_keep_the_shape()
    ensures { EditsKeepTheShape }
{}

/// A leaf that no edit is of stays as it is.
pub fn edits_touch_their_leaves()
    ensures { EditsTouchTheirLeaves }
{}
