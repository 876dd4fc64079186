//! What follows from the definitions: the law is the whole contract of its function.
ghost use Rattle.past_frame.specs.Laws.{RecordsStand};

/// The record that comes first in some bytes comes first in them and any more. If no line of a record comes, none comes
/// however the input goes on.
pub fn records_stand()
    ensures { RecordsStand }
{}
