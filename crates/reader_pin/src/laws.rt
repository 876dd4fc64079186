//! What follows from the definitions alone. The function does nothing: its contract is the law.
ghost use Rattle.reader_pin.specs.Laws.{AloneSeesAll};

/// A board all of whose steps are its own sees no other: a call without an event changes nothing, an event is the next step,
/// and a publication publishes all edits.
pub fn alone_sees_all()
    ensures { AloneSeesAll }
{}
