//! What follows from the definitions alone. Each function does nothing: its contract is the law.
ghost use Rattle.shared_history.specs.Laws.{PlacesAreOwn, EachIsOneSeats};

/// The places of a seat's own states are those whose owner is that seat, each once, in ascending order.
pub fn places_are_own()
    ensures { PlacesAreOwn }
{}

/// Each state of a history but the first is some seat's own, and one's alone.
pub fn each_is_one_seats()
    ensures { EachIsOneSeats }
{}
