//! The state that a board holds.
ghost use Rattle.std.specs.Prelude.{◌≡◌};

/// None, the last state seen, or one before it. A state that is the last one is kept once.
#[derive(Drop)]
pub(crate) enum Held<S: Drop> {
    Nothing,
    Last,
    Earlier(S),
}

impl<S: Drop> Held<S> {
    ghost use Rattle.reader_pin.specs.Held.{held_behind};

    /// What is held once that state isn't the last one any more.
    pub(crate) fn behind(self, last: S) -> Held<S>
        ensures { result ≡ held_behind last self }
    {
        match self {
            Held::Nothing => Held::Nothing,
            Held::Last => Held::Earlier(last),
            Held::Earlier(state) => Held::Earlier(state),
        }
    }
}
