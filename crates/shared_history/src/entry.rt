//! An entry of a book.
ghost use Rattle.std.specs.Prelude.{◌≡◌};
ghost use Rattle.std.specs.Arc.{arc_value};

use std::marker::Model;
use std::sync::Arc;

/// A state in a book, with the number of the seat that appended it; with how many seats there are, where it is the first.
#[derive(Drop)]
pub struct Entry<S: Drop> {
    number: usize,
    state: Arc<S>,
}

impl<S: Drop> Model for Entry<S> {
    ghost use Rattle.std.specs.Arc.{arc_value};
    ghost use Rattle.shared_history.specs.Book.{Numbered};

    ghost Value = { Numbered S };

    ghost view = { λ e. record { number = e.number; state = arc_value e.state } };
}

impl<S: Drop> Entry<S> {
    /// The state with that number.
    pub(crate) fn new(number: usize, state: Arc<S>) -> Entry<S>
        ensures { result ≡ record { number = number; state = arc_value state } }
    {
        Entry { number, state }
    }

    /// The state.
    pub(crate) fn into_state(self) -> Arc<S>
        ensures { arc_value result ≡ self.state }
    {
        let Entry { number: _, state } = self;
        state
    }
}
