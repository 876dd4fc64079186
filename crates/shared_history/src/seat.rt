//! A place at a history that was just opened.
ghost use Rattle.std.specs.Prelude.{◌≡◌, ◌<◌, []};
ghost use Rattle.shared_history.specs.Histories.{places_of};

use crate::book::{Law, Naming};
use crate::shown::Shown;
use crate::window::Window;
use std::marker::Model;

/// A window with what was seen through it, and the number of the seat, which has appended nothing yet. Contracts see the
/// latter two.
#[derive(Drop)]
pub struct Seat<S: Drop, L: Law<S>, J: Naming> {
    number: usize,
    window: Window<S, L, J>,
    seen: Shown<S, L, J>,
}

impl<S: Drop, L: Law<S>, J: Naming> Model for Seat<S, L, J> {
    ghost use Rattle.std.specs.Prelude.{◌≡◌, ◌<◌, []};
    ghost use Rattle.shared_history.specs.Histories.{places_of, SeatContent};

    ghost Value = { SeatContent S };

    ghost view = { λ s. record { number = s.number; seen = s.seen } };

    ghost invariant = { λ s. (s.number < s.seen.seats) × (places_of s.number s.seen.owners ≡ []) };
}

impl<S: Drop, L: Law<S>, J: Naming> Seat<S, L, J> {
    pub(crate) fn new(number: usize, window: Window<S, L, J>, seen: Shown<S, L, J>) -> Seat<S, L, J>
        requires seated { number < seen.seats }
        requires fresh { places_of number seen.owners ≡ [] }
        ensures { result ≡ record { number = number; seen = seen } }
    {
        Seat {
            number,
            window,
            seen,
        }
    }

    /// Its number, and its two parts.
    pub fn into_parts(self) -> (usize, Window<S, L, J>, Shown<S, L, J>)
        ensures number { result.0 ≡ self.number }
        ensures seen { result.2 ≡ self.seen }
        ensures seated { result.0 < result.2.seats }
        ensures fresh { places_of result.0 result.2.owners ≡ [] }
    {
        let Seat {
            number,
            window,
            seen,
        } = self;
        (number, window, seen)
    }
}
