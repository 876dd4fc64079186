//! What lies under the lock.
ghost use Rattle.std.specs.Prelude.{◌≡◌, ◌⊎◌, ◌<◌, ◌≤◌, ◌^◌, ◌++◌, ◌∷◌, [], map, length, All, IfOk, OnOk, OnErr};
ghost use Rattle.std.specs.List.{range_with_len};
ghost use Rattle.shared_history.specs.Book.{head_of};
ghost use Rattle.shared_history.specs.Histories.{places_of, and_then};

use crate::book::{Kept, Law, Naming};
use crate::entry::Entry;
use crate::page::{Page, Showable};
use crate::seat::Seat;
use crate::showing::Showing;
use crate::shown::Shown;
use crate::window::Window;
use logbook::Word;
use std::alloc::{AllocError, Global};
use std::marker::Model;
use std::sync::{Arc, Wait};

/// The right to append states to a history: its book's word, the writer that shows it to readers, and all of it. Contracts
/// see the history, and what readers are shown of it. It can't be dropped: end it by `close`.
pub struct Desk<S: Drop, L: Law<S>, J: Naming>
where
    Page<S, L>: Showable,
{
    alloc: Global,
    head: Word<Entry<S>, u64, Kept<L>>,
    showing: Showing<S, L, J>,
    newest: Shown<S, L, J>,
}

impl<S: Drop, L: Law<S>, J: Naming> Model for Desk<S, L, J>
where
    Page<S, L>: Showable,
{
    ghost use Rattle.std.specs.Prelude.{◌≡◌};
    ghost use Rattle.shared_history.specs.Book.{head_of};
    ghost use Rattle.shared_history.specs.Histories.{DeskContent};

    ghost Value = { DeskContent S };

    ghost view = { λ d. record { newest = d.newest; shown = d.showing } };

    ghost invariant = { λ d. d.head ≡ head_of J.book };
}

impl<S: Drop, L: Law<S>, J: Naming> Desk<S, L, J>
where
    Page<S, L>: Showable,
{
    /// A desk where `newest` is shown to so many readers.
    pub(crate) fn new(
        alloc: Global,
        head: Word<Entry<S>, u64, Kept<L>>,
        newest: Shown<S, L, J>,
        readers: usize,
    ) -> Result<Desk<S, L, J>, AllocError>
        requires head { head ≡ head_of J.book }
        requires readers { (0 < readers) × (readers < 2 ^ 32) }
        ensures newest { IfOk result (λ desk. desk.newest ≡ newest) }
        ensures shown { IfOk result (λ desk. desk.shown ≡ newest) }
    {
        let showing = Showing::new(alloc, newest.page()?, newest.page()?, readers)?;
        Ok(Desk {
            alloc,
            head,
            showing,
            newest,
        })
    }

    /// A seat that has seen the history.
    pub(crate) fn seat(&self, number: usize) -> Result<Seat<S, L, J>, AllocError>
        requires seated { number < self.now.newest.seats }
        requires fresh { places_of number self.now.newest.owners ≡ [] }
        ensures { IfOk result (λ seat. seat ≡ record { number = number; seen = self.now.newest }) }
    {
        let seen = self.newest.again()?;
        Ok(Seat::new(number, Window::of(self.showing.reader()?), seen))
    }

    /// So many seats of a history of one state, with the numbers from 0 on.
    pub(crate) fn seats(&self, count: usize) -> Result<Vec<Seat<S, L, J>>, AllocError>
        requires most { count ≤ self.now.newest.seats }
        requires fresh { self.now.newest.owners ≡ [] }
        ensures numbers { IfOk result (λ seats. map (λ seat. seat.number) seats.items ≡ range_with_len 0 count) }
        ensures seen { IfOk result (λ seats. All (λ seat. seat.seen ≡ self.now.newest) seats.items) }
    {
        let mut seats = Vec::new(self.alloc);
        for number in 0..count {
            seats.push(self.seat(number)?)?;
        }
        Ok(seats)
    }

    /// All of the history.
    pub fn newest(&self) -> &Shown<S, L, J>
        ensures { result.now ≡ self.now.newest }
    {
        &self.newest
    }

    /// Appends a state, which is that seat's, and shows the history to readers. It answers a copy of the history. It waits for
    /// readers that are still looking at what was shown before last.
    ///
    /// # Errors
    ///
    /// `AllocError` where there is no memory for the state: the history stays as it is. Where there is none to show the state,
    /// the history has it, and the next state is shown with it.
    pub fn append<R: Wait>(
        &mut self,
        rt: &R,
        seat: usize,
        next: S,
    ) -> Result<Shown<S, L, J>, AllocError>
        requires seated { seat < self.old.newest.seats }
        requires legal { L.legal (self.old.newest.states ++ next ∷ []) }
        ensures appended { IfOk result (λ shown. shown ≡ and_then self.old.newest seat next) }
        ensures own { IfOk result (λ shown. places_of seat shown.owners ≡ places_of seat self.old.newest.owners ++ length self.old.newest.states ∷ []) }
        ensures kept { OnOk result (self.new.newest ≡ and_then self.old.newest seat next) }
        ensures shown { (self.new.shown ≡ self.new.newest) ⊎ (self.new.shown ≡ self.old.shown) }
        ensures unchanged { OnErr result (self.new ≡ self.old) }
    {
        // For the prover: each state but the first has an owner.
        let _all = self.newest.last();
        let last = Arc::new(self.alloc, next)?;
        let (newest, answer) = self.newest.after(self.alloc, &self.head, seat, last)?;
        self.newest = newest;
        let _shown = self.show_newest(rt);
        Ok(answer)
    }

    // Shows all of the history to readers; where there is no memory for it, they are shown what they were.
    fn show_newest<R: Wait>(&mut self, rt: &R) -> Result<(), AllocError>
        ensures newest { self.new.newest ≡ self.old.newest }
        ensures shown { OnOk result (self.new.shown ≡ self.old.newest) }
        ensures stays { OnErr result (self.new.shown ≡ self.old.shown) }
    {
        let page = self.newest.page()?;
        self.showing.show(rt, page)
    }

    /// Ends it. It waits for readers that are still looking.
    pub(crate) fn close<R: Wait>(self, rt: &R) {
        let Desk {
            alloc: _,
            head: _head,
            showing,
            newest: _newest,
        } = self;
        showing.close(rt);
    }
}
