//! A history that was seen.
ghost use Rattle.std.specs.Prelude.{◌≡◌, ◌<◌, ◌++◌, ◌∷◌, [], length, IfOk};
ghost use Rattle.std.specs.Arc.{arc_value};
ghost use Rattle.shared_history.specs.Book.{head_of};
ghost use Rattle.shared_history.specs.Histories.{IsSeenHistory, one_state, and_then, TellsMore};

use crate::book::{Kept, Law, Naming};
use crate::entry::Entry;
use crate::page::Page;
use logbook::{Seen, Word};
use std::alloc::{AllocError, Global};
use std::marker::{Model, PhantomData};
use std::sync::Arc;

/// A history that was seen of the book `J`. Contracts see its states; it has the last of them. A copy is a count that rises.
#[derive(Drop)]
pub struct Shown<S: Drop, L: Law<S>, J: Naming> {
    page: Page<S, L>,
    of: PhantomData<J>,
}

impl<S: Drop, L: Law<S>, J: Naming> Model for Shown<S, L, J> {
    ghost use Rattle.std.specs.Prelude.{◌≡◌};
    ghost use Rattle.shared_history.specs.Histories.{SeenHistory};

    ghost Value = { SeenHistory S };

    ghost view = { λ s. s.page.history };

    ghost invariant = { λ s. s.page.book ≡ J.book };
}

impl<S: Drop, L: Law<S>, J: Naming> Shown<S, L, J> {
    /// The history of one state, which is the first of its book, with so many seats.
    pub(crate) fn begin(
        alloc: Global,
        head: &Word<Entry<S>, u64, Kept<L>>,
        past: Seen<Entry<S>, u64, Kept<L>>,
        seats: usize,
        first: Arc<S>,
    ) -> Result<Shown<S, L, J>, AllocError>
        requires head { head.now ≡ head_of J.book }
        requires book { past.book ≡ J.book }
        requires empty { past.log ≡ [] }
        requires legal { L.legal (arc_value first ∷ []) }
        ensures { IfOk result (λ shown. shown ≡ one_state seats (arc_value first)) }
    {
        Ok(Shown::of(Page::begin(alloc, head, past, seats, first)?))
    }

    /// What is seen of the book.
    pub(crate) fn of(page: Page<S, L>) -> Shown<S, L, J>
        requires { page.book ≡ J.book }
        ensures { result ≡ page.history }
    {
        Shown {
            page,
            of: PhantomData,
        }
    }

    /// The history with a state of that seat's more, which becomes the last of its book; and a copy.
    ///
    /// # Errors
    ///
    /// `AllocError` where the book's history isn't the one that was seen, or has 2^64 - 1 states, or there is no memory for it:
    /// it stays as it is.
    pub(crate) fn after(
        &self,
        alloc: Global,
        head: &Word<Entry<S>, u64, Kept<L>>,
        seat: usize,
        next: Arc<S>,
    ) -> Result<(Shown<S, L, J>, Shown<S, L, J>), AllocError>
        requires head { head.now ≡ head_of J.book }
        requires seated { seat < self.now.seats }
        requires legal { L.legal (self.now.states ++ arc_value next ∷ []) }
        ensures history { IfOk result (λ pair. pair.0 ≡ and_then self.now seat (arc_value next)) }
        ensures alike { IfOk result (λ pair. pair.1 ≡ pair.0) }
    {
        let (page, copy) = self.page.after(alloc, head, seat, next)?;
        Ok((Shown::of(page), Shown::of(copy)))
    }

    /// A copy.
    ///
    /// # Errors
    ///
    /// `AllocError` where a count of owners is full.
    pub fn again(&self) -> Result<Shown<S, L, J>, AllocError>
        ensures { IfOk result (λ shown. shown ≡ self.now) }
    {
        Ok(Shown::of(self.page.again()?))
    }

    /// A copy that can be shown.
    ///
    /// # Errors
    ///
    /// `AllocError` where a count of owners is full.
    pub(crate) fn page(&self) -> Result<Page<S, L>, AllocError>
        ensures book { IfOk result (λ page. page.book ≡ J.book) }
        ensures history { IfOk result (λ page. page.history ≡ self.now) }
    {
        self.page.again()
    }

    /// The last state.
    pub fn last(&self) -> &Arc<S>
        ensures last { arc_value result.now ≡ self.now.last }
        ensures seen { IsSeenHistory L.legal self.now }
    {
        self.page.last()
    }

    /// The last state, all else dropped.
    pub fn into_last(self) -> Arc<S>
        ensures { arc_value result ≡ self.last }
    {
        let Shown { page, of: _ } = self;
        page.into_last()
    }

    /// How many states it has.
    pub fn len(&self) -> u64
        ensures { result ≡ length self.now.states }
    {
        self.page.len()
    }

    /// How many seats the history has.
    pub fn seats(&self) -> usize
        ensures { result ≡ self.now.seats }
    {
        self.page.seats()
    }

    /// A copy of another of the same history, if that one has seen more, and what it has seen more isn't that seat's; `None`
    /// if both have seen the same.
    ///
    /// # Errors
    ///
    /// `AllocError` where the other has seen less, or more of that seat's, or a count of its owners is full.
    pub fn newer(
        &self,
        other: &Shown<S, L, J>,
        seat: usize,
    ) -> Result<Option<Shown<S, L, J>>, AllocError>
        requires { seat < self.now.seats }
        ensures { IfOk result (TellsMore seat self.now other.now) }
    {
        self.newer_page(&other.page, seat)
    }

    /// As `newer`, of what is shown of the book.
    pub(crate) fn newer_page(
        &self,
        other: &Page<S, L>,
        seat: usize,
    ) -> Result<Option<Shown<S, L, J>>, AllocError>
        requires book { other.now.book ≡ J.book }
        requires seated { seat < self.now.seats }
        ensures { IfOk result (TellsMore seat self.now other.now.history) }
    {
        match self.page.newer(other, seat)? {
            Some(page) => Ok(Some(Shown::of(page))),
            None => Ok(None),
        }
    }
}
