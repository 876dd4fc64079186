//! What is shown of a book: a history that was seen, with its last state.
ghost use Rattle.std.specs.Prelude.{◌≡◌, ◌<◌, ◌+◌, ◌++◌, ◌^◌, ◌∷◌, [], length, option_map, slice_index, slice_set, IfOk, IfSome};
ghost use Rattle.std.specs.Arc.{arc_value};
ghost use Rattle.shared_history.specs.Book.{head_of};
ghost use Rattle.shared_history.specs.Histories.{places_of, IsSeenHistory, one_state, and_then, TellsMore};

use crate::book::{Kept, Law, append};
use crate::entry::Entry;
use left_right::Absorb;
use logbook::{Seen, Word};
use std::alloc::{AllocError, Global};
use std::marker::Model;
use std::sync::Arc;

/// A history that was seen, whatever its book is. Contracts see the book and the history's states with their owners; it has the
/// last of them, and how many each seat appended. A copy is two counts that rise.
#[derive(Drop)]
pub struct Page<S: Drop, L: Law<S>> {
    last: Arc<S>,
    count: u64,
    made: Arc<Vec<u64>>,
    past: Seen<Entry<S>, u64, Kept<L>>,
}

impl<S: Drop, L: Law<S>> Model for Page<S, L> {
    ghost use Rattle.std.specs.Arc.{arc_value};
    ghost use Rattle.shared_history.specs.Book.{Shows, history_of, IsKeptSeen};

    ghost Value = { Shows S };

    ghost view = { λ p. record { book = p.past.book; history = history_of p.past.log (arc_value p.last) } };

    ghost invariant = { λ p. IsKeptSeen L.legal p.count (arc_value p.made).items (history_of p.past.log (arc_value p.last)) };
}

impl<S: Drop, L: Law<S>> Page<S, L> {
    /// The history of one state, which is the first of its book, with so many seats.
    pub(crate) fn begin(
        alloc: Global,
        head: &Word<Entry<S>, u64, Kept<L>>,
        mut past: Seen<Entry<S>, u64, Kept<L>>,
        seats: usize,
        first: Arc<S>,
    ) -> Result<Page<S, L>, AllocError>
        requires head { head.now ≡ head_of past.book }
        requires empty { past.log ≡ [] }
        requires legal { L.legal (arc_value first ∷ []) }
        ensures book { IfOk result (λ page. page.book ≡ past.book) }
        ensures history { IfOk result (λ page. page.history ≡ one_state seats (arc_value first)) }
    {
        let made = Arc::new(alloc, vec![in alloc; 0; seats]?)?;
        let entry = Entry::new(seats, first);
        if !append(head, &mut past, 0, 1, &entry) {
            return Err(AllocError);
        }
        Ok(Page {
            last: entry.into_state(),
            count: 1,
            made,
            past,
        })
    }

    /// The history with a state of that seat's more, which becomes the last of its book; and a copy.
    ///
    /// # Errors
    ///
    /// `AllocError` where the book's history isn't the one that was seen, or has 2^64 - 1 states, or there is no memory for it:
    /// it stays as it is.
    pub(crate) fn after(
        &self,
        alloc: Global,
        head: &Word<Entry<S>, u64, Kept<L>>,
        seat: usize,
        next: Arc<S>,
    ) -> Result<(Page<S, L>, Page<S, L>), AllocError>
        requires head { head.now ≡ head_of self.now.book }
        requires seated { seat < self.now.history.seats }
        requires legal { L.legal (self.now.history.states ++ arc_value next ∷ []) }
        ensures book { IfOk result (λ pages. pages.0.book ≡ self.now.book) }
        ensures history { IfOk result (λ pages. pages.0.history ≡ and_then self.now.history seat (arc_value next)) }
        ensures alike { IfOk result (λ pages. pages.1 ≡ pages.0) }
    {
        let count = self.count.checked_add(1).ok_or(AllocError)?;
        let made = Arc::new(alloc, one_more(alloc, self.made.as_slice(), seat)?)?;
        let (same, same_made) = (next.clone()?, made.clone()?);
        let mut past = self.past.again();
        let entry = Entry::new(seat, next);
        if !append(head, &mut past, self.count, count, &entry) {
            return Err(AllocError);
        }
        let copy = Page {
            last: same,
            count,
            made: same_made,
            past: past.again(),
        };
        let page = Page {
            last: entry.into_state(),
            count,
            made,
            past,
        };
        Ok((page, copy))
    }

    /// A copy.
    ///
    /// # Errors
    ///
    /// `AllocError` where a count of owners is full.
    pub(crate) fn again(&self) -> Result<Page<S, L>, AllocError>
        ensures { IfOk result (λ page. page ≡ self.now) }
    {
        Ok(Page {
            last: self.last.clone()?,
            count: self.count,
            made: self.made.clone()?,
            past: self.past.again(),
        })
    }

    /// The last state.
    pub(crate) fn last(&self) -> &Arc<S>
        ensures last { arc_value result.now ≡ self.now.history.last }
        ensures seen { IsSeenHistory L.legal self.now.history }
    {
        &self.last
    }

    /// The last state, all else dropped.
    pub(crate) fn into_last(self) -> Arc<S>
        ensures { arc_value result ≡ self.history.last }
    {
        let Page {
            last,
            count: _,
            made: _made,
            past: _past,
        } = self;
        last
    }

    /// How many states it has.
    pub(crate) fn len(&self) -> u64
        ensures { result ≡ length self.now.history.states }
    {
        self.count
    }

    /// How many seats its history has.
    pub(crate) fn seats(&self) -> usize
        ensures { result ≡ self.now.history.seats }
    {
        self.made.len()
    }

    // How many states a seat has appended.
    fn made_by(&self, seat: usize) -> u64
        requires { seat < self.now.history.seats }
        ensures { result ≡ length (places_of seat self.now.history.owners) }
    {
        self.made[seat]
    }

    /// A copy of another of the same book, if that one has seen more, and what it has seen more isn't that seat's; `None` if
    /// both have seen the same.
    ///
    /// # Errors
    ///
    /// `AllocError` where the other has seen less, or more of that seat's, or a count of its owners is full.
    pub(crate) fn newer(
        &self,
        other: &Page<S, L>,
        seat: usize,
    ) -> Result<Option<Page<S, L>>, AllocError>
        requires book { other.now.book ≡ self.now.book }
        requires seated { seat < self.now.history.seats }
        ensures book { IfOk result (λ more. IfSome more (λ page. page.book ≡ self.now.book)) }
        ensures more { IfOk result (λ more. TellsMore seat self.now.history other.now.history (option_map (λ page. page.history) more)) }
    {
        let mut both = self.past.again();
        both.learn(&other.past);
        if other.count < self.count {
            return Err(AllocError);
        }
        if other.count == self.count {
            return Ok(None);
        }
        let mine = self.made_by(seat);
        let theirs = other.made_by(seat);
        if theirs != mine {
            return Err(AllocError);
        }
        Ok(Some(other.again()?))
    }
}

// How many states each seat has appended, with one more of that seat's.
fn one_more(alloc: Global, made: &[u64], seat: usize) -> Result<Vec<u64>, AllocError>
    requires seated { seat < length made.now }
    requires fits { slice_index made.now seat + 1 < 2 ^ 64 }
    ensures { IfOk result (λ more. more.items ≡ slice_set made.now seat (slice_index made.now seat + 1)) }
{
    let mut more = Vec::from_slice(alloc, made)?;
    more[seat] += 1;
    Ok(more)
}

/// A value of which `left_right` keeps two copies, where an operation is a whole new value. Each `Page` is one; a type that
/// holds a `Desk` must say so by a bound if it is generic in the states or in their law.
pub trait Showable: Absorb<Self, State = Self> + Drop + Sized {
    ghost use Rattle.std.specs.Prelude.{◌≡◌};

    ghost whole: { (shown : Self) → Self.Absorb.state shown ≡ shown };

    ghost replaced: { (shown next : Self) → Self.Absorb.applied shown next ≡ next };
}

impl<S: Drop, L: Law<S>> Showable for Page<S, L> {
    ghost use Rattle.std.proofs.Common.{refl};

    ghost whole = { λ shown. refl };

    ghost replaced = { λ shown next. refl };
}

impl<S: Drop, L: Law<S>> Absorb<Page<S, L>> for Page<S, L> {
    type State = Page<S, L>;

    ghost state = { λ page. page };

    ghost applied = { λ page next. next };

    fn absorb_first(
        &mut self,
        operation: &Page<S, L>,
        _other: &Page<S, L>,
    ) -> Result<(), AllocError> {
        *self = operation.again()?;
        Ok(())
    }
}
