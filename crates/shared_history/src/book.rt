//! The book of a history.
ghost use Rattle.std.specs.Prelude.{◌≡◌, ◌+◌, ◌++◌, ◌∷◌, [], length, IsTrue};
ghost use Rattle.shared_history.specs.Book.{head_of, states_of};

use crate::entry::Entry;
use logbook::{Gain, Offer, Plain, Play, Rule, Seen, Start, Word};
use std::marker::{Brand, Model, PhantomData};

/// Which histories of states of type `S` there may be.
pub trait Law<S> {
    ghost use Rattle.std.specs.Prelude.{List};

    ghost legal: { List S → Type 0 };
}

/// Which book it is. Each call of a program picks it: values with one `J` are of one history.
pub trait Naming {
    ghost use Rattle.logbook.specs.Pages.{Book};

    ghost book: { Book };
}

impl Naming for Brand {
    ghost book = { record { number = 0; log_name = 0; cells_name = 0 } };
}

/// The rule of the book: its word is the length of the history, and the history is legal.
pub struct Kept<L> {
    of: PhantomData<L>,
}

impl<S: Drop, L: Law<S>> Rule<Entry<S>, u64> for Kept<L> {
    ghost use Rattle.std.specs.Prelude.{[]};
    ghost use base.Fml.{ftrue};
    ghost use Rattle.shared_history.specs.Book.{IsKeptHistory};

    ghost holds = { λ cells log. IsKeptHistory L.legal cells log };

    ghost first = { [] };

    ghost hinted = { λ n log. Unit {0} };

    ghost shows = { λ log. [] };

    ghost keeps = { λ names log. ftrue };

    ghost moves = { λ ask before after answer. Unit {0} };
}

/// Callers trade nothing.
pub struct Nothing;

impl<S: Drop> Gain<Entry<S>, u64> for Nothing {
    ghost use base.Fml.{ftrue};

    ghost after = { λ names about answer. ftrue };
}

/// The step that appends a state.
pub struct Add;

impl<S: Drop> Play<Entry<S>, u64> for Add {
    ghost use Rattle.shared_history.specs.Book.{Adds};

    ghost then = { Adds };
}

/// What a step asks for: the entry.
impl<S: Drop> Plain<Entry<S>, Entry<S>, u64> for Add {
    ghost use Rattle.std.specs.Prelude.{None};

    ghost ask = { λ entry. entry };

    ghost state = { λ entry. None };
}

/// A book with an empty history, which has no name yet. Contracts see which book it is.
#[derive(Drop)]
pub struct Blank<S: Drop, L: Law<S>> {
    head: Word<Entry<S>, u64, Kept<L>>,
    seen: Seen<Entry<S>, u64, Kept<L>>,
}

impl<S: Drop, L: Law<S>> Model for Blank<S, L> {
    ghost use Rattle.std.specs.Prelude.{◌≡◌, []};
    ghost use Rattle.logbook.specs.Pages.{Book};
    ghost use Rattle.shared_history.specs.Book.{head_of};

    ghost Value = { Book };

    ghost view = { λ b. b.seen.book };

    ghost invariant = { λ b. (b.head ≡ head_of b.seen.book) × (b.seen.log ≡ []) };
}

impl<S: Drop, L: Law<S>> Blank<S, L> {
    /// A new book.
    pub fn new() -> Blank<S, L> {
        let (seen, mut first, _second) = Seen::open(Start::alone(), 0, 0);
        Blank {
            head: Word::tracked(0, &mut first),
            seen,
        }
    }

    /// Its word, and what is seen of it.
    pub(crate) fn into_parts(self) -> (Word<Entry<S>, u64, Kept<L>>, Seen<Entry<S>, u64, Kept<L>>)
        ensures head { result.0 ≡ head_of self }
        ensures book { result.1.book ≡ self }
        ensures empty { result.1.log ≡ [] }
    {
        let Blank { head, seen } = self;
        (head, seen)
    }
}

/// Appends a state to all that was seen, which is so much, and says whether it did. It did not where the history is longer.
pub(crate) fn append<S: Drop, L: Law<S>>(
    head: &Word<Entry<S>, u64, Kept<L>>,
    seen: &mut Seen<Entry<S>, u64, Kept<L>>,
    count: u64,
    next: u64,
    entry: &Entry<S>,
) -> bool
    requires head { head.now ≡ head_of seen.old.book }
    requires count { count ≡ length seen.old.log }
    requires next { next ≡ count + 1 }
    requires legal { L.legal (states_of seen.old.log ++ entry.now.state ∷ []) }
    ensures book { seen.new.book ≡ seen.old.book }
    ensures added { IsTrue result → seen.new.log ≡ seen.old.log ++ entry.now ∷ [] }
{
    let mut offer: Offer<Entry<S>, u64, Kept<L>, Nothing> = seen.plain::<Nothing, Entry<S>, Add>(
        entry,
    );
    let mut pen = seen.no_pen();
    let found = head.compare_exchange::<Add, Nothing>(count, next, seen, &mut offer, &mut pen);
    found == count
}
