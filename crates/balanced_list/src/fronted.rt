//! A list at whose front items are put in without a walk.
ghost use Rattle.std.specs.Prelude.{◌≡◌, ℕ, ◌+◌, ◌<◌, ◌≤◌, ◌^◌, [], ◌∷◌, ◌++◌, length, option_copied, slice_get, slice_set, slice_index_or, map, IfOk};
ghost use Rattle.std.specs.List.{insert, remove};
ghost use Rattle.balanced_list.specs.Search.{leading, HoldsAtFirst};

use crate::item::Item;
use crate::list::{BalancedList, Probe};
use std::alloc::{AllocError, Global};
use std::marker::Model;

// How many items at the front stand apart at most.
const MOST_APART: usize = 16;

/// A list in balance, but for some items at its front, which stand apart: most of them were put in there last, each in a moment
/// and with no look at the others. Contracts see its items.
#[derive(Drop)]
pub struct FrontedList<T> {
    front: BalancedList<T>,
    rest: BalancedList<T>,
}

impl<T> Model for FrontedList<T> {
    ghost use Rattle.std.specs.Prelude.{List, ◌++◌, ◌<◌, ◌^◌, length};

    ghost Value = { List T };

    ghost view = { λ a. a.front ++ a.rest };

    ghost invariant = { λ a. length (a.front ++ a.rest) < 2 ^ 64 };
}

#[tactic(auto, using(crate::proofs::Halves::halves, crate::proofs::Halves::both_length))]
impl<T: Drop> FrontedList<T> {
    /// The empty list.
    pub fn new() -> FrontedList<T>
        ensures { result ≡ [] }
    {
        FrontedList {
            front: BalancedList::new(),
            rest: BalancedList::new(),
        }
    }

    /// How many items there are.
    pub fn len(&self) -> usize
        ensures { result ≡ length self.now }
    {
        self.front.len() + self.rest.len()
    }

    /// Item `i`, from 0; `None` exactly past the last.
    pub fn get(&self, i: usize) -> Option<&T>
        ensures { option_copied result ≡ slice_get self.now i }
    {
        let apart = self.front.len();
        if i < apart {
            self.front.get(i)
        } else {
            self.rest.get(i - apart)
        }
    }

    /// How many items at the beginning meet the test, where no item meets it after one that doesn't.
    pub fn place<P: Probe<T>>(&self, probe: &P) -> usize
        ensures leading { HoldsAtFirst (P.past probe.now) self.now → result ≡ leading (P.past probe.now) self.now }
        ensures within { result ≤ length self.now }
    {
        let (place, _there) = self.search(probe);
        place
    }

    /// What `place` answers, and the item that stands there, if one does.
    pub fn search<P: Probe<T>>(&self, probe: &P) -> (usize, Option<&T>)
        ensures leading { HoldsAtFirst (P.past probe.now) self.now → result.0 ≡ leading (P.past probe.now) self.now }
        ensures within { result.0 ≤ length self.now }
        ensures item { option_copied result.1 ≡ slice_get self.now result.0 }
    {
        let apart = self.front.len();
        let (place, there) = self.rest.search(probe);
        if place > 0 {
            return (apart + place, there);
        }
        let (near, at) = self.front.search(probe);
        match at {
            Some(item) => (near, Some(item)),
            None => (apart, there),
        }
    }

    /// The items in order.
    ///
    /// # Errors
    ///
    /// `AllocError` where there is no memory for them.
    pub fn to_vec(&self, alloc: Global) -> Result<Vec<&T>, AllocError>
        ensures { IfOk result (λ items. map (λ item. item.now) items.items ≡ self.now) }
    {
        let mut items = Vec::with_capacity(alloc, self.len())?;
        self.front.push_all(&mut items)?;
        self.rest.push_all(&mut items)?;
        Ok(items)
    }

    /// Puts the item in the place of item `i`, which comes out.
    pub fn exchange(&mut self, i: usize, item: Item<T>) -> Item<T>
        requires { i < length self.old }
        ensures items { self.new ≡ slice_set self.old i item }
        ensures item { result ≡ slice_index_or self.old i result }
    {
        let apart = self.front.len();
        if i < apart {
            self.front.exchange(i, item)
        } else {
            self.rest.exchange(i - apart, item)
        }
    }

    /// Puts the item in at place `i`; those from there on stand one place later.
    pub fn insert(&mut self, i: usize, item: Item<T>)
        requires place { i ≤ length self.old }
        requires fits { length self.old + 1 < 2 ^ 64 }
        ensures { self.new ≡ insert self.old i item }
    {
        let apart = self.front.len();
        if i == 0 && apart < MOST_APART {
            self.front.push_first(item);
            return;
        }
        if i >= apart {
            self.rest.insert(i - apart, item);
            return;
        }
        settle(&mut self.front, &mut self.rest);
        self.rest.insert(i, item);
    }

    /// Takes out item `i`; those after it stand one place sooner.
    pub fn remove(&mut self, i: usize) -> Item<T>
        requires { i < length self.old }
        ensures items { self.new ≡ remove self.old i }
        ensures item { result ≡ slice_index_or self.old i result }
    {
        let apart = self.front.len();
        if i < apart {
            self.front.remove(i)
        } else {
            self.rest.remove(i - apart)
        }
    }
}

// Puts all items of the one list before those of the other.
fn settle<T: Drop>(front: &mut BalancedList<T>, rest: &mut BalancedList<T>)
    requires fits { length front.old + length rest.old < 2 ^ 64 }
    ensures front { front.new ≡ [] }
    ensures rest { rest.new ≡ front.old ++ rest.old }
{
    if front.len() == 0 {
        return;
    }
    let item = front.remove(0);
    settle(front, rest);
    rest.insert(0, item);
}
