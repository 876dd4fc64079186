//! A map from numbers to shared values, by ascending key.
ghost use Rattle.std.specs.Prelude.{◌≡◌, ℕ, ◌+◌, ◌≢◌, [], length, slice_get, option_map, is_some, IfNone, IfOk, OnOk, OnErr, Some, None, if◌then◌else◌};
ghost use Rattle.std.specs.Arc.{arc_value};
ghost use Rattle.leaf_store.specs.Store.{IsAscending, value_at, any_key_in, with_value, without_key};

use crate::chunk::{Changing, Chunk};
use crate::level::Level;
use crate::page::Page;
use crate::pairs::Pairs;
use crate::slot::Slot;
use std::alloc::{AllocError, Global};
use std::fmt::{self, Debug, Formatter, Write};
use std::marker::Model;
use std::sync::Arc;

/// A shared list of pages.
pub(crate) type Group<T> = Level<Page<T>>;

/// A map from `u64` keys to shared values. Contracts see its pairs of a key and a value, by ascending key.
#[derive(Drop)]
pub struct Store<T> {
    alloc: Global,
    // The list of groups, in a slot that counts all pairs; none where there is no pair.
    root: Option<Slot<Level<Group<T>>>>,
}

impl<T> Model for Store<T> {
    ghost use Rattle.std.specs.Prelude.{ℕ, List};
    ghost use Rattle.leaf_store.specs.Tree.{root_pairs, IsTree};

    ghost Value = { List (ℕ × T) };

    ghost view = { λ s. root_pairs s.root };

    ghost invariant = { λ s. IsTree s.root };
}

#[tactic(auto, using(crate::proofs::Shown::root_shown), unfolding(crate::specs::Tree::root_entries, crate::specs::Tree::IsRoot))]
impl<T> Store<T> {
    /// The empty store, which takes its memory from `alloc` as it grows.
    pub fn new(alloc: Global) -> Store<T>
        ensures { result ≡ [] }
    {
        Store { alloc, root: None }
    }

    /// How many pairs there are.
    pub fn len(&self) -> usize
        ensures pairs { result ≡ length self.now }
        ensures ascending { IsAscending self.now }
    {
        match &self.root {
            Some(root) => root.count,
            None => 0,
        }
    }

    /// The value of the key; `None` if and only if the store doesn't have the key.
    pub fn get(&self, key: u64) -> Option<&Arc<T>>
        ensures value { option_map (λ found. arc_value found.now) result ≡ value_at key self.now }
        ensures ascending { IsAscending self.now }
    {
        match &self.root {
            Some(root) => root.chunk.get(key),
            None => None,
        }
    }

    /// Pair `i` by ascending key, from 0; `None` if and only if `i` is at least the number of pairs.
    pub fn at(&self, i: usize) -> Option<(u64, &Arc<T>)>
        ensures pair { option_map (λ pair. (pair.0, arc_value pair.1.now)) result ≡ slice_get self.now i }
        ensures ascending { IsAscending self.now }
    {
        match &self.root {
            Some(root) => root.chunk.at(i),
            None => None,
        }
    }

    /// All pairs, by ascending key.
    pub fn iter(&self) -> Pairs<'_, T>
        ensures all { result ≡ self.now }
        ensures ascending { IsAscending self.now }
    {
        match &self.root {
            Some(root) => Pairs::new(&root.chunk.slots, root.count),
            None => Pairs::new(&[], 0),
        }
    }

    /// Whether a key from `low` to below `high` is there.
    pub fn any_in(&self, low: u64, high: u64) -> bool
        ensures { result ≡ any_key_in low high self.now }
    {
        match &self.root {
            Some(root) => low < high && root.chunk.any_in(low, high),
            None => false,
        }
    }
}

#[tactic(auto, using(crate::proofs::Shown::root_shown), unfolding(crate::specs::Tree::root_entries, crate::specs::Tree::IsRoot))]
impl<T: Drop> Store<T> {
    /// Gives the key this value, and answers the key's old value, if it had one. All other pairs stay.
    ///
    /// # Errors
    ///
    /// `AllocError` where there is no memory for the pair; the store is then as it was, and the value is dropped.
    pub fn put(&mut self, key: u64, value: Arc<T>) -> Result<Option<Arc<T>>, AllocError>
        ensures old { IfOk result (λ old. option_map arc_value old ≡ value_at key self.old) }
        ensures put { OnOk result (self.new ≡ with_value key (arc_value value) self.old) }
        ensures there { OnOk result (value_at key self.new ≡ Some (arc_value value)) }
        ensures others { (other : ℕ) → other ≢ key → value_at other self.new ≡ value_at other self.old }
        ensures count { IfOk result (λ old. length self.new ≡ length self.old + (if is_some old then 0 else 1)) }
        ensures refused { OnErr result (self.new ≡ self.old) }
        ensures ascending { IsAscending self.new }
    {
        match &mut self.root {
            Some(root) => {
                if root.count == usize::MAX {
                    return Err(AllocError);
                }
                root.put(key, value)
            }
            None => {
                self.root = Some(Slot::one(self.alloc, key, value)?);
                Ok(None)
            }
        }
    }

    /// Takes the key and its value out, and answers the value, if the key was there. All other pairs stay.
    ///
    /// # Errors
    ///
    /// `AllocError` where there is no memory for the change; the store is then as it was.
    pub fn remove(&mut self, key: u64) -> Result<Option<Arc<T>>, AllocError>
        ensures old { IfOk result (λ old. option_map arc_value old ≡ value_at key self.old) }
        ensures removed { OnOk result (self.new ≡ without_key key self.old) }
        ensures absent { OnOk result (value_at key self.new ≡ None) }
        ensures others { (other : ℕ) → other ≢ key → value_at other self.new ≡ value_at other self.old }
        ensures count { IfOk result (λ old. length self.new + (if is_some old then 1 else 0) ≡ length self.old) }
        ensures missing { IfOk result (λ old. IfNone old (self.new ≡ self.old)) }
        ensures refused { OnErr result (self.new ≡ self.old) }
        ensures ascending { IsAscending self.new }
    {
        if self.get(key).is_none() {
            return Ok(None);
        }
        match &mut self.root {
            Some(root) => {
                let old = root.remove(key)?;
                if root.count == 0 {
                    self.root = None;
                }
                Ok(old)
            }
            None => Ok(None),
        }
    }

    /// Another store with the same pairs, whose values are shared with this one. Later changes to one leave the other as it is.
    ///
    /// # Errors
    ///
    /// `AllocError` where there is no memory for the other store, or a value has as many owners as can be counted.
    pub fn share(&self) -> Result<Store<T>, AllocError>
        ensures same { IfOk result (λ other. other ≡ self.now) }
        ensures ascending { IsAscending self.now }
    {
        let root = self.root.clone()?;
        Ok(Store {
            alloc: self.alloc,
            root,
        })
    }
}

impl<'a, T> IntoIterator for &'a Store<T> {
    type Item = (u64, &'a Arc<T>);

    type IntoIter = Pairs<'a, T>;

    ghost into_iter_gives = { λ store left. (left ≡ store.now) × IsAscending store.now };

    fn into_iter(self) -> Pairs<'a, T> {
        self.iter()
    }
}

/// As a map: `{4: first, 9: second}`.
impl<T: Debug> Debug for Store<T> {
    fn fmt<W: Write>(&self, f: &mut Formatter<W>) -> fmt::Result {
        f.debug_map().entries(self.iter()).finish()
    }
}
