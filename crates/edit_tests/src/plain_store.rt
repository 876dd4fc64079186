//! The map over an ordered map of the standard library, whose `share` copies the pairs: what tests compare the store with.
ghost use Rattle.std.specs.Prelude.{◌≡◌, ℕ, ◌+◌, ◌≢◌, [], length, slice_get, option_map, is_some, IfNone, IfOk, OnOk, OnErr, Some, None, if◌then◌else◌, IfSome};
ghost use Rattle.std.specs.Iterator.{YieldsFirstBy, item_count, at_most, UpTo};
ghost use Rattle.std.specs.Iterator.SizeHint.{IsWithinCount};
ghost use Rattle.std.specs.Arc.{arc_value};
ghost use Rattle.leaf_store.specs.Store.{IsAscending, value_at, any_key_in, with_value, without_key};
ghost use Rattle.leaf_store.specs.Entries.{pairs_of};

use std::alloc::{AllocError, Global};
use std::collections::{BTreeMap, btree_map};
use std::fmt::{self, Debug, Formatter, Write};
use std::marker::Model;
use std::sync::Arc;

/// A map from `u64` keys to shared values. Contracts see its pairs of a key and a value, by ascending key.
#[derive(Drop)]
pub struct PlainStore<T> {
    entries: BTreeMap<u64, Arc<T>>,
}

impl<T> Model for PlainStore<T> {
    ghost use Rattle.std.specs.Prelude.{ℕ, List};
    ghost use Rattle.leaf_store.specs.Store.{IsAscending};
    ghost use Rattle.leaf_store.specs.Entries.{pairs_of};

    ghost Value = { List (ℕ × T) };

    ghost view = { λ s. pairs_of s.entries.entries };

    ghost invariant = { λ s. IsAscending (pairs_of s.entries.entries) };
}

impl<T> PlainStore<T> {
    /// The empty store, which takes its memory from `alloc` as it grows.
    pub fn new(alloc: Global) -> PlainStore<T>
        ensures { result ≡ [] }
    {
        PlainStore {
            entries: BTreeMap::new(alloc),
        }
    }

    /// How many pairs there are.
    pub fn len(&self) -> usize
        ensures pairs { result ≡ length self.now }
        ensures ascending { IsAscending self.now }
    {
        self.entries.len()
    }

    /// The value of the key; `None` if and only if the store doesn't have the key.
    pub fn get(&self, key: u64) -> Option<&Arc<T>>
        ensures value { option_map (λ found. arc_value found.now) result ≡ value_at key self.now }
        ensures ascending { IsAscending self.now }
    {
        self.entries.get(&key)
    }

    /// Pair `i` by ascending key, from 0; `None` if and only if `i` is at least the number of pairs.
    ///
    /// It goes over the pairs before it: to go over all pairs take `iter`.
    pub fn at(&self, i: usize) -> Option<(u64, &Arc<T>)>
        ensures pair { option_map (λ pair. (pair.0, arc_value pair.1.now)) result ≡ slice_get self.now i }
        ensures ascending { IsAscending self.now }
    {
        self.iter().nth(i)
    }

    /// All pairs, by ascending key.
    pub fn iter(&self) -> PlainPairs<'_, T>
        ensures all { result ≡ self.now }
        ensures ascending { IsAscending self.now }
    {
        PlainPairs::new(&self.entries)
    }

    /// Whether a key from `low` to below `high` is there.
    pub fn any_in(&self, low: u64, high: u64) -> bool
        ensures { result ≡ any_key_in low high self.now }
    {
        low < high && self.entries.range(low..high).next().is_some()
    }
}

impl<T: Drop> PlainStore<T> {
    /// Gives the key this value, and answers the key's old value, if it had one. All other pairs stay.
    ///
    /// # Errors
    ///
    /// `AllocError` where there is no memory for the pair; the store is then as it was, and the value is dropped.
    pub fn put(&mut self, key: u64, value: Arc<T>) -> Result<Option<Arc<T>>, AllocError>
        ensures old { IfOk result (λ old. option_map arc_value old ≡ value_at key self.old) }
        ensures put { OnOk result (self.new ≡ with_value key (arc_value value) self.old) }
        ensures there { OnOk result (value_at key self.new ≡ Some (arc_value value)) }
        ensures others { (other : ℕ) → other ≢ key → value_at other self.new ≡ value_at other self.old }
        ensures count { IfOk result (λ old. length self.new ≡ length self.old + (if is_some old then 0 else 1)) }
        ensures refused { OnErr result (self.new ≡ self.old) }
        ensures ascending { IsAscending self.new }
    {
        Ok(self.entries.insert(key, value)?)
    }

    /// Takes the key and its value out, and answers the value, if the key was there. All other pairs stay.
    ///
    /// # Errors
    ///
    /// `AllocError` where there is no memory for the change; the store is then as it was.
    pub fn remove(&mut self, key: u64) -> Result<Option<Arc<T>>, AllocError>
        ensures old { IfOk result (λ old. option_map arc_value old ≡ value_at key self.old) }
        ensures removed { OnOk result (self.new ≡ without_key key self.old) }
        ensures absent { OnOk result (value_at key self.new ≡ None) }
        ensures others { (other : ℕ) → other ≢ key → value_at other self.new ≡ value_at other self.old }
        ensures count { IfOk result (λ old. length self.new + (if is_some old then 1 else 0) ≡ length self.old) }
        ensures missing { IfOk result (λ old. IfNone old (self.new ≡ self.old)) }
        ensures refused { OnErr result (self.new ≡ self.old) }
        ensures ascending { IsAscending self.new }
    {
        Ok(self.entries.remove(&key))
    }

    /// Another store with the same pairs, whose values are shared with this one. Later changes to one leave the other as it is.
    ///
    /// # Errors
    ///
    /// `AllocError` where there is no memory for the other store, or a value has as many owners as can be counted.
    pub fn share(&self) -> Result<PlainStore<T>, AllocError>
        ensures same { IfOk result (λ other. other ≡ self.now) }
        ensures ascending { IsAscending self.now }
    {
        let entries = self.entries.clone()?;
        Ok(PlainStore { entries })
    }
}

impl<'a, T> IntoIterator for &'a PlainStore<T> {
    type Item = (u64, &'a Arc<T>);

    type IntoIter = PlainPairs<'a, T>;

    ghost into_iter_gives = { λ store left. (left ≡ store.now) × IsAscending store.now };

    fn into_iter(self) -> PlainPairs<'a, T> {
        self.iter()
    }
}

/// As a map: `{4: first, 9: second}`.
impl<T: Debug> Debug for PlainStore<T> {
    fn fmt<W: Write>(&self, f: &mut Formatter<W>) -> fmt::Result {
        f.debug_map().entries(self.iter()).finish()
    }
}

/// The pairs of a store by ascending key. Contracts see the list of those that are left.
#[derive(Drop)]
pub struct PlainPairs<'a, T> {
    left: btree_map::Iter<'a, u64, Arc<T>>,
}

impl<'a, T> Model for PlainPairs<'a, T> {
    ghost use Rattle.std.specs.Prelude.{ℕ, List};
    ghost use Rattle.leaf_store.specs.Entries.{pairs_of};

    ghost Value = { List (ℕ × T) };

    ghost view = { λ p. pairs_of p.left };
}

impl<'a, T> PlainPairs<'a, T> {
    /// The pairs that the entries stand for.
    pub(crate) fn new(entries: &'a BTreeMap<u64, Arc<T>>) -> PlainPairs<'a, T>
        ensures all { result ≡ pairs_of entries.now.entries }
    {
        PlainPairs {
            left: entries.iter(),
        }
    }
}

impl<'a, T> Iterator for PlainPairs<'a, T> {
    type Item = (u64, &'a Arc<T>);

    ghost next_gives = { YieldsFirstBy (λ pair. (pair.0, arc_value pair.1.now)) (λ left. left) };

    ghost remaining = { item_count (λ left. left) };

    fn next(&mut self) -> Option<(u64, &'a Arc<T>)> {
        match self.left.next() {
            Some((key, value)) => Some((*key, value)),
            None => None,
        }
    }

    fn size_hint(&self) -> (usize, Option<usize>)
        ensures lower { IsWithinCount result.0 (at_most (length self.now)) }
        ensures upper { IfSome result.1 (UpTo (at_most (length self.now))) }
        ensures exact { result ≡ (length self.now, Some (length self.now)) }
    {
        let len = self.left.len();
        (len, Some(len))
    }
}
