//! What a page and a list of chunks have in common.
ghost use Rattle.std.specs.Prelude.{◌≡◌, ℕ, ◌+◌, ◌-◌, ◌<◌, ◌≤◌, ◌^◌, List, [], ◌∷◌, ◌++◌, length, slice_get, option_map, IfOk, OnOk, OnErr, if◌then◌else◌, is_some};
ghost use Rattle.std.specs.Arc.{arc_value};
ghost use Rattle.leaf_store.specs.Store.{IsAscending, value_at, any_key_in, with_value, without_key};
ghost use Rattle.leaf_store.specs.Chunks.{first_key};

use std::alloc::{AllocError, Global};
use std::sync::Arc;

/// How many places a page or a group has at most.
pub(crate) const MOST: usize = 64;

/// Pairs by ascending key, in places: a place of a page has a pair, and one of a list of chunks has a chunk.
pub(crate) trait Chunk {
    /// What the keys lead to.
    type Value;

    /// Its pairs.
    ghost pairs: { Self → List (ℕ × Self.Value) };

    /// How many places it has.
    ghost places: { Self → ℕ };

    /// Its keys ascend, and what it keeps of its chunks is right.
    ghost IsSound: { Self → Type 0 };

    fn places(&self) -> usize
        ensures { result ≡ places self.now };

    fn len(&self) -> usize
        requires sound { IsSound self.now }
        requires fits { length (pairs self.now) < 2 ^ 64 }
        ensures { result ≡ length (pairs self.now) };

    fn first(&self) -> Option<u64>
        requires sound { IsSound self.now }
        ensures { result ≡ first_key (pairs self.now) };

    fn get(&self, key: u64) -> Option<&Arc<Self::Value>>
        requires sound { IsSound self.now }
        ensures { option_map (λ found. arc_value found.now) result ≡ value_at key (pairs self.now) };

    fn at(&self, i: usize) -> Option<(u64, &Arc<Self::Value>)>
        requires sound { IsSound self.now }
        ensures { option_map (λ pair. (pair.0, arc_value pair.1.now)) result ≡ slice_get (pairs self.now) i };

    fn any_in(&self, low: u64, high: u64) -> bool
        requires sound { IsSound self.now }
        requires range { low < high }
        ensures { result ≡ any_key_in low high (pairs self.now) };

    /// What is sound ascends.
    ghost ascends: { (chunk : Self) → IsSound chunk → IsAscending (pairs chunk) };
}

/// A chunk that can be changed.
pub(crate) trait Changing: Chunk + Clone + Drop {
    /// The chunk of one pair.
    fn one(alloc: Global, key: u64, value: Arc<Self::Value>) -> Result<Self, AllocError>
        ensures pairs { IfOk result (λ chunk. Self.pairs chunk ≡ (key, arc_value value) ∷ []) }
        ensures places { IfOk result (λ chunk. Self.places chunk ≡ 1) }
        ensures sound { IfOk result Self.IsSound };

    /// The chunks of the places before the middle, and of those from it on.
    fn halves(&self, alloc: Global, middle: usize) -> Result<(Self, Self), AllocError>
        requires sound { Self.IsSound self.now }
        requires front { 0 < middle }
        requires back { middle < Self.places self.now }
        ensures pairs { IfOk result (λ both. Self.pairs both.0 ++ Self.pairs both.1 ≡ Self.pairs self.now) }
        ensures some { IfOk result (λ both. (0 < length (Self.pairs both.0)) × (0 < length (Self.pairs both.1))) }
        ensures places { IfOk result (λ both. (Self.places both.0 ≡ middle) × (Self.places both.1 + middle ≡ Self.places self.now)) }
        ensures sound { IfOk result (λ both. Self.IsSound both.0 × Self.IsSound both.1) };

    /// Gives the key this value, and answers its old value. It may then have one place more.
    fn put(
        &mut self,
        key: u64,
        value: Arc<Self::Value>,
    ) -> Result<Option<Arc<Self::Value>>, AllocError>
        requires sound { Self.IsSound self.old }
        requires some { 0 < length (Self.pairs self.old) }
        requires fits { length (Self.pairs self.old) + 1 < 2 ^ 64 }
        ensures old { IfOk result (λ old. option_map arc_value old ≡ value_at key (Self.pairs self.old)) }
        ensures put { OnOk result (Self.pairs self.new ≡ with_value key (arc_value value) (Self.pairs self.old)) }
        ensures refused { OnErr result (Self.pairs self.new ≡ Self.pairs self.old) }
        ensures places { Self.places self.new ≤ Self.places self.old + 1 }
        ensures sound { Self.IsSound self.new };

    /// Takes the key out, and answers its value.
    fn remove(&mut self, key: u64) -> Result<Option<Arc<Self::Value>>, AllocError>
        requires sound { Self.IsSound self.old }
        requires some { 0 < length (Self.pairs self.old) }
        ensures old { IfOk result (λ old. option_map arc_value old ≡ value_at key (Self.pairs self.old)) }
        ensures removed { OnOk result (Self.pairs self.new ≡ without_key key (Self.pairs self.old)) }
        ensures refused { OnErr result (Self.pairs self.new ≡ Self.pairs self.old) }
        ensures places { Self.places self.new ≤ Self.places self.old }
        ensures sound { Self.IsSound self.new };

    /// A clone has the same pairs, and is as sound.
    ghost copied: { (one other : Self) → Self.is_clone one other → (Self.pairs other ≡ Self.pairs one) × (Self.places other ≡ Self.places one) × (Self.IsSound one → Self.IsSound other) };
}
