//! A shared chunk in a list of chunks.
ghost use Rattle.std.specs.Prelude.{◌≡◌, ℕ, ◌+◌, ◌-◌, ◌<◌, ◌≤◌, ◌^◌, ◌⊎◌, List, [], ◌∷◌, ◌++◌, length, option_map, IfOk, OnOk, OnErr};
ghost use Rattle.std.specs.Arc.{arc_value};
ghost use Rattle.leaf_store.specs.Store.{value_at, with_value, without_key};
ghost use Rattle.leaf_store.specs.Chunks.{IsSlot, slot_pairs, slot_places};

use crate::chunk::{Changing, Chunk};
use std::alloc::{AllocError, Global};
use std::sync::Arc;

/// A shared chunk, with its first key and how many pairs it has.
#[derive(Drop)]
pub(crate) struct Slot<C> {
    pub(crate) first: u64,
    pub(crate) count: usize,
    pub(crate) chunk: Arc<C>,
}

impl<C: Drop> Clone for Slot<C> {
    ghost is_clone = { λ one other. (other.first ≡ one.first) × (other.count ≡ one.count) × (arc_value other.chunk ≡ arc_value one.chunk) };

    fn clone(&self) -> Result<Slot<C>, AllocError> {
        Ok(Slot {
            first: self.first,
            count: self.count,
            chunk: self.chunk.clone()?,
        })
    }
}

impl<C: Changing> Slot<C>
where
    C::Value: Drop,
{
    /// The slot of one pair.
    pub(crate) fn one(alloc: Global, key: u64, value: Arc<C::Value>) -> Result<Slot<C>, AllocError>
        ensures pairs { IfOk result (λ slot. slot_pairs C.pairs slot ≡ (key, arc_value value) ∷ []) }
        ensures places { IfOk result (λ slot. slot_places C.places slot ≡ 1) }
        ensures right { IfOk result (IsSlot C.pairs C.IsSound) }
    {
        let chunk = Arc::new(alloc, C::one(alloc, key, value)?)?;
        Ok(Slot {
            first: key,
            count: 1,
            chunk,
        })
    }

    /// The slot of a chunk that isn't empty.
    pub(crate) fn new(alloc: Global, chunk: C) -> Result<Slot<C>, AllocError>
        requires sound { C.IsSound chunk }
        requires some { 0 < length (C.pairs chunk) }
        requires fits { length (C.pairs chunk) < 2 ^ 64 }
        ensures pairs { IfOk result (λ slot. slot_pairs C.pairs slot ≡ C.pairs chunk) }
        ensures places { IfOk result (λ slot. slot_places C.places slot ≡ C.places chunk) }
        ensures right { IfOk result (IsSlot C.pairs C.IsSound) }
    {
        let first = chunk.first().unwrap_or(0);
        let count = chunk.len();
        let chunk = Arc::new(alloc, chunk)?;
        Ok(Slot {
            first,
            count,
            chunk,
        })
    }

    /// Gives the key this value, and answers its old value.
    pub(crate) fn put(
        &mut self,
        key: u64,
        value: Arc<C::Value>,
    ) -> Result<Option<Arc<C::Value>>, AllocError>
        requires right { IsSlot C.pairs C.IsSound self.old }
        requires fits { length (slot_pairs C.pairs self.old) + 1 < 2 ^ 64 }
        ensures old { IfOk result (λ old. option_map arc_value old ≡ value_at key (slot_pairs C.pairs self.old)) }
        ensures put { OnOk result (slot_pairs C.pairs self.new ≡ with_value key (arc_value value) (slot_pairs C.pairs self.old)) }
        ensures refused { OnErr result (slot_pairs C.pairs self.new ≡ slot_pairs C.pairs self.old) }
        ensures places { slot_places C.places self.new ≤ slot_places C.places self.old + 1 }
        ensures right { IsSlot C.pairs C.IsSound self.new }
    {
        let chunk = Arc::make_mut(&mut self.chunk)?;
        let old = chunk.put(key, value)?;
        self.first = self.first.min(key);
        if old.is_none() {
            self.count += 1;
        }
        Ok(old)
    }

    /// Takes the key out, and answers its value. The slot is then empty, or right again.
    pub(crate) fn remove(&mut self, key: u64) -> Result<Option<Arc<C::Value>>, AllocError>
        requires right { IsSlot C.pairs C.IsSound self.old }
        ensures old { IfOk result (λ old. option_map arc_value old ≡ value_at key (slot_pairs C.pairs self.old)) }
        ensures removed { OnOk result (slot_pairs C.pairs self.new ≡ without_key key (slot_pairs C.pairs self.old)) }
        ensures refused { OnErr result ((slot_pairs C.pairs self.new ≡ slot_pairs C.pairs self.old) × IsSlot C.pairs C.IsSound self.new) }
        ensures places { slot_places C.places self.new ≤ slot_places C.places self.old }
        ensures count { self.new.count ≡ length (slot_pairs C.pairs self.new) }
        ensures right { 0 < self.new.count → IsSlot C.pairs C.IsSound self.new }
    {
        let chunk = Arc::make_mut(&mut self.chunk)?;
        let old = chunk.remove(key)?;
        self.first = chunk.first().unwrap_or(self.first);
        if old.is_some() {
            self.count -= 1;
        }
        Ok(old)
    }
}
