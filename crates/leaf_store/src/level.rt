//! A list of shared chunks.
ghost use Rattle.std.specs.Prelude.{◌≡◌, ℕ, ◌+◌, ◌<◌, ◌≤◌, ◌^◌, [], ◌∷◌, length, option_map, IfOk, OnOk, OnErr};
ghost use Rattle.std.specs.List.{HoldsAt};
ghost use Rattle.std.specs.Arc.{arc_value};
ghost use Rattle.leaf_store.specs.Store.{value_at, with_value};
ghost use Rattle.leaf_store.specs.Chunks.{slot_places, level_pairs, level_places, AreSlots, IsLevel, IsSlotFor};

use crate::chunk::{Changing, Chunk, MOST};
use crate::slot::Slot;
use std::alloc::{AllocError, Global};
use std::sync::Arc;

/// Shared chunks, one after another: the pages of a group, and the groups of a store.
#[derive(Drop)]
pub(crate) struct Level<C> {
    pub(crate) slots: Vec<Slot<C>>,
}

impl<C: Chunk + Drop> Clone for Level<C> {
    ghost is_clone = { λ one other. (level_pairs C.pairs other ≡ level_pairs C.pairs one) × (level_places other ≡ level_places one) × (IsLevel C.pairs C.places C.IsSound one → IsLevel C.pairs C.places C.IsSound other) };

    fn clone(&self) -> Result<Level<C>, AllocError> {
        Ok(Level {
            slots: self.slots.clone()?,
        })
    }
}

// The place of the chunk that the key goes to: the last that begins at or below it, and else the first.
fn place<C: Chunk>(slots: &[Slot<C>], key: u64) -> usize
    requires sound { AreSlots C.pairs C.places C.IsSound slots.now }
    requires some { 0 < length slots.now }
    ensures { IsSlotFor C.pairs key slots.now result }
{
    slots
        .partition_point(|slot| slot.first <= key)
        .saturating_sub(1)
}

impl<C: Chunk> Chunk for Level<C> {
    type Value = C::Value;

    ghost pairs = { level_pairs C.pairs };

    ghost places = { level_places };

    ghost IsSound = { IsLevel C.pairs C.places C.IsSound };

    fn places(&self) -> usize {
        self.slots.len()
    }

    fn len(&self) -> usize {
        let mut len = 0;
        for slot in &self.slots {
            len += slot.count;
        }
        len
    }

    fn first(&self) -> Option<u64> {
        Some(self.slots.first()?.first)
    }

    fn get(&self, key: u64) -> Option<&Arc<C::Value>> {
        if self.slots.is_empty() {
            return None;
        }
        let slot = &self.slots[place(&self.slots, key)];
        slot.chunk.get(key)
    }

    fn at(&self, i: usize) -> Option<(u64, &Arc<C::Value>)> {
        let mut left = i;
        for slot in &self.slots {
            if left < slot.count {
                return slot.chunk.at(left);
            }
            left -= slot.count;
        }
        None
    }

    fn any_in(&self, low: u64, high: u64) -> bool {
        if self.slots.is_empty() {
            return false;
        }
        let i = place(&self.slots, low);
        let slot = &self.slots[i];
        if slot.chunk.any_in(low, high) {
            return true;
        }
        match self.slots.get(i + 1) {
            Some(next) => next.first < high,
            None => false,
        }
    }

    ghost ascends = { λ level sound. sound.ascending };
}

impl<C: Changing> Level<C>
where
    C::Value: Drop,
{
    // Cuts the chunk at the key's place in two, the last one before its last place, and answers the key's new place.
    fn cut(&mut self, alloc: Global, i: usize, key: u64) -> Result<usize, AllocError>
        requires sound { IsLevel C.pairs C.places C.IsSound self.old }
        requires fits { length (level_pairs C.pairs self.old) < 2 ^ 64 }
        requires place { IsSlotFor C.pairs key self.old.slots.items i }
        requires full { HoldsAt (λ slot. slot_places C.places slot ≡ 64) self.old.slots.items i }
        ensures same { level_pairs C.pairs self.new ≡ level_pairs C.pairs self.old }
        ensures places { level_places self.new ≤ level_places self.old + 1 }
        ensures sound { IsLevel C.pairs C.places C.IsSound self.new }
        ensures place { IfOk result (IsSlotFor C.pairs key self.new.slots.items) }
        ensures room { IfOk result (HoldsAt (λ slot. slot_places C.places slot < 64) self.new.slots.items) }
    {
        let slot = &self.slots[i];
        let places = slot.chunk.places();
        let middle = if i + 1 == self.slots.len() {
            places - 1
        } else {
            places / 2
        };
        let (front, back) = slot.chunk.halves(alloc, middle)?;
        let front = Slot::new(alloc, front)?;
        let back = Slot::new(alloc, back)?;
        let chosen = if back.first <= key { i + 1 } else { i };
        self.slots.insert(i, front)?;
        self.slots[i + 1] = back;
        Ok(chosen)
    }

    // The place of the chunk that the key goes to, which has room for one place more.
    fn make_room(&mut self, key: u64) -> Result<usize, AllocError>
        requires sound { IsLevel C.pairs C.places C.IsSound self.old }
        requires fits { length (level_pairs C.pairs self.old) < 2 ^ 64 }
        requires some { 0 < level_places self.old }
        ensures same { level_pairs C.pairs self.new ≡ level_pairs C.pairs self.old }
        ensures places { level_places self.new ≤ level_places self.old + 1 }
        ensures sound { IsLevel C.pairs C.places C.IsSound self.new }
        ensures place { IfOk result (IsSlotFor C.pairs key self.new.slots.items) }
        ensures room { IfOk result (HoldsAt (λ slot. slot_places C.places slot < 64) self.new.slots.items) }
    {
        let i = place(&self.slots, key);
        if self.slots[i].chunk.places() < MOST {
            return Ok(i);
        }
        let alloc = *self.slots.allocator();
        self.cut(alloc, i, key)
    }
}

impl<C: Changing> Changing for Level<C>
where
    C::Value: Drop,
{
    fn one(alloc: Global, key: u64, value: Arc<C::Value>) -> Result<Level<C>, AllocError>
        ensures pairs { IfOk result (λ chunk. level_pairs C.pairs chunk ≡ (key, arc_value value) ∷ []) }
        ensures places { IfOk result (λ chunk. level_places chunk ≡ 1) }
        ensures sound { IfOk result (λ chunk. IsLevel C.pairs C.places C.IsSound chunk) }
    {
        let mut slots = Vec::new(alloc);
        slots.push(Slot::one(alloc, key, value)?)?;
        Ok(Level { slots })
    }

    fn halves(&self, alloc: Global, middle: usize) -> Result<(Level<C>, Level<C>), AllocError> {
        let (front, back) = self.slots.split_at(middle);
        let front = Vec::from_clones(alloc, front)?;
        let back = Vec::from_clones(alloc, back)?;
        Ok((Level { slots: front }, Level { slots: back }))
    }

    fn put(&mut self, key: u64, value: Arc<C::Value>) -> Result<Option<Arc<C::Value>>, AllocError>
        requires sound { IsLevel C.pairs C.places C.IsSound self.old }
        requires some { 0 < length (level_pairs C.pairs self.old) }
        requires fits { length (level_pairs C.pairs self.old) + 1 < 2 ^ 64 }
        ensures old { IfOk result (λ old. option_map arc_value old ≡ value_at key (level_pairs C.pairs self.old)) }
        ensures put { OnOk result (level_pairs C.pairs self.new ≡ with_value key (arc_value value) (level_pairs C.pairs self.old)) }
        ensures refused { OnErr result (level_pairs C.pairs self.new ≡ level_pairs C.pairs self.old) }
        ensures places { level_places self.new ≤ level_places self.old + 1 }
        ensures sound { IsLevel C.pairs C.places C.IsSound self.new }
    {
        let i = self.make_room(key)?;
        let slot = &mut self.slots[i];
        slot.put(key, value)
    }

    fn remove(&mut self, key: u64) -> Result<Option<Arc<C::Value>>, AllocError> {
        let i = place(&self.slots, key);
        let slot = &mut self.slots[i];
        let old = slot.remove(key)?;
        if slot.count == 0 {
            self.slots.remove(i);
        }
        Ok(old)
    }

    ghost copied = { λ one other same. same };
}
