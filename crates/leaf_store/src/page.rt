//! A list of pairs.
ghost use Rattle.std.specs.Prelude.{◌≡◌, ℕ, ◌+◌, ◌-◌, ◌<◌, ◌≤◌, ◌^◌, [], ◌∷◌, length, option_map, IfOk, IfErr, OnOk, OnErr};
ghost use Rattle.std.specs.Arc.{arc_value};
ghost use Rattle.leaf_store.specs.Entries.{pairs_of};
ghost use Rattle.leaf_store.specs.Store.{IsAscending, value_at, with_value};
ghost use Rattle.leaf_store.specs.Places.{IsFound, IsGap};
ghost use Rattle.leaf_store.specs.Tree.{page_pairs, page_places, IsPage};

use crate::chunk::{Changing, Chunk};
use std::alloc::{AllocError, Global};
use std::mem;
use std::sync::Arc;

/// Pairs of a key and a shared value, by ascending key.
#[derive(Drop)]
pub(crate) struct Page<T> {
    pub(crate) pairs: Vec<(u64, Arc<T>)>,
}

impl<T: Drop> Clone for Page<T> {
    ghost is_clone = { λ one other. (page_pairs other ≡ page_pairs one) × (page_places other ≡ page_places one) × (IsPage one → IsPage other) };

    fn clone(&self) -> Result<Page<T>, AllocError> {
        Ok(Page {
            pairs: self.pairs.clone()?,
        })
    }
}

// The place of the key, or the place that it would have.
fn find<T>(pairs: &[(u64, Arc<T>)], key: u64) -> Result<usize, usize>
    requires ascending { IsAscending (pairs_of pairs.now) }
    ensures found { IfOk result (IsFound key (pairs_of pairs.now)) }
    ensures gap { IfErr result (IsGap key (pairs_of pairs.now)) }
{
    let i = pairs.partition_point(|pair| pair.0 < key);
    match pairs.get(i) {
        Some(pair) => { if pair.0 == key { Ok(i) } else { Err(i) } }
        None => Err(i),
    }
}

impl<T> Chunk for Page<T> {
    type Value = T;

    ghost pairs = { page_pairs };

    ghost places = { page_places };

    ghost IsSound = { IsPage };

    fn places(&self) -> usize {
        self.pairs.len()
    }

    fn len(&self) -> usize {
        self.pairs.len()
    }

    fn first(&self) -> Option<u64> {
        Some(self.pairs.first()?.0)
    }

    fn get(&self, key: u64) -> Option<&Arc<T>> {
        match find(&self.pairs, key) {
            Ok(i) => Some(&self.pairs[i].1),
            Err(_) => None,
        }
    }

    fn at(&self, i: usize) -> Option<(u64, &Arc<T>)> {
        let (key, value) = self.pairs.get(i)?;
        Some((*key, value))
    }

    fn any_in(&self, low: u64, high: u64) -> bool {
        match find(&self.pairs, low) {
            Ok(_) => true,
            Err(i) => match self.pairs.get(i) {
                Some(next) => next.0 < high,
                None => false,
            },
        }
    }

    ghost ascends = { λ page sound. sound };
}

impl<T: Drop> Changing for Page<T> {
    fn one(alloc: Global, key: u64, value: Arc<T>) -> Result<Page<T>, AllocError>
        ensures pairs { IfOk result (λ chunk. page_pairs chunk ≡ (key, arc_value value) ∷ []) }
        ensures places { IfOk result (λ chunk. page_places chunk ≡ 1) }
        ensures sound { IfOk result (λ chunk. IsPage chunk) }
    {
        let mut pairs = Vec::new(alloc);
        pairs.push((key, value))?;
        Ok(Page { pairs })
    }

    fn halves(&self, alloc: Global, middle: usize) -> Result<(Page<T>, Page<T>), AllocError> {
        let (front, back) = self.pairs.split_at(middle);
        let front = Vec::from_clones(alloc, front)?;
        let back = Vec::from_clones(alloc, back)?;
        Ok((Page { pairs: front }, Page { pairs: back }))
    }

    fn put(&mut self, key: u64, value: Arc<T>) -> Result<Option<Arc<T>>, AllocError>
        requires sound { IsPage self.old }
        requires some { 0 < length (page_pairs self.old) }
        requires fits { length (page_pairs self.old) + 1 < 2 ^ 64 }
        ensures old { IfOk result (λ old. option_map arc_value old ≡ value_at key (page_pairs self.old)) }
        ensures put { OnOk result (page_pairs self.new ≡ with_value key (arc_value value) (page_pairs self.old)) }
        ensures refused { OnErr result (page_pairs self.new ≡ page_pairs self.old) }
        ensures places { page_places self.new ≤ page_places self.old + 1 }
        ensures sound { IsPage self.new }
    {
        match find(&self.pairs, key) {
            Ok(i) => {
                let pair = &mut self.pairs[i];
                Ok(Some(mem::replace(&mut pair.1, value)))
            }
            Err(i) => {
                self.pairs.insert(i, (key, value))?;
                Ok(None)
            }
        }
    }

    fn remove(&mut self, key: u64) -> Result<Option<Arc<T>>, AllocError> {
        match find(&self.pairs, key) {
            Ok(i) => {
                let (_, value) = self.pairs.remove(i);
                Ok(Some(value))
            }
            Err(_) => Ok(None),
        }
    }

    ghost copied = { λ one other same. same };
}
