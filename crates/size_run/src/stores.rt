//! A store of a million pairs.
use leaf_store::Store;
use std::alloc::{AllocError, Global};
use std::sync::Arc;

// How many pairs there are, and a prime above that: the multiples of a number leave all rests but few.
const PAIRS: u64 = 1_000_000;

const PRIME: u64 = 1_000_003;

const FACTOR: u64 = 7_919;

/// How many pairs a store has, the sum of their keys, and how many there are once one is taken out.
#[derive(Clone, Copy)]
pub struct StoreSizes {
    pub len: usize,
    pub sum: u64,
    pub less: usize,
}

/// Those of a store of a million pairs.
///
/// # Errors
///
/// Where there is no memory.
pub fn sizes(alloc: Global) -> Result<StoreSizes, AllocError> {
    let store = pairs(alloc)?;
    sizes_of(&store)
}

// A store of many pairs, which come in no order.
fn pairs(alloc: Global) -> Result<Store<u64>, AllocError> {
    let value = Arc::new(alloc, FACTOR)?;
    let mut store = Store::new(alloc);
    for i in 1..=PAIRS {
        store.put(i.wrapping_mul(FACTOR) % PRIME, value.clone()?)?;
    }
    Ok(store)
}

// What they are; one is taken out of a share.
fn sizes_of(store: &Store<u64>) -> Result<StoreSizes, AllocError> {
    let mut share = store.share()?;
    share.remove(FACTOR)?;
    Ok(StoreSizes {
        len: store.len(),
        sum: sum_of(store),
        less: share.len(),
    })
}

fn sum_of(store: &Store<u64>) -> u64 {
    let mut sum = 0_u64;
    for (key, _) in store.iter() {
        sum = sum.wrapping_add(key);
    }
    sum
}
