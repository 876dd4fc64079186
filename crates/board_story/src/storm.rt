//! Random calls of a board.
use crate::calling::{Asked, Call};
use crate::gates::TestGate;
use crate::teller::Teller;
use shared_history::Naming;
use std::alloc::Global;
use std::sync::{Arc, Wait};
use std::thread::Threads;
use tile_pixels::Tile;

/// How many calls a board is asked for.
pub(crate) const CALLS: usize = 2000;

// The next of some numbers that look random.
fn next(seed: u32) -> u32 {
    seed.wrapping_mul(1664525).wrapping_add(1013904223)
}

// The number that the calls of the board at that place begin with.
fn seed(at: usize) -> u32 {
    let mut seed = next(1);
    for _ in 0..at {
        seed = next(seed);
    }
    seed
}

// The call that a number means: of sixteen, seven edits, three batches, one publication, three pins, a hold, a release.
fn call_of(number: u32) -> Call {
    let asked = Asked {
        kind: number / 65536 % 4,
        leaf: number / 262144 % 16,
    };
    match number / 4194304 % 16 {
        0 => Call::Publish,
        1 => Call::Hold,
        2 => Call::Release,
        3..=5 => Call::Pin,
        6..=8 => Call::Batch(asked, number / 67108864 % 4 + 1),
        _ => Call::Edit(asked),
    }
}

/// All calls of the board at that place. It records fewer if there was no memory.
pub(crate) fn call_all<'a, J: Naming, R: Threads + Wait + Sync>(
    rt: &R,
    alloc: Global,
    gate: &TestGate,
    tile: &Arc<Tile>,
    at: usize,
    teller: &mut Teller<'a, J>,
) {
    let mut seed = seed(at);
    for _ in 0..CALLS {
        seed = next(seed);
        let _told = teller.tell(rt, alloc, gate, tile, call_of(seed));
    }
}
