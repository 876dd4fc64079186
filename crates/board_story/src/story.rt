//! A scenario test of three boards, each call of which is made again if memory is refused.
use crate::calling::{ADD, Answer, Asked, Call, PUT, REMOVE, REPLACE};
use crate::teller::{Teller, explained, meet};
use shared_history::Naming;
use std::alloc::Global;
use std::io::Print;
use std::sync::{Arc, Wait};
use std::thread::Threads;
use survey_link::OpenGate;
use tile_pixels::Tile;

// The most calls of one board, with those that are refused.
const MOST: usize = 32;

// How often a call is made at most.
const TRIES: u32 = 3;

// A board, and its call: the second one holds the opening state while the first edits and publishes, and then does the same.
static BEGIN: [(usize, Call); 11] = [
    (1, Call::Hold),
    (0, Call::Edit(Asked { kind: PUT, leaf: 0 })),
    (0, Call::Publish),
    (0, Call::Edit(Asked { kind: ADD, leaf: 0 })),
    (1, Call::Edit(Asked { kind: PUT, leaf: 7 })),
    (1, Call::Publish),
    (
        1,
        Call::Edit(Asked {
            kind: REMOVE,
            leaf: 9,
        }),
    ),
    (0, Call::Batch(Asked { kind: PUT, leaf: 4 }, 3)),
    (
        0,
        Call::Batch(
            Asked {
                kind: REMOVE,
                leaf: 0,
            },
            2,
        ),
    ),
    (0, Call::Hold),
    (0, Call::Pin),
];

// What comes after the boards have met.
static END: [(usize, Call); 10] = [
    (2, Call::Hold),
    (2, Call::Batch(Asked { kind: PUT, leaf: 8 }, 2)),
    (1, Call::Publish),
    (1, Call::Release),
    (2, Call::Publish),
    (
        0,
        Call::Edit(Asked {
            kind: REPLACE,
            leaf: 8,
        }),
    ),
    (0, Call::Release),
    (
        2,
        Call::Edit(Asked {
            kind: REMOVE,
            leaf: 7,
        }),
    ),
    (0, Call::Publish),
    (2, Call::Publish),
];

/// Runs the test, and prints `begun` once it begins, and in the end how many edits there are, how many of them are published,
/// and how many calls were refused and made again.
///
/// # Errors
///
/// Where there is no memory to begin it, or a call is refused again and again.
pub fn tell_story<'a, J: Naming, R: Threads + Wait + Print + Sync>(
    rt: &R,
    alloc: Global,
    tile: &Arc<Tile>,
    tellers: &mut [Teller<'a, J>],
) -> Result<(), &'static str> {
    make_room(tellers)?;
    println!(rt; "begun").ok().ok_or("no output")?;
    let first = tell_each(rt, alloc, tile, tellers, &BEGIN)?;
    let second = tell_each(rt, alloc, tile, tellers, &END)?;
    let last = explained(alloc, tellers)?;
    println!(rt;
        "edits {} published {} refused {}",
        last.edits,
        last.tip,
        first.saturating_add(second)
    )
    .ok()
    .ok_or("no output")
}

// Memory for what the boards will record.
fn make_room<'a, J: Naming>(tellers: &mut [Teller<'a, J>]) -> Result<(), &'static str> {
    for teller in tellers {
        if teller.told.reserve(MOST).is_err() {
            return Err("no memory");
        }
    }
    Ok(())
}

// These calls, one after another; then the boards meet. How many were refused.
fn tell_each<'a, J: Naming, R: Threads + Wait + Sync>(
    rt: &R,
    alloc: Global,
    tile: &Arc<Tile>,
    tellers: &mut [Teller<'a, J>],
    calls: &[(usize, Call)],
) -> Result<u32, &'static str> {
    let mut refused = 0u32;
    for (at, call) in calls {
        let teller = tellers.get_mut(*at).ok_or("no board")?;
        refused = refused.saturating_add(tell_again(rt, alloc, tile, teller, *call)?);
    }
    meet(tellers)?;
    for teller in tellers {
        teller.note(Call::Pin, Answer::Nothing).ok_or("no memory")?;
    }
    Ok(refused)
}

// A call, which is made again where it is refused: how often it was. A refused one is recorded as a pin: it made no event.
fn tell_again<'a, J: Naming, R: Threads + Wait + Sync>(
    rt: &R,
    alloc: Global,
    tile: &Arc<Tile>,
    teller: &mut Teller<'a, J>,
    call: Call,
) -> Result<u32, &'static str> {
    for refused in 0..TRIES {
        if teller
            .tell(rt, alloc, &OpenGate::new(), tile, call)
            .is_some()
        {
            return Ok(refused);
        }
        teller.note(Call::Pin, Answer::Nothing).ok_or("no memory")?;
    }
    Err("refused again")
}
