//! What is done with the boards of several connections.
use crate::calling::{ADD, Answer, Asked, Call, PUT, REPLACE, Seen};
use crate::gates::TestGate;
use crate::rows::Asking::{Batch, One};
use crate::rows::{Row, is_told};
use crate::storm::{CALLS, call_all};
use crate::story::tell_story;
use crate::teller::{Teller, explained, meet};
use reader_pin::{Board, Published};
use shared_history::Naming;
use std::alloc::Global;
use std::io::Print;
use std::sync::{Arc, Wait};
use std::thread::{Threads, for_each_mut};
use tile_pixels::Tile;

/// What is done with the boards of a survey.
#[derive(Clone, Copy)]
pub enum Tale {
    /// Each board edits and publishes, in a thread of its own; there are eight edits then, all published.
    AtOnce,
    /// One leaf of three is replaced: one tile is merged, and passes the gate.
    Counted,
    /// One of two boards edits while the other is held at the gate of its publication.
    OpenLock,
    /// Each board makes random calls, in a thread of its own.
    Storm,
    /// Three boards, each call of which is made again if memory is refused.
    Story,
    /// Three boards make their calls one after another.
    ThreeBoards,
}

/// Runs a scenario test with the boards, with a tile for their edits.
///
/// # Errors
///
/// Where a board answers otherwise than it must, or there is no memory.
pub fn tell<'a, J: Naming + Send + Sync, R: Threads + Wait + Print + Sync>(
    rt: &R,
    alloc: Global,
    tile: &Arc<Tile>,
    tellers: &mut [Teller<'a, J>],
    tale: Tale,
) -> Result<(), &'static str> {
    let gate = TestGate::new();
    match tale {
        Tale::OpenLock => return open_lock(rt, alloc, &gate, tile, tellers),
        Tale::Story => return tell_story(rt, alloc, tile, tellers),
        _ => gate.open(),
    }
    match tale {
        Tale::Counted => counted(rt, alloc, &gate, tile, tellers),
        Tale::ThreeBoards => three_boards(rt, alloc, &gate, tile, tellers),
        other => at_once(rt, alloc, &gate, tile, tellers, other),
    }
}

// The edit that several connections ask for.
const EDIT: Call = Call::Edit(Asked { kind: PUT, leaf: 7 });

// A board edits and publishes.
fn edit_and_publish<'a, J: Naming, R: Threads + Wait + Sync>(
    rt: &R,
    alloc: Global,
    gate: &TestGate,
    tile: &Arc<Tile>,
    teller: &mut Teller<'a, J>,
) {
    let _told = teller.tell(rt, alloc, gate, tile, EDIT);
    let _told = teller.tell(rt, alloc, gate, tile, Call::Publish);
}

// A board edits while another is held at the gate of its publication, and then opens the gate.
fn edit_meanwhile<'a, J: Naming, R: Threads + Wait + Sync>(
    rt: &R,
    alloc: Global,
    gate: &TestGate,
    tile: &Arc<Tile>,
    teller: &mut Teller<'a, J>,
) {
    gate.wait_for_entry();
    let _told = teller.tell(rt, alloc, gate, tile, EDIT);
    gate.open();
}

// What each board does in a thread of its own.
fn in_threads<'a, J: Naming + Send + Sync, R: Threads + Wait + Sync>(
    rt: &R,
    alloc: Global,
    gate: &TestGate,
    tile: &Arc<Tile>,
    tellers: &mut [Teller<'a, J>],
    tale: Tale,
) {
    let threads = tellers.len().max(1);
    for_each_mut(
        rt,
        tellers,
        threads,
        &|at, teller| match tale {
            Tale::Storm => call_all(rt, alloc, gate, tile, at, teller),
            Tale::OpenLock if at == 1 => edit_meanwhile(rt, alloc, gate, tile, teller),
            _ => edit_and_publish(rt, alloc, gate, tile, teller),
        },
    );
}

// All boards make their calls at once. Then the first meets each other one twice, so that all have seen one history, and that
// history explains what each was answered.
fn at_once<'a, J: Naming + Send + Sync, R: Threads + Wait + Print + Sync>(
    rt: &R,
    alloc: Global,
    gate: &TestGate,
    tile: &Arc<Tile>,
    tellers: &mut [Teller<'a, J>],
    tale: Tale,
) -> Result<(), &'static str> {
    in_threads(rt, alloc, gate, tile, tellers, tale);
    let is_storm = matches!(tale, Tale::Storm);
    let calls = if is_storm { CALLS } else { 2 };
    for teller in tellers.iter() {
        if teller.told.len() != calls {
            return Err("a call isn't answered");
        }
    }
    meet(tellers)?;
    let last = explained(alloc, tellers)?;
    if is_storm || last == (Seen { edits: 8, tip: 8 }) {
        return Ok(());
    }
    Err("not all is published")
}

// The lock is free while a publication is built.
fn open_lock<'a, J: Naming + Send + Sync, R: Threads + Wait + Print + Sync>(
    rt: &R,
    alloc: Global,
    gate: &TestGate,
    tile: &Arc<Tile>,
    tellers: &mut [Teller<'a, J>],
) -> Result<(), &'static str> {
    in_threads(rt, alloc, gate, tile, tellers, Tale::OpenLock);
    if !gate.is_in_time() {
        return Err("the turns of a board at the gate are spent");
    }
    let (first, others) = tellers.split_first_mut().ok_or("no board")?;
    let other = others.first_mut().ok_or("no other board")?;
    if first.answer(0) != Some(Answer::Accepted(1, Some(true)))
        || first.answer(1) != Some(Answer::Published(Published::New(1), 1))
        || other.answer(0) != Some(Answer::Accepted(2, Some(false)))
    {
        return Err("an edit beside a publication is answered otherwise");
    }
    let _told = other.tell(rt, alloc, gate, tile, Call::Publish);
    match other.answer(1) {
        Some(Answer::Published(Published::New(2), _)) => Ok(()),
        _ => Err("the other publication is answered otherwise"),
    }
}

// A board, and what it is asked for, before the others look. The second one holds the opening state, and has looked when
// there was nothing to find: its next look must find what comes after that.
static FIRST: [(usize, Row); 5] = [
    (
        1,
        (One(Call::Hold), Answer::Nothing, (0, 0, 0), Some((0, 0, 0))),
    ),
    (
        1,
        (One(Call::Pin), Answer::Nothing, (0, 0, 0), Some((0, 0, 0))),
    ),
    (
        0,
        (
            One(Call::Edit(Asked { kind: PUT, leaf: 0 })),
            Answer::Accepted(1, Some(true)),
            (1, 0, 0),
            None,
        ),
    ),
    (
        0,
        (
            One(Call::Publish),
            Answer::Published(Published::New(1), 1),
            (1, 1, 1),
            None,
        ),
    ),
    (0, (One(Call::Pin), Answer::Nothing, (1, 1, 1), None)),
];

// What comes after the second one has found that, and the third one has met the first.
static SECOND: [(usize, Row); 7] = [
    (2, (One(Call::Release), Answer::Nothing, (1, 1, 1), None)),
    (
        1,
        (
            One(Call::Publish),
            Answer::Published(Published::Already(1), 0),
            (1, 1, 1),
            Some((0, 0, 0)),
        ),
    ),
    (
        1,
        (One(Call::Pin), Answer::Nothing, (1, 1, 1), Some((0, 0, 0))),
    ),
    (
        1,
        (
            One(EDIT),
            Answer::Accepted(2, Some(true)),
            (2, 1, 1),
            Some((0, 0, 0)),
        ),
    ),
    (1, (One(Call::Release), Answer::Nothing, (2, 1, 1), None)),
    (2, (One(Call::Pin), Answer::Nothing, (2, 1, 1), None)),
    (
        2,
        (One(EDIT), Answer::Accepted(3, Some(false)), (3, 1, 1), None),
    ),
];

fn all_told<'a, J: Naming, R: Threads + Wait + Print + Sync>(
    rt: &R,
    alloc: Global,
    gate: &TestGate,
    tile: &Arc<Tile>,
    tellers: &mut [Teller<'a, J>],
    rows: &[(usize, Row)],
) -> Result<(), &'static str> {
    for (number, (at, row)) in rows.iter().enumerate() {
        let teller = tellers.get_mut(*at).ok_or("no board")?;
        if !is_told(rt, alloc, gate, &mut teller.board, tile, row) {
            let _printed = println!(rt; "row {number} is told otherwise");
            return Err("a row is told otherwise");
        }
    }
    Ok(())
}

// Whether one of 1,024 pins finds that so many edits are published.
fn finds<B: Board>(board: &mut B, tip: u32) -> bool {
    for _ in 0..1024 {
        board.pin();
        if board.last().tip() == tip {
            return true;
        }
    }
    false
}

// Three boards, whose calls come one after another.
fn three_boards<'a, J: Naming, R: Threads + Wait + Print + Sync>(
    rt: &R,
    alloc: Global,
    gate: &TestGate,
    tile: &Arc<Tile>,
    tellers: &mut [Teller<'a, J>],
) -> Result<(), &'static str> {
    all_told(rt, alloc, gate, tile, tellers, &FIRST)?;
    let second = tellers.get_mut(1).ok_or("no second")?;
    if !finds(&mut second.board, 1) {
        return Err("a board doesn't find what is published");
    }
    meet(tellers)?;
    all_told(rt, alloc, gate, tile, tellers, &SECOND)
}

// Three leaves.
static LEAVES: [(usize, Row); 2] = [
    (
        0,
        (
            Batch(&[
                Asked { kind: ADD, leaf: 0 },
                Asked { kind: ADD, leaf: 4 },
                Asked { kind: ADD, leaf: 8 },
            ]),
            Answer::Accepted(3, None),
            (3, 0, 0),
            None,
        ),
    ),
    (
        0,
        (
            One(Call::Publish),
            Answer::Published(Published::New(3), 3),
            (3, 3, 3),
            None,
        ),
    ),
];

// One of them is replaced.
static REPLACED: [(usize, Row); 2] = [
    (
        0,
        (
            One(Call::Edit(Asked {
                kind: REPLACE,
                leaf: 0,
            })),
            Answer::Accepted(4, Some(false)),
            (4, 3, 3),
            None,
        ),
    ),
    (
        0,
        (
            One(Call::Publish),
            Answer::Published(Published::New(4), 1),
            (4, 4, 3),
            None,
        ),
    ),
];

// One leaf of three is replaced: one tile is merged, and passes the gate.
fn counted<'a, J: Naming, R: Threads + Wait + Print + Sync>(
    rt: &R,
    alloc: Global,
    gate: &TestGate,
    tile: &Arc<Tile>,
    tellers: &mut [Teller<'a, J>],
) -> Result<(), &'static str> {
    all_told(rt, alloc, gate, tile, tellers, &LEAVES)?;
    let before = gate.count();
    all_told(rt, alloc, gate, tile, tellers, &REPLACED)?;
    if before != 3 || gate.count() != 4 {
        return Err("other merges pass the gate");
    }
    Ok(())
}
