//! Calls of boards as values, and what they are answered.
use edit_journal::Edit;
use parent_rule::Steps;
use reader_pin::{Board, BoardBatch, BoardRefusal, ChangedWith, Published};
use small_survey::{all_fit, fits};
use std::alloc::Global;
use std::sync::Arc;
use std::thread::Threads;
use survey_core::State;
use survey_link::Gate;
use tile_pixels::Tile;

/// A call of a board.
#[derive(Clone, Copy)]
pub enum Call {
    /// One edit.
    Edit(Asked),
    /// So many edits, at most four, which begin with that one.
    Batch(Asked, u32),
    /// A publication of all edits.
    Publish,
    /// A look at what others did.
    Pin,
    /// The last state seen is held.
    Hold,
    /// The held state is dropped.
    Release,
}

/// The kind of an edit that puts a leaf.
pub const PUT: u32 = 0;
/// The kind of one that adds it.
pub const ADD: u32 = 1;
/// The kind of one that replaces it.
pub const REPLACE: u32 = 2;
/// The kind of one that removes it.
pub const REMOVE: u32 = 3;

/// An edit that is asked for.
#[derive(Clone, Copy)]
pub struct Asked {
    /// What is done with the leaf: `PUT`, `ADD`, `REPLACE` or `REMOVE`.
    pub kind: u32,
    /// Its number.
    pub leaf: u32,
}

impl Asked {
    /// The edit that is so many behind it in its batch.
    pub fn behind(self, at: u32) -> Asked {
        Asked {
            kind: self.kind.wrapping_add(at) % 4,
            leaf: self.leaf.wrapping_add(at) % 16,
        }
    }

    // It, and the three behind it.
    fn run(self) -> [Asked; 4] {
        [self, self.behind(1), self.behind(2), self.behind(3)]
    }

    // The edit with the tile.
    fn edit(self, tile: &Arc<Tile>) -> Option<Edit> {
        let leaf = u64::from(self.leaf);
        if self.kind == REMOVE {
            return Some(Edit::Remove { leaf });
        }
        let tile = tile.clone().ok()?;
        match self.kind {
            PUT => Some(Edit::Put { leaf, tile }),
            ADD => Some(Edit::Add { leaf, tile }),
            _ => Some(Edit::Replace { leaf, tile }),
        }
    }
}

/// What a board answers.
#[derive(Clone, Copy, PartialEq, Eq)]
pub enum Answer {
    /// An edit or a batch is accepted: how many edits there are then, and whether the leaf of the only edit was absent.
    Accepted(u32, Option<bool>),
    /// The edit at that place has that fault after so many edits.
    Fault(u32, u8, u32),
    /// What a publication is answered, and how many tiles it merged.
    Published(Published, u64),
    /// The call answers nothing.
    Nothing,
}

/// How many edits a state has, and how many of them are published.
#[derive(Clone, Copy, PartialEq, Eq)]
pub struct Seen {
    /// How many edits it has.
    pub edits: u32,
    /// How many of these are published.
    pub tip: u32,
}

impl Seen {
    /// Those of a state.
    pub fn of(state: &State) -> Seen {
        Seen {
            edits: state.edits(),
            tip: state.tip(),
        }
    }
}

/// A call, what was answered, the last state seen then, and the one that is held.
#[derive(Clone, Copy)]
pub struct Told {
    /// The call.
    pub call: Call,
    /// What was answered.
    pub answer: Answer,
    /// The last state seen then.
    pub last: Seen,
    /// The one that is held.
    pub held: Option<Seen>,
}

// What the board answers to an edit.
fn edited<B: ChangedWith<R>, R>(rt: &R, board: &mut B, edit: Edit) -> Option<Answer> {
    if !fits(board.last(), &edit) {
        return None;
    }
    match board.edit(rt, edit) {
        Ok(accepted) => Some(Answer::Accepted(accepted.number, Some(accepted.created))),
        Err(BoardRefusal::Fault { fault, edits }) => Some(Answer::Fault(0, fault.number(), edits)),
        Err(BoardRefusal::OutOfMemory) => None,
    }
}

// What it answers to the edits of a batch.
fn batched<B: ChangedWith<R>, R>(rt: &R, board: &mut B, edits: Vec<Edit>) -> Option<Answer> {
    if edits.is_empty() || edits.len() > 1024 || !all_fit(board.last(), &edits) {
        return None;
    }
    match board.batch(rt, edits) {
        Ok(count) => Some(Answer::Accepted(count, None)),
        Err(BoardBatch::Fault { at, fault, edits }) => {
            Some(Answer::Fault(at, fault.number(), edits))
        }
        Err(BoardBatch::OutOfMemory) => None,
    }
}

// Appends the edits of a batch.
fn push_edits(edits: &mut Vec<Edit>, batch: &[Asked], tile: &Arc<Tile>) -> Option<()> {
    for asked in batch {
        let edit = asked.edit(tile)?;
        edits.push(edit).ok()?;
    }
    Some(())
}

/// What the board answers to a batch of these edits; `None` where it has no such edits, or there is no memory.
pub fn made_batch<B: ChangedWith<R>, R>(
    rt: &R,
    alloc: Global,
    board: &mut B,
    tile: &Arc<Tile>,
    batch: &[Asked],
) -> Option<Answer> {
    let mut edits = Vec::new(alloc);
    push_edits(&mut edits, batch, tile)?;
    batched(rt, board, edits)
}

// What it answers to a publication through the gate.
fn published<B: ChangedWith<R>, G: Gate + Sync, R: Threads + Sync>(
    rt: &R,
    gate: &G,
    board: &mut B,
) -> Option<Answer> {
    let mut steps = Steps::new();
    match board.publish(rt, gate, &mut steps) {
        Ok(published) => Some(Answer::Published(published, steps.count())),
        Err(_) => None,
    }
}

/// What the board answers to a call, whose publication passes the gate; `None` where it has no such edit, or there is no memory.
pub fn made<B: ChangedWith<R>, G: Gate + Sync, R: Threads + Sync>(
    rt: &R,
    alloc: Global,
    gate: &G,
    board: &mut B,
    tile: &Arc<Tile>,
    call: Call,
) -> Option<Answer> {
    match call {
        Call::Edit(asked) => return edited(rt, board, asked.edit(tile)?),
        Call::Batch(first, count) => {
            return made_batch(rt, alloc, board, tile, first.run().get(..count as usize)?);
        }
        Call::Publish => return published(rt, gate, board),
        Call::Pin => board.pin(),
        Call::Hold => board.hold(),
        Call::Release => board.release(),
    }
    Some(Answer::Nothing)
}
