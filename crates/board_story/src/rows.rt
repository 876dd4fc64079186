//! Rows of tables: what boards are asked for, and whether they answer so.
use crate::calling::{Answer, Asked, Call, made, made_batch};
use crate::tiles::tile;
use reader_pin::{Board, ChangedWith, Solo};
use small_files::SURVEY;
use small_survey::first_state;
use std::alloc::Global;
use std::sync::Arc;
use std::test::Fail;
use std::thread::Threads;
use survey_core::State;
use survey_link::{Gate, OpenGate};
use tile_pixels::Tile;

/// What a board is asked for.
#[derive(Clone, Copy)]
pub enum Asking {
    /// One call.
    One(Call),
    /// A batch of these edits.
    Batch(&'static [Asked]),
}

/// How many edits a state has, how many of them are published, and how many leaves these leave.
pub type Shown = (u32, u32, usize);

/// What a board is asked for, what is answered, the last state seen then, and the one that is held.
pub type Row = (Asking, Answer, Shown, Option<Shown>);

fn shown(state: &State) -> Shown {
    let leaves = state.generation().leaves().len();
    (state.edits(), state.tip(), leaves)
}

// What the board answers; `None` where it has no such edits, or there is no memory.
fn answered<B: ChangedWith<R>, G: Gate + Sync, R: Threads + Sync>(
    rt: &R,
    alloc: Global,
    gate: &G,
    board: &mut B,
    tile: &Arc<Tile>,
    asking: Asking,
) -> Option<Answer> {
    match asking {
        Asking::One(call) => made(rt, alloc, gate, board, tile, call),
        Asking::Batch(batch) => made_batch(rt, alloc, board, tile, batch),
    }
}

/// Whether the board, whose publication passes the gate, answers and shows what a row says.
pub fn is_told<B: ChangedWith<R>, G: Gate + Sync, R: Threads + Sync>(
    rt: &R,
    alloc: Global,
    gate: &G,
    board: &mut B,
    tile: &Arc<Tile>,
    row: &Row,
) -> bool {
    let (asking, answer, last, held) = *row;
    answered(rt, alloc, gate, board, tile, asking) == Some(answer)
        && shown(board.last()) == last
        && board.held().map(shown) == held
}

/// How many of these rows, up to the first that isn't so, the board of a survey's only connection answers.
///
/// # Errors
///
/// Where there is no memory to open the survey.
pub fn told_alone<R: Threads + Sync>(rt: &R, alloc: Global, rows: &[Row]) -> Result<usize, Fail> {
    let tile = tile(alloc)?;
    told_with(rt, alloc, &tile, rows)
}

fn told_with<R: Threads + Sync>(
    rt: &R,
    alloc: Global,
    tile: &Arc<Tile>,
    rows: &[Row],
) -> Result<usize, Fail> {
    let mut board = Solo::new(alloc, first_state(rt, alloc, SURVEY)?)?;
    Ok(told_by(rt, alloc, tile, &mut board, rows))
}

fn told_by<R: Threads + Sync>(
    rt: &R,
    alloc: Global,
    tile: &Arc<Tile>,
    board: &mut Solo,
    rows: &[Row],
) -> usize {
    for (number, row) in rows.iter().enumerate() {
        if !is_told(rt, alloc, &OpenGate::new(), board, tile, row) {
            return number;
        }
    }
    rows.len()
}
