//! A run of more than 65,535 merges.
ghost use Rattle.std.specs.Prelude.{◌≡◌, IfOk, All, length, vec_len, vec_capacity};
ghost use Rattle.rebuild_worker.specs.Level.{IsAboveLeaves, HaveShape};

use crate::tiles::{leaves, shape_of};
use leaf_store::Store;
use parent_rule::{Permit, Steps};
use pyramid_model::Shape;
use rebuild_worker::{Named, level_parallel, level_serial};
use std::alloc::{AllocError, Global};
use std::test::Fail;
use std::thread::Threads;
use survey_link::OpenGate;
use tile_pixels::Tile;

const MERGES: u64 = 70_000;

// How many leaves there are below the merged cells, and how far apart: one under a cell.
const LEAVES: u64 = 70_000;

const APART: u64 = 4;

/// How many cells were merged, and how many tiles one worker and many made of them.
#[derive(Clone, Copy)]
pub struct LevelSizes {
    pub merges: usize,
    pub one: usize,
    pub many: usize,
}

/// Those of 70,000 cells of order 10, each of which has a leaf below it.
///
/// # Errors
///
/// Where there is no memory.
pub fn sizes<R: Threads + Sync>(rt: &R, alloc: Global) -> Result<LevelSizes, Fail> {
    let shape = shape_of(11)?;
    let tiles = leaves(alloc, shape, LEAVES, APART)?;
    sizes_of(rt, alloc, shape, &tiles)
}

fn sizes_of<R: Threads + Sync>(
    rt: &R,
    alloc: Global,
    shape: Shape,
    tiles: &Store<Tile>,
) -> Result<LevelSizes, Fail>
    requires top { shape.top ≡ 11 }
    requires tiles { HaveShape shape tiles.now }
{
    let one = level_serial(
        alloc,
        &OpenGate::new(),
        shape,
        tiles,
        permits(alloc, shape)?,
    )?;
    let many = level_parallel(
        rt,
        alloc,
        &OpenGate::new(),
        shape,
        tiles,
        permits(alloc, shape)?,
    )?;
    Ok(LevelSizes {
        merges: many.len(),
        one: count_of(&one),
        many: count_of(&many),
    })
}

// A permit for each of many cells of order 10.
fn permits(alloc: Global, shape: Shape) -> Result<Vec<Permit>, AllocError>
    requires { shape.top ≡ 11 }
    ensures { IfOk result (λ todo. All (IsAboveLeaves shape) todo.items) }
{
    let mut steps = Steps::new();
    let mut todo = Vec::with_capacity(alloc, MERGES as usize)?;
    for npix in 0..MERGES {
        todo.push_reserved(Permit::issue(10, npix, &mut steps));
    }
    Ok(todo)
}

// How many have a tile.
fn count_of(level: &[Named]) -> usize {
    level.iter().filter(|named| named.tile.is_some()).count()
}
