//! The mosaic of a full sky, all squares of which are patched.
ghost use Rattle.std.specs.Prelude.{◌<◌, All, IsTrue, IfOk};
ghost use Rattle.allsky_mosaic.specs.Tiles.{AreOfOrder3, IsMosaic, order_3, leaf_map};

use crate::tiles::{leaves, shape_of};
use allsky_mosaic::{patch, whole};
use leaf_store::Store;
use parent_rule::Depth;
use std::alloc::{AllocError, Global};
use std::test::Fail;
use std::thread::Threads;
use tile_pixels::Tile;

const CELLS: u64 = 768;

/// Sums of the bytes of a mosaic that was made as a whole, and of one all squares of which were patched.
#[derive(Clone, Copy)]
pub struct MosaicSizes {
    pub whole: u64,
    pub patched: u64,
}

/// Those of the mosaic of all 768 cells of order 3.
///
/// # Errors
///
/// Where there is no memory.
pub fn sizes<R: Threads + Sync>(rt: &R, alloc: Global) -> Result<MosaicSizes, Fail> {
    let shape = shape_of(3)?;
    let tiles = leaves(alloc, shape, CELLS, 1)?;
    sizes_of(rt, alloc, shape.depth, &tiles)
}

fn sizes_of<R: Threads + Sync>(
    rt: &R,
    alloc: Global,
    depth: Depth,
    tiles: &Store<Tile>,
) -> Result<MosaicSizes, Fail>
    requires { AreOfOrder3 depth 1 tiles.now }
{
    let old = mosaic(rt, alloc, depth, tiles)?;
    Ok(MosaicSizes {
        whole: sum_of(&old),
        patched: patched(alloc, depth, &old, tiles)?,
    })
}

// The mosaic of some tiles.
fn mosaic<R: Threads + Sync>(
    rt: &R,
    alloc: Global,
    depth: Depth,
    tiles: &Store<Tile>,
) -> Result<Vec<u8>, Fail>
    requires { AreOfOrder3 depth 1 tiles.now }
    ensures { IfOk result (λ raw. IsMosaic depth 1 (order_3 depth 1) (leaf_map tiles.now) raw.items) }
{
    match whole(rt, alloc, depth, 1, tiles)? {
        Some(raw) => Ok(raw),
        None => Err("no mosaic".into()),
    }
}

// A sum of the bytes of the mosaic, each square of which is made anew.
fn patched(alloc: Global, depth: Depth, old: &[u8], tiles: &Store<Tile>) -> Result<u64, Fail>
    requires tiles { AreOfOrder3 depth 1 tiles.now }
    requires old { IsMosaic depth 1 (order_3 depth 1) (leaf_map tiles.now) old.now }
{
    let touched = all_cells(alloc)?;
    if !are_cells(&touched) {
        return Err("no cells of order 3".into());
    }
    match patch(alloc, depth, 1, old, &touched, tiles)? {
        Some(raw) => Ok(sum_of(&raw)),
        None => Err("no patched mosaic".into()),
    }
}

fn all_cells(alloc: Global) -> Result<Vec<u64>, AllocError> {
    let mut cells = Vec::new(alloc);
    for cell in 0..CELLS {
        cells.push(cell)?;
    }
    Ok(cells)
}

// Whether all are cells of order 3.
fn are_cells(numbers: &[u64]) -> bool
    ensures { IsTrue result → All (λ cell. cell < 768) numbers.now }
{
    numbers.iter().all(|number| *number < CELLS)
}

fn sum_of(bytes: &[u8]) -> u64 {
    let mut sum = 0_u64;
    for byte in bytes {
        sum = sum.wrapping_add(u64::from(*byte));
    }
    sum
}
