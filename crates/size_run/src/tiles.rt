//! Leaves of two columns and two lines of 16 bits.
ghost use Rattle.std.specs.Prelude.{◌≡◌, ◌<◌, IfOk};
ghost use Rattle.std.specs.Arc.{arc_value};
ghost use Rattle.healpix_nested.specs.Cells.{cell_count};
ghost use Rattle.pyramid_model.specs.Shape.{IsShape};
ghost use Rattle.edit_journal.specs.Leaves.{FitsLeaves, FitsTile};

use healpix_nested::cells;
use leaf_store::Store;
use parent_rule::{Depth, Steps};
use pyramid_model::Shape;
use std::alloc::Global;
use std::sync::Arc;
use std::test::Fail;
use tile_pixels::Tile;

/// What a pyramid of such leaves is that keeps all orders.
///
/// # Errors
///
/// Where there is no such depth: never.
pub fn shape_of(top: u8) -> Result<Shape, Fail>
    requires { IsShape top 0 1 }
    ensures { IfOk result (λ shape. (shape.top ≡ top) × (shape.low ≡ 0) × (shape.n ≡ 1)) }
{
    let depth = Depth::new(16, -32_768).ok_or("no depth")?;
    Ok(Shape {
        top,
        low: 0,
        n: 1,
        depth,
    })
}

/// So many leaves of a shape, each so far from the next, which share a tile.
///
/// # Errors
///
/// Where there is no memory, the shape has fewer cells, or its tiles are others.
pub fn leaves(alloc: Global, shape: Shape, count: u64, apart: u64) -> Result<Store<Tile>, Fail>
    requires { IsShape shape.top shape.low shape.n }
    ensures { IfOk result (FitsLeaves shape) }
{
    let mut store = Store::new(alloc);
    for i in 0..count {
        let leaf = leaf_of(shape, i.saturating_mul(apart))?;
        let tile = tile(alloc, shape)?;
        store.put(leaf, tile)?;
    }
    Ok(store)
}

// The number, where it is a leaf's.
fn leaf_of(shape: Shape, number: u64) -> Result<u64, Fail>
    requires { IsShape shape.top shape.low shape.n }
    ensures { IfOk result (λ leaf. leaf < cell_count shape.top) }
{
    if number >= cells(shape.top) {
        return Err("no such leaf".into());
    }
    Ok(number)
}

// A tile of a shape.
fn tile(alloc: Global, shape: Shape) -> Result<Arc<Tile>, Fail>
    ensures { IfOk result (λ tile. FitsTile shape (arc_value tile)) }
{
    if shape.depth.bytes() != 2 || shape.n != 1 {
        return Err("other tiles".into());
    }
    let tile = Tile::from_bytes(
        alloc,
        &[0, 1, 0, 2, 0, 3, 0, 5],
        shape.depth,
        1,
        &mut Steps::new(),
    )?;
    Ok(Arc::new(alloc, tile)?)
}
