//! The merges of one order, one after the other.
ghost use Rattle.std.specs.Prelude.{◌≡◌, IfOk, All};
ghost use Rattle.rebuild_worker.specs.Changed.{AreSources};
ghost use Rattle.rebuild_worker.specs.Level.{merges_of, IsAboveLeaves, HaveShape, ShowsItsCell};
ghost use Rattle.rebuild_worker.specs.Shown.{all_shown};

use crate::merge::merge_cell;
use crate::named::Named;
use crate::permits::Permits;
use crate::sources::Sources;
use leaf_store::Store;
use parent_rule::Permit;
use pyramid_model::Shape;
use std::alloc::{AllocError, Global};
use survey_link::Gate;
use tile_pixels::Tile;

/// Makes the merges that the permits allow, one after the other: for each permit, in order, its cell with the tile above
/// those of the cell's children that `children` has, and with no tile if and only if it has none of the four. The gate is
/// passed once before each merge, with its cell. All permits are consumed, also by a refusal. The server calls `level_changed`:
/// this is for those who compare.
///
/// # Errors
///
/// `AllocError` where there is no memory for the tiles and their list.
pub fn level_serial<G: Gate>(
    alloc: Global,
    gate: &G,
    shape: Shape,
    children: &Store<Tile>,
    todo: Vec<Permit>,
) -> Result<Vec<Named>, AllocError>
    requires cells { All (IsAboveLeaves shape) todo.items }
    requires children { HaveShape shape children.now }
    ensures merges { IfOk result (λ level. all_shown level.items ≡ merges_of shape children.now todo.items) }
    ensures pixels { IfOk result (λ level. All (ShowsItsCell shape children.now) (all_shown level.items)) }
{
    // For the prover: n is at most 9.
    let _n = shape.n;
    let none = Store::new(alloc);
    let sources = Sources::anew(children, &none);
    merge_all(alloc, gate, shape, sources, Permits::new(todo))
}

/// Makes the merges that these permits allow, as `level_serial` does.
///
/// # Errors
///
/// `AllocError` where there is no memory for the tiles and their list.
pub fn merge_all<G: Gate>(
    alloc: Global,
    gate: &G,
    shape: Shape,
    sources: Sources<'_>,
    mut todo: Permits,
) -> Result<Vec<Named>, AllocError>
    requires cells { All (IsAboveLeaves shape) todo }
    requires sources { AreSources shape sources }
    ensures { IfOk result (λ level. all_shown level.items ≡ merges_of shape sources.entry.children.now todo) }
{
    let mut level = Vec::with_capacity(alloc, todo.len())?;
    while let Some(permit) = todo.take_first() {
        let named = merge_cell(alloc, gate, shape, sources, permit)?;
        level.push(named)?;
    }
    Ok(level)
}
