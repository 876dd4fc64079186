//! The merge that one permit allows.
ghost use Rattle.std.specs.Prelude.{◌≡◌, ◌||◌, is_some, IfOk, option_map};
ghost use Rattle.std.specs.Arc.{arc_value};
ghost use Rattle.leaf_store.specs.Store.{value_at};
ghost use Rattle.rebuild_worker.specs.Changed.{AreSources};
ghost use Rattle.rebuild_worker.specs.Level.{merge_of, tile_above, children_of, IsAboveLeaves};
ghost use Rattle.rebuild_worker.specs.Shown.{shown};

use crate::named::Named;
use crate::sources::Sources;
use leaf_store::Store;
use parent_rule::Permit;
use pyramid_model::Shape;
use std::alloc::{AllocError, Global};
use std::sync::Arc;
use survey_link::Gate;
use tile_pixels::{Quadrants, Tile};

/// Passes the gate with the permit's cell, and then merges the cell's children.
///
/// # Errors
///
/// `AllocError` where there is no memory for the tile.
pub fn merge_cell<G: Gate>(
    alloc: Global,
    gate: &G,
    shape: Shape,
    sources: Sources<'_>,
    permit: Permit,
) -> Result<Named, AllocError>
    requires cell { IsAboveLeaves shape permit }
    requires sources { AreSources shape sources }
    ensures { IfOk result (λ named. shown named ≡ merge_of shape sources.entry.children.now permit) }
{
    let order = permit.order();
    let npix = permit.npix();
    gate.pass(order, npix);
    let tile = merge_children(alloc, shape, sources, permit)?;
    Ok(Named { order, npix, tile })
}

// The tile above those of the cell's children that exist; `None` if none does.
fn merge_children(
    alloc: Global,
    shape: Shape,
    sources: Sources<'_>,
    permit: Permit,
) -> Result<Option<Arc<Tile>>, AllocError>
    requires cell { IsAboveLeaves shape permit }
    requires sources { AreSources shape sources }
    ensures { IfOk result (λ tile. option_map arc_value tile ≡ tile_above shape (children_of sources.entry.children.now permit.npix)) }
{
    let Shape { n, depth, .. } = shape;
    let npix = permit.npix();
    let first = 4 * npix;
    let second = first + 1;
    let third = first + 2;
    let fourth = first + 3;
    let c0 = lent(sources.children, first);
    let c1 = lent(sources.children, second);
    let c2 = lent(sources.children, third);
    let c3 = lent(sources.children, fourth);
    if !any_is_there(c0, c1, c2, c3) {
        permit.spend();
        return Ok(None);
    }
    let before = lent(sources.before, npix);
    let quadrants = Quadrants {
        first: sources.quadrant(before, c0, first, 0),
        second: sources.quadrant(before, c1, second, 1),
        third: sources.quadrant(before, c2, third, 2),
        fourth: sources.quadrant(before, c3, fourth, 3),
    };
    let tile = Tile::merge_quadrants(alloc, permit, depth, n, quadrants)?;
    Ok(Some(Arc::new(alloc, tile)?))
}

// Whether one of the four exists.
fn any_is_there(c0: Option<&Tile>, c1: Option<&Tile>, c2: Option<&Tile>, c3: Option<&Tile>) -> bool
    ensures { result ≡ (is_some c0.entry || is_some c1.entry || is_some c2.entry || is_some c3.entry) }
{
    c0.is_some() || c1.is_some() || c2.is_some() || c3.is_some()
}

// The tile of that number, if it exists.
fn lent(tiles: &Store<Tile>, npix: u64) -> Option<&Tile>
    ensures { option_map (λ tile. tile.now) result ≡ value_at npix tiles.now }
{
    match tiles.get(npix) {
        None => None,
        Some(tile) => Some(&**tile),
    }
}
