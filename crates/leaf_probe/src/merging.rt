//! A tile made by merging tiles from the leaves upward, order by order.
ghost use Rattle.std.specs.Prelude.{◌≡◌, ◌+◌, ◌^◌, ◌<◌, ◌≤◌, ℕ, true, All, IfOk, IfSome, OnOk, is_some, length};
ghost use Rattle.std.specs.List.Sorted.{IsStrictlySortedBy};
ghost use Rattle.std.specs.Map.{keys_of, values_of};
ghost use Rattle.std.specs.Ordering.{nat_cmp};
ghost use Rattle.healpix_nested.specs.Cells.{lies_under};
ghost use Rattle.parent_rule.specs.Permit.{one_more};
ghost use Rattle.pyramid_model.specs.Shape.{LeafMap};
ghost use Rattle.pyramid_model.specs.Tile.{exists};
ghost use Rattle.tile_pixels.specs.Tile.{tile_of, HasShape};
ghost use Rattle.leaf_probe.specs.Merging.{tiles_made, steps_after, IsLevel};

use parent_rule::{Permit, Steps};
use pyramid_model::Shape;
use std::alloc::{AllocError, Global};
use std::collections::BTreeMap;
use tile_pixels::Tile;

/// Tiles of one order, by number.
pub type Tiles = BTreeMap<u64, Tile>;

// The tile of a cell, made of those of the order below it.
fn merge_cell(
    alloc: Global,
    shape: &Shape,
    level: u8,
    npix: u64,
    children: &Tiles,
    steps: &mut Steps,
) -> Result<Tile, AllocError>
    requires level { level < shape.now.top }
    requires npix { npix < 2 ^ 62 }
    requires tiles { All (λ tile. HasShape tile shape.now.depth shape.now.n) (values_of children.now.entries) }
    ensures shape { IfOk result (λ tile. HasShape tile shape.now.depth shape.now.n) }
    ensures tile { (leaves : LeafMap) (order above : ℕ) → order ≤ level
        → IsLevel shape.now leaves order above (level + 1) children.now.entries → lies_under level npix order above ≡ true
        → IfOk result (λ tile. tile ≡ tile_of shape.now leaves level npix) }
    ensures counted { steps.new ≡ one_more steps.old }
    ensures steps_never_fall { steps.old ≤ steps.new }
{
    let first = 4 * npix;
    let c0 = children.get(&first);
    let c1 = children.get(&(first + 1));
    let c2 = children.get(&(first + 2));
    let c3 = children.get(&(first + 3));
    let permit = Permit::issue(level, npix, steps);
    Tile::merge(alloc, permit, shape.depth, shape.n, c0, c1, c2, c3)
}

// The tiles of an order, made of those of the order below it. Each is made at the first of its children.
fn merge_level(
    alloc: Global,
    shape: &Shape,
    level: u8,
    children: &Tiles,
    steps: &mut Steps,
) -> Result<Tiles, AllocError>
    requires level { level < shape.now.top }
    requires tiles { All (λ tile. HasShape tile shape.now.depth shape.now.n) (values_of children.now.entries) }
    ensures level { (leaves : LeafMap) (order npix : ℕ) → order ≤ level
        → IsLevel shape.now leaves order npix (level + 1) children.now.entries
        → IfOk result (λ made. IsLevel shape.now leaves order npix level made.entries) }
    ensures ordered { IfOk result (λ made. IsStrictlySortedBy nat_cmp (keys_of made.entries)) }
    ensures counted { IfOk result (λ made. steps.new ≡ steps_after (length made.entries) steps.old) }
    ensures tiles { IfOk result (λ made. All (λ tile. HasShape tile shape.now.depth shape.now.n) (values_of made.entries)) }
    ensures steps_never_fall { steps.old ≤ steps.new }
{
    let mut made = BTreeMap::new(alloc);
    for child in children.keys() {
        let npix = *child / 4;
        if made.contains_key(&npix) {
            continue;
        }
        let tile = merge_cell(alloc, shape, level, npix, children, steps)?;
        made.insert(npix, tile)?;
    }
    Ok(made)
}

/// Tile `npix` of an order, made of the leaves under it, which are all that are given; `None` if and only if it doesn't exist.
/// Each tile between is made once, and a step is counted for each that is made.
///
/// # Errors
///
/// `AllocError` where there is no memory for the tiles.
pub fn merge_up(
    alloc: Global,
    shape: &Shape,
    leaves: Tiles,
    order: u8,
    npix: u64,
    steps: &mut Steps,
) -> Result<Option<Tile>, AllocError>
    requires order { order ≤ shape.now.top }
    requires tiles { All (λ tile. HasShape tile shape.now.depth shape.now.n) (values_of leaves.entries) }
    ensures exists { (all : LeafMap) → IsLevel shape.now all order npix shape.now.top leaves.entries
        → IfOk result (λ made. is_some made ≡ exists shape.now all order npix) }
    ensures tile { (all : LeafMap) → IsLevel shape.now all order npix shape.now.top leaves.entries
        → IfOk result (λ made. IfSome made (λ tile. tile ≡ tile_of shape.now all order npix)) }
    ensures counted { (all : LeafMap) → IsLevel shape.now all order npix shape.now.top leaves.entries
        → OnOk result (steps.new ≡ steps_after (tiles_made shape.now all order npix) steps.old) }
    ensures steps_never_fall { steps.old ≤ steps.new }
{
    let mut level = shape.top;
    let mut tiles = leaves;
    while level > order {
        level -= 1;
        tiles = merge_level(alloc, shape, level, &tiles, steps)?;
    }
    Ok(tiles.remove(&npix))
}
