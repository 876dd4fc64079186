//! The tiles above the leaves, order by order from the deepest.
ghost use Rattle.std.specs.Prelude.{◌≡◌, ℕ, ◌≤◌, ◌<◌, [], List, All, IfOk, IfSome, OnOk, OnErr, option_map};
ghost use Rattle.std.specs.List.Sorted.{IsStrictlyIncreasing};
ghost use Rattle.std.specs.Arc.{arc_value};
ghost use Rattle.healpix_nested.specs.Cells.{cell_count};
ghost use Rattle.pyramid_model.specs.Shape.{LeafMap, FitsShape, IsShape};
ghost use Rattle.tile_pixels.specs.Tile.{PixelTile};
ghost use Rattle.leaf_store.specs.Store.{IsAscending, value_at, with_value, without_key};
ghost use Rattle.dirty_plan.specs.Dirty.{work, steps_after};
ghost use Rattle.rebuild_worker.specs.Changed.{AreSources};
ghost use Rattle.rebuild_worker.specs.Level.{IsAboveLeaves};
ghost use Rattle.rebuild_worker.specs.Shown.{shown, all_shown};
ghost use Rattle.edit_journal.specs.Leaves.{FitsLeaves};
ghost use Rattle.generation.specs.Files.{leaf_map};
ghost use Rattle.generation.specs.Kept.{tiles_of, levels_of, AllKept, AllStood};
ghost use Rattle.generation.specs.Placed.{tile_at, tile_after, tiles_in, IsStep};

use dirty_plan::plan;
use leaf_store::Store;
use parent_rule::{Permit, Steps};
use pyramid_model::Shape;
use rebuild_worker::{Named, Sources, level_changed};
use std::alloc::{AllocError, Global};
use std::thread::Threads;
use survey_link::Gate;
use tile_pixels::Tile;

/// Leaves after some edits, the levels that there were before these, and the leaves that they touched, ascending.
#[derive(Clone, Copy)]
pub(crate) struct Edited<'a> {
    pub(crate) leaves: &'a Store<Tile>,
    pub(crate) before: &'a [Store<Tile>],
    pub(crate) touched: &'a [u64],
}

/// The tiles above the leaves, a store for each order from the one above the leaves down to the lowest. Of the levels that
/// there were before are taken the tiles of cells under which no touched leaf lies, and the quadrants of such children.
pub(crate) fn levels_above<R: Threads + Sync, G: Gate + Sync>(
    rt: &R,
    alloc: Global,
    gate: &G,
    shape: Shape,
    edited: Edited<'_>,
    steps: &mut Steps,
) -> Result<Vec<Store<Tile>>, AllocError>
    requires fits { FitsLeaves shape edited.leaves.now }
    requires numbers { FitsShape shape (leaf_map edited.leaves.now) }
    requires ascending { IsStrictlyIncreasing edited.touched.now }
    requires cells { All (λ leaf. leaf < cell_count shape.top) edited.touched.now }
    requires before { AllKept shape (leaf_map edited.leaves.now) edited.touched.now edited.before.now }
    requires stood { AllStood shape (leaf_map edited.leaves.now) edited.touched.now edited.before.now }
    ensures levels { IfOk result (λ levels. levels.items ≡ levels_of shape (leaf_map edited.entry.leaves.now)) }
    ensures known { IsShape shape.top shape.low shape.n }
    ensures counted { OnOk result (steps.new ≡ steps_after steps.old (work shape.top shape.low edited.entry.touched.now)) }
    ensures steps { steps.new ≤ steps_after steps.old (work shape.top shape.low edited.entry.touched.now) }
    ensures never_falls { steps.old ≤ steps.new }
{
    let Shape { top, low, .. } = shape;
    let mut left = plan(alloc, top, low, edited.touched, steps)?;
    let mut levels = Vec::new(alloc);
    let none = Store::new(alloc);
    while let Some((order, todo)) = left.take() {
        let children = levels.last().unwrap_or(edited.leaves);
        let was = edited.before.get(levels.len());
        let sources = Sources {
            children,
            before: or_empty(was, &none),
            touched: edited.touched,
            height: top - 1 - order,
        };
        let level = level_above(rt, alloc, gate, shape, sources, todo)?;
        levels.push(level)?;
    }
    Ok(levels)
}

// The tiles of one order: the permitted ones are made of their sources, all others are those of before.
fn level_above<R: Threads + Sync, G: Gate + Sync>(
    rt: &R,
    alloc: Global,
    gate: &G,
    shape: Shape,
    sources: Sources<'_>,
    todo: Vec<Permit>,
) -> Result<Store<Tile>, AllocError>
    requires cells { All (IsAboveLeaves shape) todo.items }
    requires sources { AreSources shape sources }
    ensures { IfOk result (λ tiles. (leaves : LeafMap) (order : ℕ) (touched : List ℕ)
        → IsStep shape leaves order touched sources.entry.children.now sources.entry.before.now todo.items → tiles ≡ tiles_of shape leaves order) }
{
    let merged = level_changed(rt, alloc, gate, shape, sources, todo)?;
    let old = sources.before.share()?;
    with_tiles(old, &merged)
}

// The store that was found, or else the empty one.
fn or_empty<'a>(found: Option<&'a Store<Tile>>, none: &'a Store<Tile>) -> &'a Store<Tile>
    requires { none.now ≡ [] }
    ensures { result.now ≡ tiles_in found.entry }
{
    match found {
        Some(tiles) => tiles,
        None => none,
    }
}

// The tiles with each of these in its place; a cell that has none is removed.
fn with_tiles(tiles: Store<Tile>, merged: &[Named]) -> Result<Store<Tile>, AllocError>
    requires { IsAscending tiles }
    ensures tiles { IfOk result (λ after. (cell : ℕ) → value_at cell after ≡ tile_after (all_shown merged.now) cell (value_at cell tiles)) }
    ensures ascending { IfOk result (λ after. IsAscending after) }
{
    let mut after = tiles;
    for named in merged {
        put_or_remove(&mut after, named)?;
    }
    Ok(after)
}

// Puts a tile in its place, or removes it if the cell has none.
fn put_or_remove(tiles: &mut Store<Tile>, named: &Named) -> Result<(), AllocError>
    ensures tiles { OnOk result ((cell : ℕ) → value_at cell tiles.new ≡ tile_at (shown named.now) cell (value_at cell tiles.old)) }
    ensures ascending { OnOk result (IsAscending tiles.new) }
{
    match &named.tile {
        Some(tile) => tiles.put(named.npix, tile.clone()?)?,
        None => tiles.remove(named.npix)?,
    };
    Ok(())
}
