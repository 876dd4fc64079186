//! The leaf tiles of a shelf.
ghost use Rattle.std.specs.Prelude.{◌≡◌, ℕ, ◌+◌, ◌<◌, ◌≤◌, ◌++◌, [], length, All, IfOk, IfErr, OnOk, OnErr, ◌∷◌, IfSome, Option, None, slice_get, option_map};
ghost use Rattle.std.specs.List.{filter_map, cons_option};
ghost use Rattle.std.specs.Map.{keys_of};
ghost use Rattle.std.specs.List.Sorted.{IsStrictlyIncreasing};
ghost use Rattle.healpix_nested.specs.Cells.{cell_count};
ghost use Rattle.dirty_plan.specs.Dirty.{steps_after};
ghost use Rattle.tile_pixels.specs.Tile.{PixelTile, HasShape};
ghost use Rattle.survey_link.specs.Link.{CountsFault};
ghost use Rattle.shelf_io.specs.Refusals.{at_shelf};
ghost use Rattle.leaf_store.specs.Store.{IsAscending};
ghost use Rattle.edit_journal.specs.Leaves.{FitsLeaves};
ghost use Rattle.shelf_io.specs.Opening.{leaf_tile, leaf_refusal, IsRefusedBy};

use crate::logging::say_tile_fault;
use crate::refusal::LoadRefusal;
use command_output::Progress;
use fits_tile::{TileRefusal, decode};
use healpix_nested::Cell;
use leaf_store::Store;
use log::Log;
use parent_rule::Steps;
use std::alloc::{AllocError, Global};
use std::sync::Arc;
use std::time::Clock;
use survey_conf::Conf;
use survey_link::{Means, Shelf};
use tile_path::Path;
use tile_pixels::Tile;

/// The tiles of these leaves, as their files have them; a leaf that has no file is left out. The steps rise by one for each
/// tile.
///
/// # Errors
///
/// `Tile` for the first leaf whose file is refused; `ShelfFault` if and only if the shelf's count of faults rose;
/// `OutOfMemory`.
pub(crate) fn read_leaves<R: Clock + Log, H: Shelf, G>(
    means: &Means<'_, R, G>,
    shelf: &mut H,
    conf: &Conf,
    leaves: &[u64],
    steps: &mut Steps,
) -> Result<Store<Tile>, LoadRefusal>
    requires ascending { IsStrictlyIncreasing leaves.now }
    requires cells { All (λ leaf. leaf < cell_count conf.now.shape.top) leaves.now }
    ensures fits { IfOk result (FitsLeaves conf.now.shape) }
    ensures count { IfOk result (λ tiles. length tiles ≤ length leaves.now) }
    ensures tiles { IfOk result (λ tiles. IfSome (H.files shelf.old) (λ files.
        tiles ≡ filter_map (leaf_tile files conf.now) leaves.now)) }
    ensures sound { OnOk result (IfSome (H.files shelf.old) (λ files.
        filter_map (leaf_refusal files conf.now) leaves.now ≡ [])) }
    ensures refused { IfErr result (λ refusal. IfSome (H.files shelf.old) (λ files.
        IsRefusedBy (slice_get (filter_map (leaf_refusal files conf.now) leaves.now) 0) refusal)) }
    ensures kept { H.files shelf.new ≡ H.files shelf.old }
    ensures faults { CountsFault (at_shelf result) (H.faults shelf.old) (H.faults shelf.new) }
    ensures counted { IfOk result (λ tiles. steps.new ≡ steps_after steps.old (length tiles)) }
    ensures steps { IfOk result (λ tiles. steps.new ≤ steps.old + length tiles) }
    ensures steps_at_most { steps.new ≤ steps.old + length leaves.now }
    ensures steps_never_fall { steps.old ≤ steps.new }
{
    // For the prover: a count fits 64 bits.
    let _count = steps.count();
    let mut tiles = Store::new(means.alloc);
    let mut progress = Progress::begin(means.rt, "leaves read", Some(leaves.len() as u64));
    for leaf in leaves {
        let tile = read_leaf(means, shelf, conf, *leaf, steps)?;
        add_leaf(means.alloc, conf, *leaf, tile, &mut tiles)?;
        progress.part_done(means.rt);
    }
    Ok(tiles)
}

// Adds the tile of a leaf, where it has one, to those of leaves with lower numbers.
fn add_leaf(
    alloc: Global,
    conf: &Conf,
    leaf: u64,
    tile: Option<Tile>,
    tiles: &mut Store<Tile>,
) -> Result<(), AllocError>
    requires cell { leaf < cell_count conf.now.shape.top }
    requires lower { All (λ key. key < leaf) (keys_of tiles.old) }
    requires fits { FitsLeaves conf.now.shape tiles.old }
    requires shape { IfSome tile (λ t. HasShape t conf.now.shape.depth conf.now.shape.n) }
    ensures fits { OnOk result (FitsLeaves conf.now.shape tiles.new) }
    ensures higher { OnOk result (All (λ key. key < leaf + 1) (keys_of tiles.new)) }
    ensures added { OnOk result (tiles.new ≡ tiles.old ++ cons_option (option_map {U = ℕ × PixelTile} (λ t. (leaf, t)) tile) []) }
    ensures count { OnOk result (length tiles.new ≡ length tiles.old + length (cons_option tile [])) }
{
    match tile {
        Some(tile) => put_tile(alloc, leaf, tile, tiles),
        None => Ok(()),
    }
}

// Puts a tile behind those of leaves with lower numbers.
fn put_tile(alloc: Global, leaf: u64, tile: Tile, tiles: &mut Store<Tile>) -> Result<(), AllocError>
    requires { All (λ key. key < leaf) (keys_of tiles.old) }
    ensures put { OnOk result (tiles.new ≡ tiles.old ++ (leaf, tile) ∷ []) }
    ensures refused { OnErr result (tiles.new ≡ tiles.old) }
    ensures ascending { OnOk result (IsAscending tiles.new) }
{
    tiles.put(leaf, Arc::new(alloc, tile)?)?;
    Ok(())
}

// The tile of a leaf, where it has a file.
fn read_leaf<R: Log, H: Shelf, G>(
    means: &Means<'_, R, G>,
    shelf: &mut H,
    conf: &Conf,
    leaf: u64,
    steps: &mut Steps,
) -> Result<Option<Tile>, LoadRefusal>
    requires cell { leaf < cell_count conf.now.shape.top }
    ensures shape { IfOk result (λ tile. IfSome tile (λ t. HasShape t conf.now.shape.depth conf.now.shape.n)) }
    ensures tile { IfOk result (λ tile. IfSome (H.files shelf.old) (λ files.
        option_map {U = ℕ × PixelTile} (λ t. (leaf, t)) tile ≡ leaf_tile files conf.now leaf)) }
    ensures sound { OnOk result (IfSome (H.files shelf.old) (λ files. leaf_refusal files conf.now leaf ≡ None)) }
    ensures refused { IfErr result (λ refusal. IfSome (H.files shelf.old) (λ files.
        IsRefusedBy (leaf_refusal files conf.now leaf) refusal)) }
    ensures kept { H.files shelf.new ≡ H.files shelf.old }
    ensures faults { CountsFault (at_shelf result) (H.faults shelf.old) (H.faults shelf.new) }
    ensures counted { IfOk result (λ tile. steps.new ≡ steps_after steps.old (length (cons_option tile []))) }
    ensures steps { IfOk result (λ tile. steps.new ≤ steps.old + length (cons_option tile [])) }
    ensures steps_at_most { steps.new ≤ steps.old + 1 }
    ensures steps_never_fall { steps.old ≤ steps.new }
{
    // For the prover: a count fits 64 bits.
    let _count = steps.count();
    let cell = Cell::new(conf.shape().top, leaf).unwrap();
    let path = Path::Tile(cell).to_string(means.alloc)?;
    match shelf.get(means.alloc, &path)? {
        Some(bytes) => match decode(means.alloc, &bytes, conf, steps) {
            Ok(tile) => Ok(Some(tile)),
            Err(TileRefusal::Fault(fault)) => {
                say_tile_fault(means.rt, cell, &bytes, fault);
                Err(LoadRefusal::Tile { cell, fault })
            }
            Err(TileRefusal::OutOfMemory) => Err(LoadRefusal::OutOfMemory),
        },
        None => Ok(None),
    }
}
