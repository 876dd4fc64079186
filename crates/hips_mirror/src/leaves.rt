//! The leaf tiles of a peer's survey.
ghost use Rattle.std.specs.Prelude.{◌≡◌, ◌≤◌, ◌<◌, ◌+◌, [], ◌∷◌, ◌++◌, map, length, All, Ok, IfOk, IfErr, OnOk};
ghost use Rattle.std.specs.Map.{keys_of};
ghost use Rattle.std.specs.List.Sorted.{IsStrictlyIncreasing};
ghost use Rattle.healpix_nested.specs.Cells.{cell_count};
ghost use Rattle.leaf_store.specs.Store.{IsAscending};
ghost use Rattle.tile_pixels.specs.Tile.{HasShape};
ghost use Rattle.fits_tile.specs.Reading.{reads};
ghost use Rattle.mirror_frame.specs.Requests.{leaf_ask};
ghost use Rattle.edit_journal.specs.Leaves.{FitsLeaves};
ghost use Rattle.generation.specs.Files.{leaf_map};
ghost use Rattle.hips_mirror.specs.Mirror.{AreLeaves, WrongLeaf, RefusesLeaf};
ghost use Rattle.hips_mirror.specs.Stages.{PutsLeaf, RefusedBy, Reaches, IsRefusedIn, IsOfBody};

use crate::asking::ask;
use crate::description::PeerSurvey;
use crate::logging::say_refused;
use crate::refusal::MirrorRefusal;
use crate::request::Request;
use command_output::Progress;
use fits_tile::{TileRefusal, decode};
use healpix_nested::Cell;
use leaf_store::Store;
use log::Log;
use mirror_frame::{Due, Peer};
use parent_rule::Steps;
use std::alloc::{AllocError, Global};
use std::sync::Arc;
use std::time::Clock;
use survey_conf::Conf;
use survey_link::{Means, Sink, Source};
use tile_pixels::Tile;

/// Reads the tiles of these leaves, one after another; each is decoded before the next is asked for. The steps rise by one for
/// each tile. How many are read is logged, at most once a second.
///
/// # Errors
///
/// As `ask`; `Leaf` for the first leaf that is refused, if and only if one is.
pub(crate) fn read_leaves<R: Clock + Log, S: Source, K: Sink, G>(
    means: &Means<'_, R, G>,
    peer: &mut Peer<'_, '_, '_, S, K>,
    survey: &PeerSurvey,
    numbers: &[u64],
    steps: &mut Steps,
) -> Result<Store<Tile>, MirrorRefusal>
    requires ascending { IsStrictlyIncreasing numbers.now }
    requires cells { All (λ leaf. leaf < cell_count survey.now.conf.shape.top) numbers.now }
    requires size { length numbers.now ≤ 65000 }
    ensures keys { IfOk result (λ tiles. keys_of tiles ≡ numbers.now) }
    ensures fits { IfOk result (FitsLeaves survey.now.conf.shape) }
    ensures reached { IfOk result (λ tiles. Reaches S.Source K.Sink survey.now.pinned (map (leaf_ask survey.now.conf.shape.top) numbers.now)
        (λ bytes rest. AreLeaves survey.now.pinned survey.now.conf bytes (leaf_map tiles) rest) peer.old peer.new) }
    ensures refused { IfErr result (λ refusal. IsRefusedIn S.Source K.Sink survey.now.pinned (map (leaf_ask survey.now.conf.shape.top) numbers.now)
        (λ bytes. RefusesLeaf survey.now.pinned survey.now.conf numbers.now bytes refusal) peer.old peer.new refusal) }
    ensures steps { steps.new ≤ steps.old + length numbers.now }
    ensures steps_never_fall { steps.old ≤ steps.new }
{
    // For the prover: a count fits 64 bits.
    let _count = steps.count();
    let (rt, alloc) = (means.rt, means.alloc);
    let mut tiles = Store::new(alloc);
    let mut progress = Progress::begin(rt, "leaves copied", Some(numbers.len() as u64));
    for number in numbers {
        let request = Request::leaf(leaf_cell(&survey.conf, *number), tiles.len());
        ask(rt, peer, &request, Due::Survey(survey.pinned))?;
        let taken = take_leaf(alloc, peer.body(), &survey.conf, *number, steps, &mut tiles);
        say_refused(rt, &request, &taken);
        taken?;
        progress.part_done(rt);
    }
    Ok(tiles)
}

// The cell of a leaf.
fn leaf_cell(conf: &Conf, number: u64) -> Cell
    requires { number < cell_count conf.now.shape.top }
    ensures order { result.order ≡ conf.now.shape.top }
    ensures npix { result.npix ≡ number }
    ensures at_most { result.order ≤ 11 }
{
    Cell::new(conf.shape().top, number).unwrap()
}

// Puts the tile whose file these bytes are behind those of leaves with lower numbers.
fn take_leaf(
    alloc: Global,
    body: &[u8],
    conf: &Conf,
    number: u64,
    steps: &mut Steps,
    tiles: &mut Store<Tile>,
) -> Result<(), MirrorRefusal>
    requires cell { number < cell_count conf.now.shape.top }
    requires lower { All (λ key. key < number) (keys_of tiles.old) }
    requires fits { FitsLeaves conf.now.shape tiles.old }
    ensures put { OnOk result (PutsLeaf conf.now number body.now tiles.old tiles.new) }
    ensures refused { IfErr result (RefusedBy (WrongLeaf conf.now number) body.now) }
    ensures of_body { IfErr result IsOfBody }
    ensures steps { steps.new ≤ steps.old + 1 }
    ensures steps_never_fall { steps.old ≤ steps.new }
{
    let tile = read_tile(alloc, body, conf, number, steps)?;
    Ok(put_tile(alloc, number, tile, tiles)?)
}

// The tile of a leaf whose file these bytes are.
fn read_tile(
    alloc: Global,
    body: &[u8],
    conf: &Conf,
    number: u64,
    steps: &mut Steps,
) -> Result<Tile, MirrorRefusal>
    requires { number < cell_count conf.now.shape.top }
    ensures shape { IfOk result (λ tile. HasShape tile conf.now.shape.depth conf.now.shape.n) }
    ensures numbers { IfOk result (λ tile. reads conf.now body.now ≡ Ok tile.numbers) }
    ensures refused { IfErr result (RefusedBy (WrongLeaf conf.now number) body.now) }
    ensures of_body { IfErr result IsOfBody }
    ensures steps { steps.new ≤ steps.old + 1 }
    ensures steps_never_fall { steps.old ≤ steps.new }
{
    match decode(alloc, body, conf, steps) {
        Ok(tile) => Ok(tile),
        Err(TileRefusal::Fault(fault)) => {
            let cell = leaf_cell(conf, number);
            Err(MirrorRefusal::Leaf { cell, fault })
        }
        Err(TileRefusal::OutOfMemory) => Err(MirrorRefusal::OutOfMemory),
    }
}

// Puts a tile behind those of leaves with lower numbers.
fn put_tile(alloc: Global, leaf: u64, tile: Tile, tiles: &mut Store<Tile>) -> Result<(), AllocError>
    requires { All (λ key. key < leaf) (keys_of tiles.old) }
    ensures put { OnOk result (tiles.new ≡ tiles.old ++ (leaf, tile) ∷ []) }
    ensures ascending { OnOk result (IsAscending tiles.new) }
{
    tiles.put(leaf, Arc::new(alloc, tile)?)?;
    Ok(())
}
