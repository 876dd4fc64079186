//! The files of a copy: they are built anew of the leaves, and compared with what the peer sent.
ghost use Rattle.std.specs.Prelude.{◌≡◌, ◌≢◌, ◌⊎◌, ◌↔◌, ◌≤◌, ◌<◌, ◌+◌, [], ◌∷◌, length, Some, IsTrue, IfOk, IfErr, OnOk};
ghost use Rattle.std.specs.FinMap.{get};
ghost use Rattle.std.specs.Option.{option_eq};
ghost use Rattle.std.specs.Str.{bytes_eq};
ghost use Rattle.fits_header.specs.Cards.{whole_blocks};
ghost use Rattle.fits_tile.specs.TileFile.{data_len};
ghost use Rattle.tile_path.specs.Spelling.{spelling};
ghost use Rattle.tile_path.specs.declared.path.Path.TheVariants.{Allsky, Properties};
ghost use Rattle.mirror_frame.specs.Peer.{body_of};
ghost use Rattle.mirror_frame.specs.declared.ask.Ask.TheVariants.{File};
ghost use Rattle.mirror_frame.specs.declared.due.Due.TheVariants.{Survey as OfSurvey};
ghost use Rattle.edit_journal.specs.Leaves.{FitsLeaves};
ghost use Rattle.generation.specs.Files.{leaf_map, file_of, files_in};
ghost use Rattle.generation.specs.Steps.{tiles_above};
ghost use Rattle.hips_mirror.specs.Mirror.{RefusesReply};
ghost use Rattle.hips_mirror.specs.Stages.{TellsMosaic, Reaches, IsRefusedIn, asks_of_mosaic};

use crate::asking::ask;
use crate::description::PeerSurvey;
use crate::refusal::MirrorRefusal;
use crate::request::Request;
use generation::{Body, Generation};
use leaf_store::Store;
use log::Log;
use mirror_frame::{Due, Peer};
use parent_rule::Steps;
use shelf_io::first_generation;
use std::alloc::{AllocError, Global};
use std::thread::Threads;
use survey_link::{Gate, Means, Sink, Source};
use tile_path::Path;
use tile_path::laws::spellings_differ;
use tile_pixels::Tile;

/// Reads the mosaic, where there is a leaf: its body is then the peer's. `leaves` is how many leaves there are.
///
/// # Errors
///
/// As `ask`.
pub(crate) fn read_mosaic<R: Log, S: Source, K: Sink>(
    rt: &R,
    peer: &mut Peer<'_, '_, '_, S, K>,
    pinned: u32,
    leaves: usize,
) -> Result<(), MirrorRefusal>
    requires { leaves ≤ 65000 }
    ensures reached { OnOk result (Reaches S.Source K.Sink pinned (asks_of_mosaic leaves) (TellsMosaic pinned leaves (body_of peer.new)) peer.old peer.new) }
    ensures refused { IfErr result (λ refusal. (0 < leaves) × IsRefusedIn S.Source K.Sink pinned (File Allsky ∷ [])
        (λ bytes. RefusesReply (OfSurvey pinned) (3 + leaves) bytes refusal) peer.old peer.new refusal) }
{
    if leaves == 0 {
        return Ok(());
    }
    match ask(rt, peer, &Request::mosaic(leaves), Due::Survey(pinned)) {
        Ok(_) => Ok(()),
        Err(refusal) => Err(refusal),
    }
}

/// The files of the leaves, where they have the properties that the peer sent. The steps rise by the number of tiles that exist
/// above the leaves, at most.
///
/// # Errors
///
/// `Differs` with the path of the properties if and only if these differ; `OutOfMemory`.
pub(crate) fn build<R: Threads + Sync, G: Gate + Sync>(
    means: &Means<'_, R, G>,
    survey: PeerSurvey,
    leaves: Store<Tile>,
    steps: &mut Steps,
) -> Result<Generation, MirrorRefusal>
    requires { FitsLeaves survey.conf.shape leaves }
    ensures made { IfOk result (λ made. made ≡ record { conf = survey.conf; prefix = 0; leaves = leaves }) }
    ensures counted { OnOk result (survey.counted ≡ Some (length leaves)) }
    ensures refused { IfErr result (λ refusal.
        ((refusal ≡ MirrorRefusal.Differs Properties) × (survey.counted ≢ Some (length leaves))) ⊎ (refusal ≡ MirrorRefusal.OutOfMemory)) }
    ensures steps { steps.new ≤ steps.old + tiles_above survey.conf.shape (leaf_map leaves) }
    ensures steps_never_fall { steps.old ≤ steps.new }
{
    if survey.counted != Some(leaves.len() as u64) {
        return Err(MirrorRefusal::Differs {
            path: Path::Properties,
        });
    }
    Ok(first_generation(means, survey.conf, leaves, steps)?)
}

/// Compares the mosaic of the generation with the one that the peer sent, where there is a leaf.
///
/// # Errors
///
/// `Differs` with the path of the mosaic if and only if there is a leaf and they differ; `OutOfMemory`.
pub(crate) fn compare_mosaic(
    alloc: Global,
    generation: &Generation,
    mosaic: &[u8],
) -> Result<(), MirrorRefusal>
    ensures same { OnOk result (0 < length generation.now.leaves → mosaic.now ≡ file_of generation.now.conf (leaf_map generation.now.leaves) Allsky) }
    ensures refused { IfErr result (λ refusal. (0 < length generation.now.leaves)
        × (((refusal ≡ MirrorRefusal.Differs Allsky) × (mosaic.now ≢ file_of generation.now.conf (leaf_map generation.now.leaves) Allsky))
        ⊎ (refusal ≡ MirrorRefusal.OutOfMemory))) }
{
    if generation.leaves().len() == 0 {
        return Ok(());
    }
    match has_mosaic(alloc, generation, mosaic) {
        Ok(true) => Ok(()),
        Ok(false) => Err(MirrorRefusal::Differs { path: Path::Allsky }),
        Err(AllocError) => Err(MirrorRefusal::OutOfMemory),
    }
}

// Whether the mosaic of the generation, which has a leaf, has these bytes.
fn has_mosaic(alloc: Global, generation: &Generation, mosaic: &[u8]) -> Result<bool, AllocError>
    requires { 0 < length generation.now.leaves }
    ensures { IfOk result (λ has. IsTrue has ↔ (mosaic.now ≡ file_of generation.now.conf (leaf_map generation.now.leaves) Allsky)) }
{
    // For the prover: what the leaves are, and that no two paths are spelled alike.
    let _leaves = generation.leaves();
    let _conf = generation.conf();
    spellings_differ();
    let mut room = Vec::new(alloc);
    room.resize(generation.room(), 0)?;
    Ok(is_mosaic(generation, mosaic, &mut room))
}

// Whether these bytes are the file of the generation's mosaic.
fn is_mosaic(generation: &Generation, mosaic: &[u8], room: &mut [u8]) -> bool
    requires { 2880 + whole_blocks (data_len generation.now.conf.shape) ≤ length room.old }
    ensures { result ≡ option_eq bytes_eq (Some mosaic.now) (get (files_in generation.now) (spelling Allsky)) }
{
    match generation.file(&Path::Allsky, room) {
        Some(Body::Written(count)) => mosaic == &room[..count],
        Some(Body::Kept(file)) => mosaic == file,
        None => false,
    }
}
