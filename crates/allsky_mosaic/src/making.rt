//! The mosaic, made of all tiles.
ghost use Rattle.std.specs.Prelude.{◌≡◌, ℕ, ◌-◌, ◌<◌, ◌≤◌, ◌↔◌, [], vec_len, slice_index_or, IfOk, IfSome, IsNone};
ghost use Rattle.pyramid_model.specs.Shape.{PyramidShape, LeafMap};
ghost use Rattle.allsky_mosaic.specs.Mosaic.{side_of};
ghost use Rattle.allsky_mosaic.specs.Tiles.{AreOfForm, AreOfOrder3, IsSurvey, IsMosaic, ShowsCell, order_3, leaf_map};
ghost use Rattle.allsky_mosaic.specs.Cells.{AreBands};

use crate::bands::{ROWS, band};
use leaf_store::Store;
use parent_rule::Depth;
use std::alloc::{AllocError, Global};
use std::thread::{Threads, available_parallelism, for_each_mut};
use tile_pixels::{Tile, TileForm};

// Tiles have at least this many pixels where they are halved or copied by more than one thread: it takes many times as long as
// to start the threads.
const PIXELS_OF_THREADS: usize = 1 << 20;

/// The mosaic of the tiles of order 3, as the stored bytes of its image, bottom line first; `None` if and only if there is
/// no tile. It is `27a` columns wide and `29a` lines high, where `a` is the width of a tile and at most 64; a wider tile is
/// halved by the depth's way to combine until it has 64. Where the tiles are those of order 3 of a survey, it is the
/// mosaic of the survey.
///
/// # Errors
///
/// `AllocError` where there is no memory for the mosaic.
pub fn whole<R: Threads + Sync>(
    rt: &R,
    alloc: Global,
    depth: Depth,
    n: u8,
    tiles: &Store<Tile>,
) -> Result<Option<Vec<u8>>, AllocError>
    requires least_n { 1 ≤ n }
    requires greatest_n { n ≤ 9 }
    requires tiles { AreOfOrder3 depth n tiles.now }
    ensures none { IfOk result (λ found. IsNone found ↔ (tiles.now ≡ [])) }
    ensures mosaic { IfOk result (λ found. IfSome found (λ raw. IsMosaic depth n (order_3 depth n) (leaf_map tiles.now) raw.items)) }
    ensures survey { IfOk result (λ found. IfSome found (λ raw. (shape : PyramidShape) (leaves : LeafMap) → IsSurvey depth n shape
        → ((cell : ℕ) → cell < 768 → ShowsCell shape leaves tiles.now cell) → IsMosaic depth n shape leaves raw.items)) }
{
    if tiles.len() == 0 {
        return Ok(None);
    }
    let raw = all_bands(rt, alloc, &TileForm { depth, n }, tiles)?;
    Ok(Some(raw))
}

// All bands, the lowest first.
fn all_bands<R: Threads + Sync>(
    rt: &R,
    alloc: Global,
    form: &TileForm,
    tiles: &Store<Tile>,
) -> Result<Vec<u8>, AllocError>
    requires tiles { AreOfForm form.now tiles.now }
    ensures { IfOk result (λ raw. AreBands form.now.depth form.now.n tiles.now 28 29 raw.items) }
{
    let threads = threads_for(rt, tiles.len(), form.n);
    if threads > 1 {
        bands_by_many(rt, alloc, form, tiles, threads)
    } else {
        bands(alloc, form, tiles)
    }
}

// How many threads some tiles repay: one, or as many as there are processors.
fn threads_for(rt: &impl Threads, tiles: usize, n: u8) -> usize
    requires { n ≤ 9 }
{
    if tiles.saturating_mul(1 << (2 * n)) < PIXELS_OF_THREADS {
        return 1;
    }
    match available_parallelism(rt) {
        Ok(count) => count.get(),
        Err(_) => 2,
    }
}

// The bands one after the other.
fn bands(alloc: Global, form: &TileForm, tiles: &Store<Tile>) -> Result<Vec<u8>, AllocError>
    requires tiles { AreOfForm form.now tiles.now }
    ensures { IfOk result (λ raw. AreBands form.now.depth form.now.n tiles.now 28 29 raw.items) }
{
    let mut raw = Vec::new(alloc);
    for up in 0..ROWS {
        let next = band(alloc, form, tiles, ROWS - 1 - up)?;
        raw.extend_from_slice(&next)?;
    }
    Ok(raw)
}

// The bands, made by so many threads.
fn bands_by_many<R: Threads + Sync>(
    rt: &R,
    alloc: Global,
    form: &TileForm,
    tiles: &Store<Tile>,
    threads: usize,
) -> Result<Vec<u8>, AllocError>
    requires threads { 0 < threads }
    requires tiles { AreOfForm form.now tiles.now }
    ensures { IfOk result (λ raw. AreBands form.now.depth form.now.n tiles.now 28 29 raw.items) }
{
    let made = each_band(rt, alloc, form, tiles, threads)?;
    let mut raw = Vec::new(alloc);
    for next in &made {
        match next {
            Ok(band) => raw.extend_from_slice(band)?,
            Err(_) => return Err(AllocError),
        }
    }
    Ok(raw)
}

// Each band, the lowest first, or that there was no memory for it. A thread makes a run of them.
fn each_band<R: Threads + Sync>(
    rt: &R,
    alloc: Global,
    form: &TileForm,
    tiles: &Store<Tile>,
    threads: usize,
) -> Result<Vec<Result<Vec<u8>, AllocError>>, AllocError>
    requires threads { 0 < threads }
    requires tiles { AreOfForm form.now tiles.now }
    ensures count { IfOk result (λ made. vec_len made ≡ 29) }
    ensures bands { IfOk result (λ made. (up : ℕ) (d : _) → up < 29 → IfOk (slice_index_or made.items up d) (λ band. AreBands form.now.depth form.now.n tiles.now (28 - up) 1 band.items)) }
{
    let mut made = no_bands(alloc)?;
    let make = |up: usize, made: &mut Result<Vec<u8>, AllocError>|
        requires { AreOfForm form.now tiles.now × (up < 29) }
        ensures { IfOk made.exit.now (λ band. AreBands form.entry.now.depth form.entry.now.n tiles.entry.now (28 - up) 1 band.items) }
    { *made = band(alloc, form, tiles, ROWS - 1 - up as u64) };
    for_each_mut(rt, &mut made, threads, &make);
    Ok(made)
}

// A place for each band, which is still empty.
fn no_bands(alloc: Global) -> Result<Vec<Result<Vec<u8>, AllocError>>, AllocError>
    ensures { IfOk result (λ made. vec_len made ≡ 29) }
{
    let mut made = Vec::with_capacity(alloc, ROWS as usize)?;
    for _ in 0..ROWS {
        made.push(Ok(Vec::new(alloc)))?;
    }
    Ok(made)
}
