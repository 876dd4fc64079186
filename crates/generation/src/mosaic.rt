//! The file of the all-sky mosaic.
ghost use Rattle.std.specs.Prelude.{◌≡◌, ◌≢◌, ◌*◌, ◌/◌, ◌<◌, ◌≤◌, ◌^◌, [], All, length, option_map, IfOk, IfSome, OnOk};
ghost use Rattle.fits_header.specs.Cards.{whole_blocks};
ghost use Rattle.pyramid_model.specs.Shape.{LeafMap, FitsShape};
ghost use Rattle.tile_pixels.specs.Stored.{numbers_from};
ghost use Rattle.fits_tile.specs.TileFile.{image_file};
ghost use Rattle.allsky_mosaic.specs.Mosaic.{mosaic_count, side_of, width_of, height_of};
ghost use Rattle.allsky_mosaic.specs.Tiles.{AreOfOrder3};
ghost use Rattle.generation.specs.Kept.{tiles_of, pixel_len, file_pixels, ArePixels, IsMosaicFile, KeepsMosaic, WasMosaicFile};

use allsky_mosaic::{patch_in_place, whole};
use fits_header::whole_blocks;
use fits_tile::encode_image;
use leaf_store::Store;
use pyramid_model::Shape;
use std::alloc::{AllocError, Global};
use std::thread::Threads;
use survey_conf::Conf;
use tile_pixels::Tile;

/// The file of the mosaic of these tiles of order 3; `None` where there is no tile.
pub(crate) fn mosaic_file<R: Threads + Sync>(
    rt: &R,
    alloc: Global,
    conf: &Conf,
    tiles: &Store<Tile>,
) -> Result<Option<Vec<u8>>, AllocError>
    requires { AreOfOrder3 conf.now.shape.depth conf.now.shape.n tiles.now }
    ensures { IfOk result (λ found. (leaves : LeafMap) → FitsShape conf.now.shape leaves → tiles.now ≡ tiles_of conf.now.shape leaves 3
        → KeepsMosaic conf.now leaves (option_map (λ file. file.items) found)) }
{
    let shape = conf.shape();
    let pixels = whole(rt, alloc, shape.depth, shape.n, tiles)?;
    file_of(alloc, conf, pixels)
}

/// The same, made from the file of the mosaic that there was before the tiles of the touched cells changed: a copy of it, in
/// which their squares are made anew.
pub(crate) fn patched_file(
    alloc: Global,
    conf: &Conf,
    old: &[u8],
    touched: &[u64],
    tiles: &Store<Tile>,
) -> Result<Option<Vec<u8>>, AllocError>
    requires tiles { AreOfOrder3 conf.now.shape.depth conf.now.shape.n tiles.now }
    requires touched { All (λ cell. cell < 768) touched.now }
    requires old { WasMosaicFile conf.now touched.now tiles.now old.now }
    ensures { IfOk result (λ found. (leaves : LeafMap) → FitsShape conf.now.shape leaves → tiles.now ≡ tiles_of conf.now.shape leaves 3
        → KeepsMosaic conf.now leaves (option_map (λ file. file.items) found)) }
{
    // For the prover: what a description is.
    let _shape = conf.shape();
    if tiles.len() == 0 {
        return Ok(None);
    }
    let mut file = Vec::with_capacity(alloc, old.len())?;
    file.extend_from_slice(old)?;
    patch_pixels(alloc, conf, touched, tiles, &mut file)?;
    Ok(Some(file))
}

// Makes the file of the mosaic that there was before that of these tiles. The pixels come first in the blocks at its end.
fn patch_pixels(
    alloc: Global,
    conf: &Conf,
    touched: &[u64],
    tiles: &Store<Tile>,
    file: &mut [u8],
) -> Result<(), AllocError>
    requires tiles { AreOfOrder3 conf.now.shape.depth conf.now.shape.n tiles.now }
    requires touched { All (λ cell. cell < 768) touched.now }
    requires old { WasMosaicFile conf.now touched.now tiles.now file.old }
    ensures { OnOk result ((leaves : LeafMap) → leaves ≢ [] → FitsShape conf.now.shape leaves → tiles.now ≡ tiles_of conf.now.shape leaves 3
        → IsMosaicFile conf.now leaves file.new) }
{
    let shape = conf.shape();
    let len = pixel_bytes(shape);
    let start = file.len() - whole_blocks(len);
    let pixels = &mut file[start..start + len];
    patch_in_place(alloc, shape.depth, shape.n, touched, tiles, pixels)?;
    Ok(())
}

// How many bytes the pixels of the mosaic of a survey of that shape are.
fn pixel_bytes(shape: Shape) -> usize
    ensures len { result ≡ mosaic_count shape.n * (shape.depth.bitpix / 8) }
    ensures at_most { result < 2 ^ 32 }
{
    let side = mosaic_side(shape.n) as usize;
    27 * side * (29 * side) * shape.depth.bytes()
}

// The file of the mosaic with these pixels, where there are any.
fn file_of(
    alloc: Global,
    conf: &Conf,
    pixels: Option<Vec<u8>>,
) -> Result<Option<Vec<u8>>, AllocError>
    requires { IfSome pixels (λ raw. length raw.items ≡ pixel_len conf.now) }
    ensures { IfOk result (λ found. (leaves : LeafMap) → ArePixels conf.now leaves (option_map (λ raw. raw.items) pixels)
        → KeepsMosaic conf.now leaves (option_map (λ file. file.items) found)) }
{
    match pixels {
        Some(pixels) => {
            let file = image_of(alloc, conf, &pixels)?;
            Ok(Some(file))
        }
        None => Ok(None),
    }
}

// The file of the mosaic with these pixels.
fn image_of(alloc: Global, conf: &Conf, pixels: &[u8]) -> Result<Vec<u8>, AllocError>
    requires { length pixels.now ≡ pixel_len conf.now }
    ensures file { IfOk result (λ file. file.items ≡ image_file conf.now (width_of conf.now.shape.n) (height_of conf.now.shape.n)
        (numbers_from conf.now.shape.depth.bitpix (mosaic_count conf.now.shape.n) pixels.now)) }
    ensures long { IfOk result (λ file. whole_blocks (pixel_len conf.now) ≤ length file.items) }
    ensures pixels { IfOk result (λ file. file_pixels conf.now file.items ≡ pixels.now) }
{
    let side = mosaic_side(conf.shape().n);
    encode_image(alloc, conf, 27 * side, 29 * side, pixels)
}

// How many columns and lines a cell of the mosaic has: those of a tile, and at most 64.
fn mosaic_side(n: u8) -> u32
    ensures side { result ≡ side_of n }
    ensures at_most { result ≤ 64 }
{
    1 << n.min(6)
}
