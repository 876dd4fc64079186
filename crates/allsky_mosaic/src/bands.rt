//! The bands of a mosaic: a row of 27 places each, with as many stored lines as a square has.
ghost use Rattle.std.specs.Prelude.{◌≡◌, ◌≢◌, ℕ, ◌+◌, ◌-◌, ◌*◌, ◌/◌, ◌<◌, ◌≤◌, length, IfOk};
ghost use Rattle.pyramid_model.specs.Shape.{PyramidShape, LeafMap};
ghost use Rattle.allsky_mosaic.specs.Mosaic.{side_of, place_pixel};
ghost use Rattle.allsky_mosaic.specs.Tiles.{AreOfForm, IsSurvey};
ghost use Rattle.allsky_mosaic.specs.Cells.{ShowCells, AreBands, band_number};

use crate::square::{blank_lines, side, write_tile};
use leaf_store::Store;
use std::alloc::{AllocError, Global};
use tile_pixels::{Tile, TileForm};

/// How many places stand side by side.
pub const COLUMNS: u64 = 27;

/// How many rows of places there are.
pub const ROWS: u64 = 29;

/// The band of a row of places, counted from the top.
///
/// # Errors
///
/// `AllocError` where there is no memory for it.
pub fn band(
    alloc: Global,
    form: &TileForm,
    tiles: &Store<Tile>,
    row: u64,
) -> Result<Vec<u8>, AllocError>
    requires tiles { AreOfForm form.now tiles.now }
    requires row { row < 29 }
    ensures { IfOk result (λ band. AreBands form.now.depth form.now.n tiles.now row 1 band.items) }
{
    let side = side(form.n);
    let mut band = blank_lines(alloc, form.depth, side, 27 * side)?;
    write_cells(alloc, form, tiles, row, &mut band)?;
    Ok(band)
}

// Writes the tiles of a row of places into its band, which is blank.
fn write_cells(
    alloc: Global,
    form: &TileForm,
    tiles: &Store<Tile>,
    row: u64,
    band: &mut [u8],
) -> Result<(), AllocError>
    requires tiles { AreOfForm form.now tiles.now }
    requires row { row < 29 }
    requires band { length band.old ≡ 27 * side_of form.now.n * side_of form.now.n * (form.now.depth.bitpix / 8) }
    requires blank { (col t column : ℕ) → col < 27 → t < side_of form.now.n → column < side_of form.now.n → band_number form.now.depth.bitpix (side_of form.now.n) band.old col t column ≡ form.now.depth.blank }
    ensures { IfOk result (λ _. (shape : PyramidShape) (leaves : LeafMap) → IsSurvey form.now.depth form.now.n shape → ShowCells shape leaves tiles.now
        → (col t column : ℕ) → col < 27 → t < side_of form.now.n → column < side_of form.now.n
        → band_number form.now.depth.bitpix (side_of form.now.n) band.new col t column ≡ place_pixel shape leaves (row * 27 + col) column (side_of form.now.n - 1 - t)) }
{
    for col in 0..COLUMNS {
        write_cell(alloc, form, tiles, row, col, band)?;
    }
    Ok(())
}

/// Writes the tile of a place into the band of its row, if the tile is there. The other squares stay.
///
/// # Errors
///
/// `AllocError` where there is no memory to halve the tile.
pub fn write_cell(
    alloc: Global,
    form: &TileForm,
    tiles: &Store<Tile>,
    row: u64,
    col: u64,
    band: &mut [u8],
) -> Result<(), AllocError>
    requires tiles { AreOfForm form.now tiles.now }
    requires row { row < 29 }
    requires col { col < 27 }
    requires band { length band.old ≡ 27 * side_of form.now.n * side_of form.now.n * (form.now.depth.bitpix / 8) }
    ensures shown { IfOk result (λ _. (shape : PyramidShape) (leaves : LeafMap) → IsSurvey form.now.depth form.now.n shape → ShowCells shape leaves tiles.now
        → ((t column : ℕ) → t < side_of form.now.n → column < side_of form.now.n → band_number form.now.depth.bitpix (side_of form.now.n) band.old col t column ≡ form.now.depth.blank)
        → (t column : ℕ) → t < side_of form.now.n → column < side_of form.now.n
        → band_number form.now.depth.bitpix (side_of form.now.n) band.new col t column ≡ place_pixel shape leaves (row * 27 + col) column (side_of form.now.n - 1 - t)) }
    ensures kept { (t other column : ℕ) → t < side_of form.now.n → other < 27 → other ≢ col → column < side_of form.now.n
        → band_number form.now.depth.bitpix (side_of form.now.n) band.new other t column ≡ band_number form.now.depth.bitpix (side_of form.now.n) band.old other t column }
{
    match tiles.get(row * COLUMNS + col) {
        None => Ok(()),
        Some(tile) => {
            write_tile(alloc, form.depth, form.n, tile, col as usize, band)?;
            Ok(())
        }
    }
}
