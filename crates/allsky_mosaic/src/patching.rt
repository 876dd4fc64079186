//! A mosaic after some tiles of order 3 have changed.
ghost use Rattle.std.specs.Prelude.{◌≡◌, ◌≢◌, ℕ, ◌+◌, ◌-◌, ◌*◌, ◌/◌, ◌%◌, ◌<◌, ◌≤◌, ◌↔◌, [], length, All, Contains, IfOk, OnOk, IfSome, IsNone};
ghost use Rattle.pyramid_model.specs.Shape.{PyramidShape, LeafMap};
ghost use Rattle.allsky_mosaic.specs.Mosaic.{side_of, place_pixel};
ghost use Rattle.allsky_mosaic.specs.Tiles.{AreOfForm, AreOfOrder3, IsSurvey, IsMosaic, ShowsCell, order_3, leaf_map};
ghost use Rattle.allsky_mosaic.specs.Patch.{WasMosaic};
ghost use Rattle.allsky_mosaic.specs.Cells.{IsBlank, ShowCells, ShowsPlace, band_number, number_in_place};

use crate::bands::{COLUMNS, ROWS, write_cell};
use crate::square::{blank_lines, side, write_square};
use leaf_store::Store;
use parent_rule::Depth;
use std::alloc::{AllocError, Global};
use tile_pixels::{Tile, TileForm};

/// The mosaic of the tiles of order 3, as `whole` makes it, by the mosaic that there was before some of them changed: the
/// squares of the touched cells are made anew, and all others are copied. `touched` has each cell whose tile has changed, in
/// whatever order, and may have others. `None` if and only if there is no tile now. The server calls `patch_in_place`: this is
/// for who has the old mosaic lent.
///
/// # Errors
///
/// `AllocError` where there is no memory for the mosaic.
pub fn patch(
    alloc: Global,
    depth: Depth,
    n: u8,
    old: &[u8],
    touched: &[u64],
    tiles: &Store<Tile>,
) -> Result<Option<Vec<u8>>, AllocError>
    requires least_n { 1 ≤ n }
    requires greatest_n { n ≤ 9 }
    requires touched { All (λ cell. cell < 768) touched.now }
    requires tiles { AreOfOrder3 depth n tiles.now }
    requires old { WasMosaic depth n touched.now tiles.now old.now }
    ensures none { IfOk result (λ found. IsNone found ↔ (tiles.now ≡ [])) }
    ensures mosaic { IfOk result (λ found. IfSome found (λ raw. IsMosaic depth n (order_3 depth n) (leaf_map tiles.now) raw.items)) }
    ensures survey { IfOk result (λ found. IfSome found (λ raw. (shape : PyramidShape) (leaves : LeafMap) → IsSurvey depth n shape
        → ((cell : ℕ) → cell < 768 → ShowsCell shape leaves tiles.now cell) → IsMosaic depth n shape leaves raw.items)) }
{
    if tiles.len() == 0 {
        return Ok(None);
    }
    let mut raw = Vec::with_capacity(alloc, old.len())?;
    raw.extend_from_slice(old)?;
    patch_in_place(alloc, depth, n, touched, tiles, &mut raw)?;
    Ok(Some(raw))
}

/// Makes the mosaic that there was before some tiles of order 3 changed that of the tiles that there are now, as `patch` does,
/// in its own place. It is the mosaic of no tiles too. After an error it is neither.
///
/// # Errors
///
/// `AllocError` where there is no memory for a square.
pub fn patch_in_place(
    alloc: Global,
    depth: Depth,
    n: u8,
    touched: &[u64],
    tiles: &Store<Tile>,
    raw: &mut [u8],
) -> Result<(), AllocError>
    requires least_n { 1 ≤ n }
    requires greatest_n { n ≤ 9 }
    requires touched { All (λ cell. cell < 768) touched.now }
    requires tiles { AreOfOrder3 depth n tiles.now }
    requires old { WasMosaic depth n touched.now tiles.now raw.old }
    ensures mosaic { OnOk result (IsMosaic depth n (order_3 depth n) (leaf_map tiles.now) raw.new) }
    ensures survey { OnOk result ((shape : PyramidShape) (leaves : LeafMap) → IsSurvey depth n shape
        → ((cell : ℕ) → cell < 768 → ShowsCell shape leaves tiles.now cell) → IsMosaic depth n shape leaves raw.new) }
{
    let side = side(n);
    let blank = blank_lines(alloc, depth, side, side)?;
    let form = TileForm { depth, n };
    patch_cells(alloc, &form, tiles, touched, &blank, raw)?;
    Ok(())
}

// Makes the squares of the touched cells anew.
fn patch_cells(
    alloc: Global,
    form: &TileForm,
    tiles: &Store<Tile>,
    touched: &[u64],
    blank: &[u8],
    raw: &mut [u8],
) -> Result<(), AllocError>
    requires tiles { AreOfForm form.now tiles.now }
    requires touched { All (λ cell. cell < 768) touched.now }
    requires blank { IsBlank form.now blank.now }
    requires raw { length raw.old ≡ 29 * (27 * side_of form.now.n * side_of form.now.n) * (form.now.depth.bitpix / 8) }
    ensures { IfOk result (λ _. (shape : PyramidShape) (leaves : LeafMap) → IsSurvey form.now.depth form.now.n shape → ShowCells shape leaves tiles.now
        → ((place : ℕ) → place < 783 → (Contains touched.now place → ⊥) → ShowsPlace form.now.depth form.now.n shape leaves place raw.old)
        → (place : ℕ) → place < 783 → ShowsPlace form.now.depth form.now.n shape leaves place raw.new) }
{
    for cell in touched {
        patch_cell(alloc, form, tiles, *cell, blank, raw)?;
    }
    Ok(())
}

// Makes the square of a cell anew: of its tile, or blank. The others stay.
fn patch_cell(
    alloc: Global,
    form: &TileForm,
    tiles: &Store<Tile>,
    cell: u64,
    blank: &[u8],
    raw: &mut [u8],
) -> Result<(), AllocError>
    requires tiles { AreOfForm form.now tiles.now }
    requires cell { cell < 768 }
    requires blank { IsBlank form.now blank.now }
    requires raw { length raw.old ≡ 29 * (27 * side_of form.now.n * side_of form.now.n) * (form.now.depth.bitpix / 8) }
    ensures shown { IfOk result (λ _. (shape : PyramidShape) (leaves : LeafMap) → IsSurvey form.now.depth form.now.n shape → ShowCells shape leaves tiles.now
        → ShowsPlace form.now.depth form.now.n shape leaves cell raw.new) }
    ensures kept { IfOk result (λ _. (place t column : ℕ) → place < 783 → place ≢ cell → t < side_of form.now.n → column < side_of form.now.n
        → number_in_place form.now.depth.bitpix (side_of form.now.n) raw.new place t column ≡ number_in_place form.now.depth.bitpix (side_of form.now.n) raw.old place t column) }
{
    let length = raw.len() / ROWS as usize;
    let start = (ROWS - 1 - cell / COLUMNS) as usize * length;
    let band = &mut raw[start..start + length];
    patch_band(alloc, form, tiles, cell, blank, band)?;
    Ok(())
}

// The same within the band of the cell's row of places.
fn patch_band(
    alloc: Global,
    form: &TileForm,
    tiles: &Store<Tile>,
    cell: u64,
    blank: &[u8],
    band: &mut [u8],
) -> Result<(), AllocError>
    requires tiles { AreOfForm form.now tiles.now }
    requires cell { cell < 768 }
    requires blank { IsBlank form.now blank.now }
    requires band { length band.old ≡ 27 * side_of form.now.n * side_of form.now.n * (form.now.depth.bitpix / 8) }
    ensures shown { IfOk result (λ _. (shape : PyramidShape) (leaves : LeafMap) → IsSurvey form.now.depth form.now.n shape → ShowCells shape leaves tiles.now
        → (t column : ℕ) → t < side_of form.now.n → column < side_of form.now.n
        → band_number form.now.depth.bitpix (side_of form.now.n) band.new (cell % 27) t column ≡ place_pixel shape leaves cell column (side_of form.now.n - 1 - t)) }
    ensures kept { (t other column : ℕ) → t < side_of form.now.n → other < 27 → other ≢ cell % 27 → column < side_of form.now.n
        → band_number form.now.depth.bitpix (side_of form.now.n) band.new other t column ≡ band_number form.now.depth.bitpix (side_of form.now.n) band.old other t column }
{
    let col = cell % COLUMNS;
    write_square(form.depth, side(form.n), col as usize, blank, band);
    write_cell(alloc, form, tiles, cell / COLUMNS, col, band)?;
    Ok(())
}
