//! The squares of a mosaic: a tile of order 3 each, with at most 64 columns and lines, bottom line first.
ghost use Rattle.std.specs.Prelude.{◌≡◌, ◌≢◌, ℕ, ◌+◌, ◌-◌, ◌*◌, ◌/◌, ◌^◌, ◌<◌, ◌≤◌, length, IfOk};
ghost use Rattle.pyramid_model.specs.Shape.{PyramidShape, LeafMap};
ghost use Rattle.tile_pixels.specs.Tile.{HasShape, pixel_in};
ghost use Rattle.allsky_mosaic.specs.Mosaic.{cell_levels, side_of};
ghost use Rattle.allsky_mosaic.specs.Tiles.{IsSurvey};
ghost use Rattle.tile_pixels.specs.Stored.{stored_at};
ghost use Rattle.allsky_mosaic.specs.Cells.{ShowsSquare, square_number, number_over, band_number};

use parent_rule::Depth;
use std::alloc::{AllocError, Global};
use tile_pixels::{Tile, store_row_above, write_row};

/// The columns and lines of a square, for tiles of `2^n` of them.
pub fn side(n: u8) -> usize
    ensures side { result ≡ side_of n }
    ensures some { 0 < result }
    ensures at_most { result ≤ 64 }
{
    1 << n.min(6)
}

/// Writes a tile of order 3 into a band, as square `col` of its 27. The others stay.
///
/// # Errors
///
/// `AllocError` where there is no memory to halve the tile.
pub fn write_tile(
    alloc: Global,
    depth: Depth,
    n: u8,
    tile: &Tile,
    col: usize,
    band: &mut [u8],
) -> Result<(), AllocError>
    requires least_n { 1 ≤ n }
    requires greatest_n { n ≤ 9 }
    requires shape { HasShape tile.now depth n }
    requires col { col < 27 }
    requires band { length band.old ≡ 27 * side_of n * side_of n * (depth.bitpix / 8) }
    ensures shown { IfOk result (λ _. (shape : PyramidShape) (leaves : LeafMap) (cell : ℕ) → IsSurvey depth n shape
        → ShowsSquare shape leaves cell n (pixel_in tile.now)
        → ShowsSquare shape leaves cell (cell_levels n) (λ column line. band_number depth.bitpix (side_of n) band.new col (side_of n - 1 - line) column)) }
    ensures kept { (t other column : ℕ) → t < side_of n → other < 27 → other ≢ col → column < side_of n
        → band_number depth.bitpix (side_of n) band.new other t column ≡ band_number depth.bitpix (side_of n) band.old other t column }
{
    if n <= 6 {
        write_square(depth, side(n), col, tile.raw(), band);
        return Ok(());
    }
    let square = halved(alloc, depth, n, tile)?;
    write_square(depth, 64, col, &square, band);
    Ok(())
}

/// Writes a square into a band, as square `col` of its 27: its stored lines in order, each as a part of a line of the
/// band. The others stay.
pub fn write_square(depth: Depth, side: usize, col: usize, square: &[u8], band: &mut [u8])
    requires some { 0 < side }
    requires at_most { side ≤ 64 }
    requires col { col < 27 }
    requires square { length square.now ≡ side * side * (depth.bitpix / 8) }
    requires band { length band.old ≡ 27 * side * side * (depth.bitpix / 8) }
    ensures written { (t column : ℕ) → t < side → column < side
        → band_number depth.bitpix side band.new col t column ≡ stored_at depth.bitpix square.now (t * side + column) }
    ensures kept { (t other column : ℕ) → t < side → other < 27 → other ≢ col → column < side
        → band_number depth.bitpix side band.new other t column ≡ band_number depth.bitpix side band.old other t column }
{
    let line = side * depth.bytes();
    for t in 0..side {
        let at = (t * 27 + col) * line;
        band[at..at + line].copy_from_slice(&square[t * line..t * line + line]);
    }
}

// The square of a larger tile, halved until it has 64 columns and lines.
fn halved(alloc: Global, depth: Depth, n: u8, tile: &Tile) -> Result<Vec<u8>, AllocError>
    requires least_n { 7 ≤ n }
    requires greatest_n { n ≤ 9 }
    requires shape { HasShape tile.now depth n }
    ensures length { IfOk result (λ square. length square.items ≡ 64 * 64 * (depth.bitpix / 8)) }
    ensures shown { IfOk result (λ square. (shape : PyramidShape) (leaves : LeafMap) (cell : ℕ) → IsSurvey depth n shape
        → ShowsSquare shape leaves cell n (pixel_in tile.now) → ShowsSquare shape leaves cell 6 (square_number depth.bitpix 64 square.items)) }
{
    let mut square = half_of(alloc, depth, power(n - 1), tile.raw())?;
    for levels in (6..n - 1).rev() {
        square = half_of(alloc, depth, power(levels), &square)?;
    }
    Ok(square)
}

// The columns and lines of a square of so many levels.
fn power(levels: u8) -> usize
    requires { levels ≤ 8 }
    ensures power { result ≡ 2 ^ levels }
    ensures at_most { result ≤ 256 }
{
    1 << levels
}

// The square of half as many columns and lines, which has `side` of them: each of its numbers is combined of four.
fn half_of(alloc: Global, depth: Depth, side: usize, square: &[u8]) -> Result<Vec<u8>, AllocError>
    requires at_most { side ≤ 256 }
    requires square { length square.now ≡ 2 * side * (2 * side) * (depth.bitpix / 8) }
    ensures length { IfOk result (λ half. length half.items ≡ side * side * (depth.bitpix / 8)) }
    ensures numbers { IfOk result (λ half. (column line : ℕ) → column < side → line < side
        → square_number depth.bitpix side half.items column line ≡ number_over depth side square.now column line) }
{
    let mut half = vec![in alloc; 0; side * side * depth.bytes()]?;
    halve_lines(depth, side, square, &mut half);
    Ok(half)
}

// The same, into bytes that are there.
fn halve_lines(depth: Depth, side: usize, square: &[u8], half: &mut [u8])
    requires at_most { side ≤ 256 }
    requires square { length square.now ≡ 2 * side * (2 * side) * (depth.bitpix / 8) }
    requires half { length half.old ≡ side * side * (depth.bitpix / 8) }
    ensures { (column line : ℕ) → column < side → line < side
        → square_number depth.bitpix side half.new column line ≡ number_over depth side square.now column line }
{
    let mut numbers = [0; 1280];
    let numbers = &mut numbers[..5 * side];
    let length = side * depth.bytes();
    for t in 0..side {
        let start = t * length;
        let line = &mut half[start..start + length];
        halve_line(depth, side, square, t, numbers, line);
    }
}

// Stores line `t` of the half, counted from the bottom: that above lines `2 * t` and `2 * t + 1` of the square.
fn halve_line(
    depth: Depth,
    side: usize,
    square: &[u8],
    t: usize,
    numbers: &mut [i64],
    line: &mut [u8],
)
    requires at_most { side ≤ 256 }
    requires square { length square.now ≡ 2 * side * (2 * side) * (depth.bitpix / 8) }
    requires t { t < side }
    requires numbers { length numbers.old ≡ 5 * side }
    requires line { length line.old ≡ side * (depth.bitpix / 8) }
    ensures { (column : ℕ) → column < side → stored_at depth.bitpix line.new column ≡ number_over depth side square.now column (side - 1 - t) }
{
    // For the prover: what a blank number is.
    let _blank = depth.blank();
    let length = 2 * line.len();
    let start = 2 * t * length;
    let middle = start + length;
    let bottom = &square[start..middle];
    let top = &square[middle..middle + length];
    store_row_above(depth, top, bottom, side, numbers, line);
}

/// A number of blank numbers as a file stores them, given by so many lines of a square.
///
/// # Errors
///
/// `AllocError` where there is no memory for them.
pub fn blank_lines(
    alloc: Global,
    depth: Depth,
    side: usize,
    lines: usize,
) -> Result<Vec<u8>, AllocError>
    requires some { 0 < side }
    requires at_most { side ≤ 64 }
    requires lines { lines ≤ 2 ^ 20 }
    ensures length { IfOk result (λ raw. length raw.items ≡ lines * side * (depth.bitpix / 8)) }
    ensures blank { IfOk result (λ raw. (place : ℕ) → place < lines * side → stored_at depth.bitpix raw.items place ≡ depth.blank) }
{
    let numbers = vec![in alloc; depth.blank(); side]?;
    let mut line = vec![in alloc; 0; side * depth.bytes()]?;
    write_row(depth, &numbers, &mut line);
    let mut raw = Vec::with_capacity(alloc, lines * line.len())?;
    for _ in 0..lines {
        raw.extend_from_slice(&line)?;
    }
    Ok(raw)
}
