//! A tile's square of numbers, which can be halved.
ghost use Rattle.std.specs.Prelude.{◌≡◌, ℕ, ◌+◌, ◌*◌, ◌^◌, ◌<◌, ◌≤◌, length, drop, slice_index_or, pos, IfOk, All};
ghost use Rattle.parent_rule.specs.Depth.{IsNumber};
ghost use Rattle.parent_rule.specs.Combined.{combined, square_at};
ghost use Rattle.tile_pixels.specs.Tile.{pixel_in};
ghost use Rattle.tile_pixels.specs.Block.{block_number, block_square};

use crate::halved::combine_rows;
use crate::row::read_row;
use crate::tile::Tile;
use parent_rule::Depth;
use std::alloc::{AllocError, Global};
use std::marker::Model;

/// A square of numbers in line order from the top. The server merges tiles without it, by `Tile::merge_quadrants`: it is for
/// those who compare.
#[derive(Drop)]
pub struct Block {
    levels: u8,
    numbers: Vec<i64>,
}

impl Model for Block {
    ghost use Rattle.std.specs.Prelude.{◌≡◌, ◌^◌, ◌≤◌, length};
    ghost use Rattle.tile_pixels.specs.Block.{PixelBlock};

    ghost Value = { PixelBlock };

    ghost view = { λ b. record { levels = b.levels; numbers = b.numbers.items } };

    ghost invariant = { λ b. (b.levels ≤ 9) × (length b.numbers.items ≡ 4 ^ b.levels) };
}

impl Tile {
    /// The pixels, lines from the top.
    ///
    /// # Errors
    ///
    /// `AllocError` where there is no memory for the numbers.
    pub fn block(&self, alloc: Global) -> Result<Block, AllocError>
        ensures side { IfOk result (λ block. block.levels ≡ self.now.n) }
        ensures numbers { IfOk result (λ block. (column line : ℕ) → column < 2 ^ self.now.n → line < 2 ^ self.now.n
            → block_number block column line ≡ pixel_in self.now column line) }
        ensures range { IfOk result (λ block. All (IsNumber self.now.depth.bitpix) block.numbers) }
    {
        let levels = self.n();
        let side = self.side();
        let mut numbers = vec![in alloc; 0; side * side]?;
        read_lines(self, &mut numbers);
        Ok(Block { levels, numbers })
    }
}

impl Block {
    /// How many columns and lines it has.
    pub fn side(&self) -> u32
        ensures { result ≡ 2 ^ self.now.levels }
    {
        1 << self.levels
    }

    /// The number in that column and line, counted from 0 at the top left.
    pub fn get(&self, col: u32, row: u32) -> i64
        requires col { col < 2 ^ self.now.levels }
        requires row { row < 2 ^ self.now.levels }
        ensures { result ≡ block_number self.now col row }
    {
        self.numbers[row as usize * self.side() as usize + col as usize]
    }

    /// The numbers of a line, counted from 0 at the top.
    pub fn line(&self, line: u32) -> &[i64]
        requires { line < 2 ^ self.now.levels }
        ensures numbers { (column : ℕ) → column < 2 ^ self.now.levels → slice_index_or result.now column (pos 0) ≡ block_number self.now column line }
        ensures length { length result.now ≡ 2 ^ self.now.levels }
        ensures range { (bits : ℕ) → All (IsNumber bits) self.now.numbers → All (IsNumber bits) result.now }
    {
        let side = self.side() as usize;
        let start = line as usize * side;
        &self.numbers[start..start + side]
    }

    /// Halves the side: each number becomes the parent rule of its four.
    pub fn halve(&mut self, depth: Depth)
        requires side { 1 ≤ self.old.levels }
        requires numbers { All (IsNumber depth.bitpix) self.old.numbers }
        ensures side { self.new.levels + 1 ≡ self.old.levels }
        ensures numbers { (column line : ℕ) → column < 2 ^ self.new.levels → line < 2 ^ self.new.levels
            → block_number self.new column line ≡ combined depth.combine depth.blank (block_square self.old column line) }
        ensures range { All (IsNumber depth.bitpix) self.new.numbers }
    {
        let side = self.side() as usize / 2;
        halve_lines(&mut self.numbers, side, depth);
        self.numbers.truncate(side * side);
        self.levels -= 1;
    }
}

// The lines of a tile, one after the other.
fn read_lines(tile: &Tile, numbers: &mut [i64])
    requires { length numbers.old ≡ 4 ^ tile.now.n }
    ensures numbers { (column line : ℕ) → column < 2 ^ tile.now.n → line < 2 ^ tile.now.n
        → slice_index_or numbers.new (line * 2 ^ tile.now.n + column) (pos 0) ≡ pixel_in tile.now column line }
    ensures range { All (IsNumber tile.now.depth.bitpix) numbers.new }
{
    let depth = tile.depth();
    let side = tile.side();
    for line in 0..side {
        let start = line * side;
        read_row(
            depth,
            tile.line(line as u32),
            &mut numbers[start..start + side],
        );
    }
}

// Each two lines of twice as many columns become one line, from the front.
fn halve_lines(numbers: &mut [i64], side: usize, depth: Depth)
    requires side { side ≤ 256 }
    requires length { length numbers.old ≡ 4 * (side * side) }
    requires numbers { All (IsNumber depth.bitpix) numbers.old }
    ensures numbers { (column line : ℕ) → column < side → line < side
        → slice_index_or numbers.new (line * side + column) (pos 0)
        ≡ combined depth.combine depth.blank (square_at (drop (4 * side * line) numbers.old) (drop (4 * side * line + 2 * side) numbers.old) column) }
    ensures range { All (IsNumber depth.bitpix) numbers.new }
{
    let mut row = [0; 256];
    let row = &mut row[..side];
    for line in 0..side {
        halve_line(numbers, line, depth, row);
    }
}

// The two lines above that line of the halved block become that line, and no number behind it changes.
fn halve_line(numbers: &mut [i64], line: usize, depth: Depth, row: &mut [i64])
    requires side { length row.old ≤ 256 }
    requires line { line < length row.old }
    requires length { length numbers.old ≡ 4 * (length row.old * length row.old) }
    requires numbers { All (IsNumber depth.bitpix) numbers.old }
    ensures written { (column : ℕ) → column < length row.old
        → slice_index_or numbers.new (line * length row.old + column) (pos 0)
        ≡ combined depth.combine depth.blank (square_at (drop (4 * length row.old * line) numbers.old) (drop (4 * length row.old * line + 2 * length row.old) numbers.old) column) }
    ensures before { (place : ℕ) → place < line * length row.old
        → slice_index_or numbers.new place (pos 0) ≡ slice_index_or numbers.old place (pos 0) }
    ensures behind { drop ((line + 1) * length row.old) numbers.new ≡ drop ((line + 1) * length row.old) numbers.old }
    ensures range { All (IsNumber depth.bitpix) numbers.new }
{
    let side = row.len();
    let start = 4 * side * line;
    let middle = start + 2 * side;
    combine_rows(
        &numbers[start..middle],
        &numbers[middle..middle + 2 * side],
        depth,
        row,
    );
    numbers[line * side..(line + 1) * side].copy_from_slice(row);
}
