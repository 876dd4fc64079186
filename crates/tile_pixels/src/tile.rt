//! A tile, by the bytes that a FITS file stores.
ghost use Rattle.std.specs.Prelude.{◌≡◌, ℕ, ◌+◌, ◌*◌, ◌/◌, ◌^◌, ◌<◌, ◌≤◌, length, drop, IfOk};
ghost use Rattle.parent_rule.specs.Permit.{one_more};
ghost use Rattle.tile_pixels.specs.Stored.{number_from, numbers_from, stored_bytes};
ghost use Rattle.tile_pixels.specs.Tile.{IsTile, pixel_in};

use crate::row::read_row;
use parent_rule::{Depth, Steps};
use std::alloc::{AllocError, Global};
use std::marker::Model;

/// A square of pixels: what its numbers are, `n` of its `2^n` columns and lines (1 to 9), and the bytes of its `4^n`
/// numbers as a FITS file stores them, bottom line first. Only `from_bytes` and `merge` make one.
#[derive(Drop)]
pub struct Tile {
    depth: Depth,
    n: u8,
    raw: Vec<u8>,
}

impl Model for Tile {
    ghost use Rattle.std.specs.Prelude.{◌≡◌, ◌*◌, ◌/◌, ◌^◌, length, IsTrue};
    ghost use Rattle.parent_rule.specs.Depth.{is_bitpix};
    ghost use Rattle.tile_pixels.specs.Stored.{numbers_from, stored_bytes};
    ghost use Rattle.tile_pixels.specs.Tile.{PixelTile, IsTile};

    ghost Value = { PixelTile };

    ghost view = { λ t. record {
      depth = t.depth;
      n = t.n;
      numbers = numbers_from t.depth.bitpix (4 ^ t.n) t.raw.items;
    } };

    ghost invariant = { λ t.
        IsTile t.depth t.n (numbers_from t.depth.bitpix (4 ^ t.n) t.raw.items)
        × IsTrue (is_bitpix t.depth.bitpix)
        × (length t.raw.items ≡ 4 ^ t.n * (t.depth.bitpix / 8))
        × (stored_bytes t.depth.bitpix (numbers_from t.depth.bitpix (4 ^ t.n) t.raw.items) ≡ t.raw.items) };
}

impl Tile {
    /// The tile of these stored bytes. The steps rise by one, and at a refusal by at most one.
    ///
    /// # Errors
    ///
    /// `AllocError` where there is no memory for the bytes.
    pub fn from_bytes(
        alloc: Global,
        raw: &[u8],
        depth: Depth,
        n: u8,
        steps: &mut Steps,
    ) -> Result<Tile, AllocError>
        requires least_n { 1 ≤ n }
        requires greatest_n { n ≤ 9 }
        requires raw { length raw.now ≡ 4 ^ n * (depth.bitpix / 8) }
        ensures tile { IfOk result (λ tile. tile ≡ record { depth = depth; n = n; numbers = numbers_from depth.bitpix (4 ^ n) raw.now }) }
        ensures bytes { IfOk result (λ tile. stored_bytes depth.bitpix tile.numbers ≡ raw.now) }
        ensures numbers { IfOk result (λ tile. IsTile tile.depth tile.n tile.numbers) }
        ensures steps { steps.new ≡ one_more steps.old }
        ensures never_falls { steps.old ≤ steps.new }
    {
        steps.tick();
        Ok(Tile::of_raw(raw.to_vec(alloc)?, depth, n))
    }

    /// The tile that takes these stored bytes over.
    pub(crate) fn of_raw(raw: Vec<u8>, depth: Depth, n: u8) -> Tile
        requires least_n { 1 ≤ n }
        requires greatest_n { n ≤ 9 }
        requires raw { length raw.items ≡ 4 ^ n * (depth.bitpix / 8) }
        ensures tile { result ≡ record { depth = depth; n = n; numbers = numbers_from depth.bitpix (4 ^ n) raw.items } }
        ensures bytes { stored_bytes depth.bitpix result.numbers ≡ raw.items }
    {
        // For the prover: the width is one of the four.
        let _bitpix = depth.bitpix();
        Tile { depth, n, raw }
    }

    /// What the numbers are.
    pub fn depth(&self) -> Depth
        ensures depth { result ≡ self.now.depth }
        ensures tile { IsTile self.now.depth self.now.n self.now.numbers }
    {
        self.depth
    }

    /// `n` of the `2^n` columns and lines.
    pub fn n(&self) -> u8
        ensures n { result ≡ self.now.n }
        ensures tile { IsTile self.now.depth self.now.n self.now.numbers }
    {
        self.n
    }

    /// The stored bytes.
    pub fn raw(&self) -> &[u8]
        ensures numbers { numbers_from self.now.depth.bitpix (4 ^ self.now.n) result.now ≡ self.now.numbers }
        ensures bytes { result.now ≡ stored_bytes self.now.depth.bitpix self.now.numbers }
        ensures length { length result.now ≡ 4 ^ self.now.n * (self.now.depth.bitpix / 8) }
        ensures tile { IsTile self.now.depth self.now.n self.now.numbers }
    {
        &self.raw
    }

    /// The number of the pixel in that column and line, counted from 0 at the top left.
    pub fn get(&self, col: u32, row: u32) -> i64
        requires col { col < 2 ^ self.now.n }
        requires row { row < 2 ^ self.now.n }
        ensures { result ≡ pixel_in self.now col row }
    {
        let width = self.depth.bytes();
        let start = col as usize * width;
        let mut number = [0];
        read_row(
            self.depth,
            &self.line(row)[start..start + width],
            &mut number,
        );
        number[0]
    }

    /// The stored bytes of a line, counted from 0 at the top.
    pub(crate) fn line(&self, line: u32) -> &[u8]
        requires { line < 2 ^ self.now.n }
        ensures numbers { (column : ℕ) → column < 2 ^ self.now.n
            → number_from self.now.depth.bitpix (drop (column * (self.now.depth.bitpix / 8)) result.now) ≡ pixel_in self.now column line }
        ensures length { length result.now ≡ 2 ^ self.now.n * (self.now.depth.bitpix / 8) }
        ensures tile { IsTile self.now.depth self.now.n self.now.numbers }
    {
        let side = self.side();
        let length = side * self.depth.bytes();
        let start = (side - 1 - line as usize) * length;
        &self.raw[start..start + length]
    }

    /// How many columns and lines it has.
    pub(crate) fn side(&self) -> usize
        ensures side { result ≡ 2 ^ self.now.n }
        ensures at_most { result ≤ 512 }
    {
        1 << self.n
    }
}
