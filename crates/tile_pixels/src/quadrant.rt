//! The quadrants of the tile above four tiles.
ghost use Rattle.std.specs.Prelude.{◌≡◌, ◌-◌, ◌*◌, ◌/◌, ◌^◌, ◌<◌, List, ℤ, Option, length, All};
ghost use Rattle.parent_rule.specs.Depth.{IsNumber};
ghost use Rattle.tile_pixels.specs.Lines.{half_row};
ghost use Rattle.tile_pixels.specs.Quadrants.{WasMerged};
ghost use Rattle.tile_pixels.specs.Stored.{stored_bytes};

use crate::tile::Tile;

/// Where the quadrant of one child comes from.
#[derive(Clone, Copy)]
pub enum Quadrant<'a> {
    /// The parent rule over the child; blank where the child isn't given.
    Merged(Option<&'a Tile>),
    /// The quadrant of that child in this tile, which was merged over the same tile in its place.
    Kept(&'a Tile, usize),
}

/// The quadrants of children 0 to 3.
#[derive(Clone, Copy)]
pub struct Quadrants<'a> {
    pub first: Quadrant<'a>,
    pub second: Quadrant<'a>,
    pub third: Quadrant<'a>,
    pub fourth: Quadrant<'a>,
}

impl Tile {
    /// The stored bytes of a line of quadrant `i`, the line counted from 0 at the quadrant's top.
    pub(crate) fn quadrant_line(&self, i: usize, row: usize) -> &[u8]
        requires i { i < 4 }
        requires row { row < 2 ^ (self.now.n - 1) }
        ensures length { length result.now ≡ 2 ^ (self.now.n - 1) * (self.now.depth.bitpix / 8) }
        ensures bytes { (child : Option (List ℤ)) → WasMerged self.now.depth self.now.n self.now.numbers i child
            → result.now ≡ stored_bytes self.now.depth.bitpix (half_row self.now.depth self.now.n child row) }
        ensures range { (child : Option (List ℤ)) → WasMerged self.now.depth self.now.n self.now.numbers i child
            → All (IsNumber self.now.depth.bitpix) (half_row self.now.depth self.now.n child row) }
    {
        let half = self.side() / 2;
        let line = self.line((i % 2 * half + row) as u32);
        let depth = self.depth();
        // For the prover: the width is one of the four.
        let _bitpix = depth.bitpix();
        let length = half * depth.bytes();
        let start = i / 2 * length;
        &line[start..start + length]
    }
}
