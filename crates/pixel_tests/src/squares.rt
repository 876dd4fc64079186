//! Tiles, most of numbers of 16 bits, which the tests of what is made of tiles use.
ghost use Rattle.std.specs.Prelude.{◌≤◌, IfOk};
ghost use Rattle.tile_pixels.specs.Tile.{HasShape};

use parent_rule::{Depth, Steps};
use std::alloc::Global;
use std::test::Fail;
use tile_pixels::Tile;

/// The blank number.
pub(crate) const B: i16 = -32768;

/// A tile of these numbers, in the order in which they are stored: the bottom line first.
pub(crate) fn tile(alloc: Global, depth: Depth, n: u8, numbers: &[i16]) -> Result<Tile, Fail>
    requires least_n { 1 ≤ n }
    requires greatest_n { n ≤ 9 }
    ensures { IfOk result (λ tile. HasShape tile depth n) }
{
    let mut bytes = Vec::new(alloc);
    for number in numbers {
        bytes.extend_from_slice(&number.to_be_bytes())?;
    }
    of_bytes(alloc, depth, n, &bytes)
}

/// A tile of these stored bytes.
pub(crate) fn of_bytes(alloc: Global, depth: Depth, n: u8, bytes: &[u8]) -> Result<Tile, Fail>
    requires least_n { 1 ≤ n }
    requires greatest_n { n ≤ 9 }
    ensures { IfOk result (λ tile. HasShape tile depth n) }
{
    if bytes.len() != 4usize.pow(u32::from(n)) * depth.bytes() {
        return Err(Fail::from("not the bytes of a tile"));
    }
    Ok(Tile::from_bytes(alloc, bytes, depth, n, &mut Steps::new())?)
}
