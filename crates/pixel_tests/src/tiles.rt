//! Tiles of each depth, and their blocks halved.
ghost use Rattle.std.specs.Prelude.{◌≡◌, IfOk};

use parent_rule::{Depth, Steps};
use std::alloc::Global;
use std::test::Fail;
use tile_pixels::{Block, Tile};

// The tile of two columns and two lines that has these bytes.
fn two_by_two(alloc: Global, raw: &[u8], depth: Depth, steps: &mut Steps) -> Result<Tile, Fail>
    ensures depth { IfOk result (λ tile. tile.depth ≡ depth) }
{
    if raw.len() != 4 * depth.bytes() {
        return Err("not four numbers".into());
    }
    Ok(Tile::from_bytes(alloc, raw, depth, 1, steps)?)
}

// The bits of a number, the blank one, the bytes of a tile, its numbers, in the order in which they are stored: the bottom
// line first; and their mean.
type TileRow = (u8, i64, &'static [u8], [i64; 4], i64);

static TILES: [TileRow; 5] = [
    (8, 7, &[0x00, 0xff, 0x80, 0x01], [0, 255, 128, 1], 96),
    (
        16,
        7,
        &[0xff, 0xff, 0x80, 0x00, 0x00, 0x01, 0x7f, 0xff],
        [-1, -32768, 1, 32767],
        0,
    ),
    (
        32,
        7,
        &[
            0xff, 0xff, 0xff, 0xfe, 0x80, 0x00, 0x00, 0x00, 0x00, 0x00, 0x00, 0x01, 0x7f, 0xff,
            0xff, 0xff,
        ],
        [-2, -2147483648, 1, 2147483647],
        0,
    ),
    (
        64,
        7,
        &[
            0xff, 0xff, 0xff, 0xff, 0xff, 0xff, 0xff, 0xfe, 0x80, 0x00, 0x00, 0x00, 0x00, 0x00,
            0x00, 0x00, 0x00, 0x00, 0x00, 0x00, 0x00, 0x00, 0x00, 0x01, 0x7f, 0xff, 0xff, 0xff,
            0xff, 0xff, 0xff, 0xff,
        ],
        [-2, i64::MIN, 1, i64::MAX],
        0,
    ),
    (16, -32768, &[0, 1, 0, 2, 0, 3, 0, 5], [1, 2, 3, 5], 3),
];

// Whether these are the numbers of the tile, and of its block.
fn have(tile: &Tile, block: &Block, stored: &[i64; 4]) -> bool {
    if tile.n() != 1 || block.side() != 2 {
        return false;
    }
    let [bottom_left, bottom_right, top_left, top_right] = *stored;
    tile.get(0, 1) == bottom_left
        && tile.get(1, 1) == bottom_right
        && tile.get(0, 0) == top_left
        && tile.get(1, 0) == top_right
        && block.get(0, 1) == bottom_left
        && block.get(1, 1) == bottom_right
        && block.get(0, 0) == top_left
        && block.get(1, 0) == top_right
}

// Whether these are the numbers of the tile and of its block, and that is their mean.
fn is_read(alloc: Global, tile: &Tile, stored: &[i64; 4], mean: i64) -> Result<bool, Fail> {
    if tile.n() != 1 {
        return Ok(false);
    }
    let mut block = tile.block(alloc)?;
    let has_numbers = have(tile, &block, stored);
    block.halve(tile.depth());
    Ok(has_numbers && block.side() == 1 && block.get(0, 0) == mean)
}

// Whether the bytes of a row are read as the tile that it says.
fn reads(alloc: Global, (bitpix, blank, raw, stored, mean): &TileRow) -> Result<bool, Fail> {
    let depth = Depth::new(*bitpix, *blank).ok_or("no depth")?;
    let mut steps = Steps::new();
    let tile = two_by_two(alloc, raw, depth, &mut steps)?;
    if steps.count() != 1 || tile.depth() != depth || tile.raw() != *raw {
        return Ok(false);
    }
    is_read(alloc, &tile, stored, *mean)
}

#[test]
fn reads_each_depth_and_halves_blocks(rt: HostRuntime) -> Result<(), Fail> {
    for row in &TILES {
        assert!(rt; reads(rt.alloc(), row)?, "{row:?}");
    }
    Ok(())
}
