//! Tiles merged from leaves, and beside them what the plain program computes.
ghost use Rattle.std.specs.Prelude.{◌≡◌, ◌≤◌, All, IsTrue};
ghost use Rattle.std.specs.Map.{values_of};
ghost use Rattle.tile_pixels.specs.Tile.{HasShape};

use byteorder::{BigEndian, ByteOrder};
use healpix_nested::cells;
use leaf_probe::{Tiles, merge_up};
use parent_rule::{Depth, Steps};
use pyramid_model::Shape;
use pyramid_model::plain::{Leaves, exists, fits, pixels};
use std::alloc::{AllocError, Global};
use std::collections::BTreeMap;
use std::process::Abort;
use std::test::Fail;
use tile_pixels::Tile;

// Whether the tiles are of that shape.
fn tiles_fit(shape: &Shape, leaves: &Tiles) -> bool
    ensures { IsTrue result → All (λ tile. HasShape tile shape.now.depth shape.now.n) (values_of leaves.now.entries) }
{
    leaves
        .values()
        .all(|tile| tile.depth() == shape.depth && tile.n() == shape.n)
}

// The leaves at or under a cell.
fn leaves_under(shape: &Shape, mut leaves: Tiles, order: u8, npix: u64) -> Tiles
    requires { order ≤ shape.now.top }
{
    let levels = shape.top - order;
    leaves.retain(|leaf, _| *leaf >> (2 * levels) == npix);
    leaves
}

// A tile of 16 bits, 2 by 2 or 4 by 4.
fn tile(alloc: Global, depth: Depth, n: u8, raw: &[u8]) -> Result<Tile, Fail>
    requires { depth.bitpix ≡ 16 }
{
    let mut steps = Steps::new();
    match (n, raw.len()) {
        (1, 8) => Ok(Tile::from_bytes(alloc, raw, depth, 1, &mut steps)?),
        (2, 32) => Ok(Tile::from_bytes(alloc, raw, depth, 2, &mut steps)?),
        _ => Err("no tile".into()),
    }
}

// The numbers of 16 bits in some bytes.
fn numbers(alloc: Global, raw: &[u8]) -> Result<Vec<i64>, Fail> {
    let mut numbers = Vec::new(alloc);
    for place in 0..raw.len() / 2 {
        numbers.push(i64::from(BigEndian::read_i16(&raw[2 * place..])))?;
    }
    Ok(numbers)
}

static FIVE: [(u64, [u8; 8]); 5] = [
    (0, [0, 1, 0, 1, 0, 2, 0, 2]),
    (1, [0, 1, 0, 1, 0, 2, 0, 2]),
    (2, [0, 1, 0, 1, 0, 1, 0, 2]),
    (3, [0, 1, 0, 1, 0, 1, 0, 2]),
    (16, [0, 7, 0, 7, 0, 7, 0, 7]),
];

// Five leaves of 16 bits, 2 by 2.
fn five_leaves(alloc: Global, depth: Depth) -> Result<Tiles, Fail>
    requires { depth.bitpix ≡ 16 }
{
    let mut leaves = BTreeMap::new(alloc);
    for (leaf, raw) in &FIVE {
        leaves.insert(*leaf, tile(alloc, depth, 1, raw)?)?;
    }
    Ok(leaves)
}

// Whether the five leaves, of order 5, are merged into that tile of a cell by so many merges. A tile that doesn't exist has
// no bytes.
fn merges(
    alloc: Global,
    shape: &Shape,
    order: u8,
    npix: u64,
    wanted: &[u8],
    count: u64,
) -> Result<bool, Fail>
    requires depth { shape.now.depth.bitpix ≡ 16 }
    requires order { order ≤ shape.now.top }
{
    let leaves = leaves_under(shape, five_leaves(alloc, shape.depth)?, order, npix);
    if !tiles_fit(shape, &leaves) {
        return Ok(false);
    }
    let mut steps = Steps::new();
    let made = merge_up(alloc, shape, leaves, order, npix, &mut steps)?;
    let is_wanted = match &made {
        Some(tile) => tile.raw() == wanted,
        None => wanted.is_empty(),
    };
    Ok(is_wanted && steps.count() == count)
}

// Each row: a cell's order and number, the bytes of its tile, and how many merges make it.
static CELLS: [(u8, u64, &[u8], u64); 7] = [
    (3, 0, &[128, 0, 128, 0, 0, 2, 128, 0], 2),
    (3, 1, &[128, 0, 128, 0, 0, 7, 128, 0], 2),
    (3, 2, &[], 0),
    (4, 0, &[0, 2, 0, 1, 0, 2, 0, 1], 1),
    (5, 3, &[0, 1, 0, 1, 0, 1, 0, 2], 0),
    (5, 4, &[], 0),
    (0, 0, &[128, 0, 128, 0, 0, 5, 128, 0], 7),
];

#[test]
fn tiles_are_merged_from_the_leaves_under_them(rt: HostRuntime) -> Result<(), Fail> {
    let depth = Depth::new(16, -32768).ok_or("no depth")?;
    let shape = Shape {
        top: 5,
        low: 0,
        n: 1,
        depth,
    };
    for (order, npix, wanted, count) in &CELLS {
        assert!(rt; *order <= 5);
        let went = merges(rt.alloc(), &shape, *order, *npix, *wanted, *count)?;
        assert!(rt; went, "at {order}/{npix}");
    }
    Ok(())
}

static NUMBERS: [i16; 8] = [-32_767, -3, -1, 0, 1, 2, 100, 32_766];

// One of the numbers, or the blank one.
fn made_number(blank: i16, state: &mut u32) -> i16 {
    *state = state.wrapping_mul(1_664_525).wrapping_add(1_013_904_223);
    let chosen = usize::from((*state >> 16) as u16) % 11;
    NUMBERS.get(chosen).copied().unwrap_or(blank)
}

// The bytes of a leaf: numbers out of a row of them, and blank ones.
fn made_leaf(
    alloc: Global,
    count: usize,
    blank: i16,
    state: &mut u32,
) -> Result<Vec<u8>, AllocError> {
    let mut raw = Vec::new(alloc);
    for _place in 0..count {
        let number = made_number(blank, state);
        raw.extend_from_slice(&number.to_be_bytes())?;
    }
    Ok(raw)
}

// Some leaves of a shape: their tiles, and their numbers.
fn made_leaves(alloc: Global, shape: &Shape, blank: i16) -> Result<(Tiles, Leaves), Fail>
    requires { shape.now.depth.bitpix ≡ 16 }
{
    let mut state = 7;
    let mut tiles = BTreeMap::new(alloc);
    let mut leaves = BTreeMap::new(alloc);
    for leaf in [0, 1, 3, 6, 17, 64, 66, 700] {
        let count = if shape.n == 1 { 4 } else { 16 };
        let raw = made_leaf(alloc, count, blank, &mut state)?;
        tiles.insert(leaf, tile(alloc, shape.depth, shape.n, &raw)?)?;
        leaves.insert(leaf, numbers(alloc, &raw)?)?;
    }
    Ok((tiles, leaves))
}

// Merges the leaves up to a cell, and says whether there is a tile, and whether that is the plain program's.
fn merged_as_plain(
    alloc: Global,
    shape: &Shape,
    blank: i16,
    order: u8,
    npix: u64,
) -> Result<(bool, bool), Fail>
    requires depth { shape.now.depth.bitpix ≡ 16 }
    requires order { order ≤ shape.now.top }
{
    let (tiles, leaves) = made_leaves(alloc, shape, blank)?;
    let tiles = leaves_under(shape, tiles, order, npix);
    if order > 20 || npix >= cells(order) || !tiles_fit(shape, &tiles) || !fits(&leaves, shape) {
        return Err("leaves of another shape".into());
    }
    let made = merge_up(alloc, shape, tiles, order, npix, &mut Steps::new())?;
    match made {
        None => Ok((false, !exists(&leaves, shape, order, npix))),
        Some(tile) => {
            let merged = numbers(alloc, tile.raw())?;
            let plain = pixels(alloc, &leaves, shape, order, npix)?;
            let is_plain = merged.as_slice() == plain.as_slice();
            Ok((true, is_plain && exists(&leaves, shape, order, npix)))
        }
    }
}

// Each row: the order of the leaves, n, and the blank number.
static SHAPES: [(u8, u8, i16); 4] = [(3, 1, -32_768), (3, 2, 32_767), (5, 1, 0), (5, 2, -32_768)];

static MERGED: [(u8, u64); 8] = [
    (0, 0),
    (0, 1),
    (1, 0),
    (2, 1),
    (3, 0),
    (3, 1),
    (3, 4),
    (3, 11),
];

// How many of the cells have a tile.
fn count_merged(rt: &impl Abort, alloc: Global, top: u8, n: u8, blank: i16) -> Result<u32, Fail> {
    assert!(rt; 3 <= top && top <= 11 && 1 <= n && n <= 2);
    let depth = Depth::new(16, i64::from(blank)).ok_or("no depth")?;
    let shape = Shape {
        top,
        low: 0,
        n,
        depth,
    };
    let mut count: u32 = 0;
    for (order, npix) in &MERGED {
        assert!(rt; *order <= 3);
        let (is_there, agrees) = merged_as_plain(alloc, &shape, blank, *order, *npix)?;
        assert!(rt; agrees, "tile {npix} of order {order}");
        count = count.saturating_add(u32::from(is_there));
    }
    Ok(count)
}

#[test]
fn merging_makes_what_the_plain_program_computes(rt: HostRuntime) -> Result<(), Fail> {
    let mut count: u32 = 0;
    for (top, n, blank) in &SHAPES {
        count = count.saturating_add(count_merged(&rt, rt.alloc(), *top, *n, *blank)?);
    }
    assert!(rt; count > 12, "only {count} tiles");
    Ok(())
}
