//! Tiles of which some quadrants are kept, beside the merge of all four children.
ghost use Rattle.std.specs.Prelude.{◌≡◌, ℕ, ◌<◌, ◌≤◌, IfSome};
ghost use Rattle.parent_rule.specs.Depth.{PixelDepth};
ghost use Rattle.tile_pixels.specs.Tile.{HasShape};
ghost use Rattle.tile_pixels.specs.Quadrants.{Fits};

use crate::merges::{at, merged};
use crate::squares::of_bytes;
use parent_rule::{Combine, Depth, Permit, Steps};
use std::alloc::{AllocError, Global};
use std::process::Abort;
use std::test::Fail;
use tile_pixels::{Quadrant, Quadrants, Tile};

// The last bytes of a number, as many as are stored.
fn stored(number: &[u8; 8], depth: Depth) -> &[u8] {
    &number[8usize.saturating_sub(depth.bytes())..]
}

// The bytes of a tile; about an eighth of its numbers are blank.
fn bytes_of(alloc: Global, depth: Depth, n: u8, seed: u32) -> Result<Vec<u8>, AllocError>
    requires { n ≤ 9 }
{
    let mut random = seed;
    let mut bytes = Vec::new(alloc);
    for _pixel in 0..1u32 << (2 * n) {
        random = random.wrapping_mul(1664525).wrapping_add(1013904223);
        let number = if random >> 29 == 0 {
            depth.blank()
        } else {
            i64::from(random).wrapping_mul(-7046029254386353131)
        };
        bytes.extend_from_slice(stored(&number.to_be_bytes(), depth))?;
    }
    Ok(bytes)
}

// A tile; none for the seed 0.
fn tile_of(alloc: Global, depth: Depth, n: u8, seed: u32) -> Result<Option<Tile>, Fail>
    requires least_n { 1 ≤ n }
    requires greatest_n { n ≤ 9 }
{
    if seed == 0 {
        return Ok(None);
    }
    let bytes = bytes_of(alloc, depth, n, seed)?;
    let tile = of_bytes(alloc, depth, n, &bytes)?;
    Ok(Some(tile))
}

// The seeds of each child before and after a change.
static SEEDS: [(u32, u32); 4] = [(1, 5), (2, 0), (3, 7), (0, 8)];

// The four children, of which those of a set of bits have changed.
fn children(alloc: Global, depth: Depth, n: u8, set: u32) -> Result<Vec<Option<Tile>>, Fail>
    requires least_n { 1 ≤ n }
    requires greatest_n { n ≤ 9 }
{
    let mut tiles = Vec::new(alloc);
    let mut left = set;
    for (before, after) in &SEEDS {
        let seed = if left % 2 == 0 { *before } else { *after };
        tiles.push(tile_of(alloc, depth, n, seed)?)?;
        left /= 2;
    }
    Ok(tiles)
}

// The quadrant of child `i`, merged where it is in the set, and else that of the tile before.
fn quadrant<'a>(before: &'a Tile, now: Option<&'a Tile>, set: u32, i: usize) -> Quadrant<'a>
    requires { i < 4 }
    ensures { (depth : PixelDepth) (n : ℕ) → HasShape before.entry.now depth n → IfSome now.entry (λ tile. HasShape tile.now depth n) → Fits depth n result }
{
    if (set >> i) % 2 == 0 {
        return Quadrant::Kept(before, i);
    }
    Quadrant::Merged(now)
}

// The tile above the children, made of that before some of them changed.
fn changed(
    alloc: Global,
    depth: Depth,
    n: u8,
    before: &Tile,
    tiles: &[Option<Tile>],
    set: u32,
) -> Result<Tile, AllocError>
    requires least_n { 1 ≤ n }
    requires greatest_n { n ≤ 9 }
    requires before { HasShape before.now depth n }
{
    let quadrants = Quadrants {
        first: quadrant(before, at(tiles, 0, depth, n), set, 0),
        second: quadrant(before, at(tiles, 1, depth, n), set, 1),
        third: quadrant(before, at(tiles, 2, depth, n), set, 2),
        fourth: quadrant(before, at(tiles, 3, depth, n), set, 3),
    };
    let permit = Permit::issue(2, 5, &mut Steps::new());
    Tile::merge_quadrants(alloc, permit, depth, n, quadrants)
}

// Each set of children changes.
fn check_changes(rt: &impl Abort, alloc: Global, depth: Depth, n: u8) -> Result<(), Fail>
    requires least_n { 1 ≤ n }
    requires greatest_n { n ≤ 9 }
{
    let before = merged(alloc, depth, n, &children(alloc, depth, n, 0)?)?;
    for set in 0..16 {
        let tiles = children(alloc, depth, n, set)?;
        let whole = merged(alloc, depth, n, &tiles)?;
        let made = changed(alloc, depth, n, &before, &tiles, set)?;
        assert!(rt;
            made.raw() == whole.raw(),
            "{depth:?}, n {n}, changes {set}"
        );
    }
    Ok(())
}

// Each row: the bits of a number, the blank one, and n.
static TILES: [(u8, i64, u8); 8] = [
    (8, 255, 1),
    (8, 7, 5),
    (16, -32768, 1),
    (16, 0, 4),
    (32, -2147483648, 2),
    (32, -5, 5),
    (64, i64::MIN, 1),
    (64, 3, 3),
];

#[test]
fn quadrants_are_kept(rt: HostRuntime) -> Result<(), Fail> {
    for (bitpix, blank, n) in &TILES {
        let mean = Depth::new(*bitpix, *blank).ok_or("no depth")?;
        let n = *n;
        assert!(rt; 1 <= n && n <= 9);
        check_changes(&rt, rt.alloc(), mean, n)?;
        check_changes(&rt, rt.alloc(), mean.with(Combine::Median), n)?;
    }
    Ok(())
}
