//! Tiles merged, as a table. The numbers are in the order in which they are stored: the bottom line first.
ghost use Rattle.std.specs.Prelude.{◌≤◌, IfOk, IfSome};
ghost use Rattle.tile_pixels.specs.Tile.{HasShape};

use crate::squares::{B, tile};
use parent_rule::{Combine, Depth, Permit, Steps};
use std::alloc::{AllocError, Global};
use std::test::Fail;
use tile_pixels::Tile;

// The number of 16 bits of a word; `B` is the blank one.
fn number(word: &str) -> i16 {
    word.parse::<i16>().unwrap_or(B)
}

// The numbers in a text.
fn numbers(alloc: Global, text: &str) -> Result<Vec<i16>, AllocError> {
    let mut numbers = Vec::new(alloc);
    for word in text.split_whitespace() {
        numbers.push(number(word))?;
    }
    Ok(numbers)
}

// Whether the tile has the numbers in a text.
fn has(tile: &Tile, text: &str) -> bool {
    let mut words = text.split_whitespace();
    for bytes in tile.raw().chunks_exact(2) {
        match words.next() {
            Some(word) if bytes == number(word).to_be_bytes().as_slice() => {}
            _ => return false,
        }
    }
    words.next().is_none()
}

// A row: the rule, n, the four children, of which one that isn't there is `-`, and the tile above them, a `|` between them.
fn field(row: &str, at: usize) -> &str {
    row.split('|').nth(at).unwrap_or("")
}

fn child(alloc: Global, depth: Depth, n: u8, text: &str) -> Result<Option<Tile>, Fail>
    requires least_n { 1 ≤ n }
    requires greatest_n { n ≤ 9 }
{
    if text == "-" {
        return Ok(None);
    }
    let numbers = numbers(alloc, text)?;
    Ok(Some(tile(alloc, depth, n, &numbers)?))
}

fn children(alloc: Global, depth: Depth, n: u8, row: &str) -> Result<Vec<Option<Tile>>, Fail>
    requires least_n { 1 ≤ n }
    requires greatest_n { n ≤ 9 }
{
    let mut tiles = Vec::new(alloc);
    for at in 2..6 {
        tiles.push(child(alloc, depth, n, field(row, at))?)?;
    }
    Ok(tiles)
}

/// The child of that number, where it is there.
pub(crate) fn at(tiles: &[Option<Tile>], i: usize, depth: Depth, n: u8) -> Option<&Tile>
    ensures { IfSome result (λ tile. HasShape tile.now depth n) }
{
    match tiles.get(i) {
        Some(Some(tile)) => {
            if tile.depth() == depth && tile.n() == n {
                return Some(tile);
            }
            return None;
        }
        _ => return None,
    }
}

/// The tile above the children.
pub(crate) fn merged(
    alloc: Global,
    depth: Depth,
    n: u8,
    tiles: &[Option<Tile>],
) -> Result<Tile, AllocError>
    requires least_n { 1 ≤ n }
    requires greatest_n { n ≤ 9 }
    ensures { IfOk result (λ tile. HasShape tile depth n) }
{
    Tile::merge(
        alloc,
        Permit::issue(2, 5, &mut Steps::new()),
        depth,
        n,
        at(tiles, 0, depth, n),
        at(tiles, 1, depth, n),
        at(tiles, 2, depth, n),
        at(tiles, 3, depth, n),
    )
}

fn depth_of(is_median: bool) -> Option<Depth> {
    let mean = Depth::new(16, i64::from(B))?;
    if is_median {
        Some(mean.with(Combine::Median))
    } else {
        Some(mean)
    }
}

// Whether the tile above the children is the row's.
fn has_tile_above(
    alloc: Global,
    depth: Depth,
    n: u8,
    tiles: &[Option<Tile>],
    row: &str,
) -> Result<bool, Fail>
    requires least_n { 1 ≤ n }
    requires greatest_n { n ≤ 9 }
{
    let above = merged(alloc, depth, n, tiles)?;
    Ok(has(&above, field(row, 6)))
}

// Whether the children of the row are merged into the tile above them.
fn merges(alloc: Global, row: &str) -> Result<bool, Fail> {
    let depth = depth_of(field(row, 0) == "median").ok_or("no depth")?;
    let n = if field(row, 1) == "2" { 2 } else { 1 };
    let tiles = children(alloc, depth, n, row)?;
    has_tile_above(alloc, depth, n, &tiles, row)
}

static ROWS: &str = "\
mean|1|1 2 3 5|-|-|-|B B 3 B
mean|1|-|7 7 7 B|-|-|7 B B B
mean|1|-|-|7 7 7 B|-|B B B 7
mean|1|-|-|-|7 7 7 B|B 7 B B
mean|2|0 1 2 3 4 5 6 7 8 9 10 11 12 13 14 15|100 101 102 103 104 105 106 107 108 109 110 111 112 113 114 115|200 201 202 203 204 205 206 207 208 209 210 211 212 213 214 215|300 301 302 303 304 305 306 307 308 309 310 311 312 313 314 315|103 105 303 305 111 113 311 313 3 5 203 205 11 13 211 213
median|2|0 1 2 3 4 5 6 7 8 9 10 11 12 13 14 15|100 101 102 103 104 105 106 107 108 109 110 111 112 113 114 115|200 201 202 203 204 205 206 207 208 209 210 211 212 213 214 215|300 301 302 303 304 305 306 307 308 309 310 311 312 313 314 315|101 103 301 303 109 111 309 311 1 3 201 203 9 11 209 211
";

#[test]
fn merges_children(rt: HostRuntime) -> Result<(), Fail> {
    for line in ROWS.lines() {
        assert!(rt; merges(rt.alloc(), line)?, "{line}");
    }
    Ok(())
}
