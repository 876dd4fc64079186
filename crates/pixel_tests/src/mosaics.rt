//! Mosaics of small tiles. Numbers are in stored order: the bottom line first.
ghost use Rattle.std.specs.Prelude.{◌≡◌, ◌≢◌, ℕ, ◌<◌, ◌≤◌, IfOk};
ghost use Rattle.leaf_store.specs.Store.{value_at};
ghost use Rattle.tile_pixels.specs.Tile.{HasShape};
ghost use Rattle.allsky_mosaic.specs.Tiles.{AreOfOrder3, IsMosaic, order_3, leaf_map};

use crate::squares::{self, B};
use allsky_mosaic::{patch, whole};
use leaf_store::Store;
use parent_rule::Depth;
use std::alloc::{AllocError, Global};
use std::process::Abort;
use std::sync::Arc;
use std::test::Fail;
use std::thread::Threads;
use tile_pixels::Tile;

// Appends a line of twice as many numbers, which repeats two.
fn push_line(numbers: &mut Vec<i16>, pairs: u32, left: i16, right: i16) -> Result<(), AllocError> {
    for _ in 0..pairs {
        numbers.push(left)?;
        numbers.push(right)?;
    }
    Ok(())
}

// A tile of `2^n` columns and lines that repeats four numbers: top left, top right, bottom left, bottom right.
fn tile(alloc: Global, depth: Depth, n: u8, four: &[i16; 4]) -> Result<Arc<Tile>, Fail>
    requires least_n { 1 ≤ n }
    requires greatest_n { n ≤ 9 }
    ensures { IfOk result (λ tile. HasShape tile.value depth n) }
{
    let [top_left, top_right, bottom_left, bottom_right] = *four;
    let half = 1u32 << (n - 1);
    let mut numbers = Vec::new(alloc);
    for _ in 0..half {
        push_line(&mut numbers, half, bottom_left, bottom_right)?;
        push_line(&mut numbers, half, top_left, top_right)?;
    }
    let tile = squares::tile(alloc, depth, n, &numbers)?;
    Ok(Arc::new(alloc, tile)?)
}

// Tiles of order 3.
fn tiles(alloc: Global, depth: Depth, n: u8, cells: &[(u64, [i16; 4])]) -> Result<Store<Tile>, Fail>
    requires least_n { 1 ≤ n }
    requires greatest_n { n ≤ 9 }
    ensures { IfOk result (λ tiles. AreOfOrder3 depth n tiles) }
{
    let mut store = Store::new(alloc);
    for (cell, four) in cells {
        store.put(cell % 768, tile(alloc, depth, n, four)?)?;
    }
    Ok(store)
}

fn depth() -> Option<Depth> {
    Depth::new(16, i64::from(B))
}

// The number at a place, blank where there is none.
fn wanted_at(numbers: &[(usize, i16)], place: usize) -> i16 {
    for (at, number) in numbers {
        if *at == place {
            return *number;
        }
    }
    B
}

// Whether the mosaic has these numbers at these places, and is blank elsewhere.
fn has_numbers(raw: &[u8], numbers: &[(usize, i16)]) -> bool {
    for (place, bytes) in raw.chunks_exact(2).enumerate() {
        if bytes != wanted_at(numbers, place).to_be_bytes().as_slice() {
            return false;
        }
    }
    raw.len() == 2 * 54 * 58
}

// Tiles have a mosaic.
fn mosaic<R: Threads + Sync>(
    rt: &R,
    alloc: Global,
    depth: Depth,
    n: u8,
    tiles: &Store<Tile>,
) -> Result<Vec<u8>, Fail>
    requires least_n { 1 ≤ n }
    requires greatest_n { n ≤ 9 }
    requires tiles { AreOfOrder3 depth n tiles.now }
    ensures { IfOk result (λ raw. IsMosaic depth n (order_3 depth n) (leaf_map tiles.now) raw.items) }
{
    match whole(rt, alloc, depth, n, tiles)? {
        Some(raw) => Ok(raw),
        None => Err(Fail::from("no mosaic")),
    }
}

// The mosaic of these tiles of `2^n` columns.
fn mosaic_of<R: Threads + Sync>(
    rt: &R,
    alloc: Global,
    n: u8,
    cells: &[(u64, [i16; 4])],
) -> Result<Vec<u8>, Fail> {
    let depth = depth().ok_or("no depth")?;
    if n < 1 || n > 9 {
        return Err("no such tiles".into());
    }
    let tiles = tiles(alloc, depth, n, cells)?;
    mosaic(rt, alloc, depth, n, &tiles)
}

// Whether the mosaic of these tiles of two columns has these numbers at these places.
fn shows<R: Threads + Sync>(
    rt: &R,
    alloc: Global,
    cells: &[(u64, [i16; 4])],
    numbers: &[(usize, i16)],
) -> Result<bool, Fail> {
    let raw = mosaic_of(rt, alloc, 1, cells)?;
    Ok(has_numbers(&raw, numbers))
}

// Whether no tile has no mosaic.
fn shows_none<R: Threads + Sync>(rt: &R, alloc: Global) -> Result<bool, Fail> {
    let depth = depth().ok_or("no depth")?;
    Ok(whole(rt, alloc, depth, 1, &Store::new(alloc))?.is_none())
}

static LAST: [(u64, [i16; 4]); 1] = [(767, [9, B, B, B])];

static SEVERAL: [(u64, [i16; 4]); 4] = [
    (0, [1, 2, 3, 4]),
    (26, [5, 6, 7, 8]),
    (27, [10, 11, 12, 13]),
    (767, [14, 15, 16, 17]),
];

// Where the numbers of several are.
static PLACES: [(usize, i16); 16] = [
    (3078, 1),
    (3079, 2),
    (3024, 3),
    (3025, 4),
    (3130, 5),
    (3131, 6),
    (3076, 7),
    (3077, 8),
    (2970, 10),
    (2971, 11),
    (2916, 12),
    (2917, 13),
    (76, 14),
    (77, 15),
    (22, 16),
    (23, 17),
];

#[test]
fn shows_tiles_of_two_columns(rt: HostRuntime) -> Result<(), Fail> {
    assert!(rt; shows_none(&rt, rt.alloc())?, "no tile");
    assert!(rt; shows(&rt, rt.alloc(), &LAST, &[(76, 9)])?, "the last");
    assert!(rt; shows(&rt, rt.alloc(), &SEVERAL, &PLACES)?, "several");
    Ok(())
}

// The number at a place of a mosaic of 1,728 columns.
fn number(raw: &[u8], column: usize, up: usize) -> Option<i16> {
    let start = up
        .saturating_mul(1728)
        .saturating_add(column)
        .saturating_mul(2);
    match raw.get(start..start.saturating_add(2)) {
        Some([high, low]) => Some(i16::from_be_bytes([*high, *low])),
        _ => None,
    }
}

// A column, a line from the bottom, and the number there.
type Place = (usize, usize, i16);

// Whether the mosaic of these tiles of `2^n` columns, which are shown with 64, has these numbers.
fn shows_large<R: Threads + Sync>(
    rt: &R,
    alloc: Global,
    (n, cells, places): &LargeRow,
) -> Result<bool, Fail> {
    let raw = mosaic_of(rt, alloc, *n, cells)?;
    Ok(has_places(&raw, places))
}

fn has_places(raw: &[u8], places: &[Place]) -> bool {
    for (column, up, wanted) in places {
        if number(raw, *column, *up) != Some(*wanted) {
            return false;
        }
    }
    raw.len() == 2 * 1728 * 1856
}

// Cell 28 is in row 1 and column 1: columns 64 to 127, lines 1,728 to 1,791 from the bottom. Places within it, which have
// number 3, and outside it.
const ALL_3: [Place; 11] = [
    (64, 1728, 3),
    (127, 1728, 3),
    (64, 1791, 3),
    (127, 1791, 3),
    (90, 1750, 3),
    (63, 1728, B),
    (128, 1728, B),
    (64, 1727, B),
    (64, 1792, B),
    (0, 0, B),
    (1727, 1855, B),
];

// The same with number 5.
const ALL_5: [Place; 11] = [
    (64, 1728, 5),
    (127, 1728, 5),
    (64, 1791, 5),
    (127, 1791, 5),
    (90, 1750, 5),
    (63, 1728, B),
    (128, 1728, B),
    (64, 1727, B),
    (64, 1792, B),
    (0, 0, B),
    (1727, 1855, B),
];

// Cells 0, 28, 500 and 767 of 64 columns and lines are in rows 0, 1, 18 and 28 and in columns 0, 1, 14 and 11. The mean of -1
// and -2 is rounded up.
const CORNERS: [Place; 12] = [
    (0, 1792, 3),
    (63, 1855, 3),
    (64, 1792, B),
    (64, 1728, 5),
    (127, 1791, 5),
    (0, 1791, B),
    (896, 640, -1),
    (959, 703, -1),
    (896, 639, B),
    (704, 0, 7),
    (767, 63, 7),
    (768, 0, B),
];

// n of tiles of `2^n` columns, the tiles, and numbers of their mosaic.
type LargeRow = (u8, &'static [(u64, [i16; 4])], &'static [Place]);

static LARGE: [LargeRow; 4] = [
    (6, &[(28, [3, 3, 3, 3])], &ALL_3),
    (7, &[(28, [1, 2, 3, 5])], &ALL_3),
    (8, &[(28, [4, B, B, 6])], &ALL_5),
    (
        9,
        &[
            (0, [1, 2, 3, 5]),
            (28, [4, B, B, 6]),
            (500, [-1, -2, B, B]),
            (767, [7, 7, 7, B]),
        ],
        &CORNERS,
    ),
];

#[test]
fn halves_larger_tiles(rt: HostRuntime) -> Result<(), Fail> {
    for row in &LARGE {
        assert!(rt; shows_large(&rt, rt.alloc(), row)?, "n {}", row.0);
    }
    Ok(())
}

// Puts a tile of two columns, or takes it out.
fn change(
    alloc: Global,
    depth: Depth,
    tiles: &mut Store<Tile>,
    cell: u64,
    four: Option<[i16; 4]>,
) -> Result<(), Fail>
    requires cell { cell < 768 }
    requires tiles { AreOfOrder3 depth 1 tiles.old }
    ensures tiles { IfOk result (λ _. AreOfOrder3 depth 1 tiles.new) }
    ensures others { (other : ℕ) → other ≢ cell → value_at other tiles.new ≡ value_at other tiles.old }
{
    match four {
        Some(four) => {
            let tile = tile(alloc, depth, 1, &four)?;
            tiles.put(cell, tile)?;
            Ok(())
        }
        None => {
            tiles.remove(cell)?;
            Ok(())
        }
    }
}

// Whether the mosaic after a change, made of the one before it, has these numbers at these places; there is none where no
// tile is left.
fn is_patched<R: Threads + Sync>(
    rt: &R,
    alloc: Global,
    depth: Depth,
    tiles: &mut Store<Tile>,
    row: &Change,
) -> Result<bool, Fail>
    requires tiles { AreOfOrder3 depth 1 tiles.old }
    ensures { IfOk result (λ _. AreOfOrder3 depth 1 tiles.new) }
{
    let (cell, four, numbers) = row;
    let cell = cell % 768;
    let old = mosaic(rt, alloc, depth, 1, tiles)?;
    change(alloc, depth, tiles, cell, *four)?;
    match patch(alloc, depth, 1, &old, &[cell], tiles)? {
        Some(raw) => Ok(has_numbers(&raw, numbers)),
        None => Ok(numbers.is_empty()),
    }
}

// Makes the changes, one after the other.
fn check_changes<R: Threads + Sync + Abort>(
    rt: &R,
    alloc: Global,
    depth: Depth,
    tiles: &mut Store<Tile>,
) -> Result<(), Fail>
    requires { AreOfOrder3 depth 1 tiles.old }
{
    for change in &CHANGES {
        let patched = is_patched(rt, alloc, depth, tiles, change)?;
        assert!(rt; patched, "cell {} as {:?}", change.0, change.1);
    }
    Ok(())
}

// The tiles before the changes.
static OPENING: [(u64, [i16; 4]); 1] = [(767, [14, 15, 16, 17])];

#[test]
fn patches_what_changed(rt: HostRuntime) -> Result<(), Fail> {
    let depth = depth().ok_or("no depth")?;
    let mut store = tiles(rt.alloc(), depth, 1, &OPENING)?;
    check_changes(&rt, rt.alloc(), depth, &mut store)
}

// A cell, its new tile or none, and where numbers are then.
type Change = (u64, Option<[i16; 4]>, &'static [(usize, i16)]);

static CHANGES: [Change; 4] = [
    (
        26,
        Some([5, 6, 7, 8]),
        &[
            (3130, 5),
            (3131, 6),
            (3076, 7),
            (3077, 8),
            (76, 14),
            (77, 15),
            (22, 16),
            (23, 17),
        ],
    ),
    (
        767,
        Some([9, B, B, 2]),
        &[(3130, 5), (3131, 6), (3076, 7), (3077, 8), (76, 9), (23, 2)],
    ),
    (26, None, &[(76, 9), (23, 2)]),
    (767, None, &[]),
];
