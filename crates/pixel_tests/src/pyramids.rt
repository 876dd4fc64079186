//! Worked pyramids, as tables. Leaves are of numbers of 16 bits, two columns by two lines where no row says otherwise.
ghost use Rattle.std.specs.Prelude.{◌≤◌};

use healpix_nested::cells;
use parent_rule::{Combine, Depth};
use pyramid_model::Shape;
use pyramid_model::plain::{Leaves, exists, fits, pixels, value};
use std::alloc::Global;
use std::collections::BTreeMap;
use std::process::Abort;
use std::test::Fail;

/// The blank number.
const B: i64 = -32768;

// A leaf and its numbers.
type Leaf = (u64, [i64; 4]);

fn leaves_in(alloc: Global, table: &[Leaf]) -> Result<Leaves, Fail> {
    let mut leaves = BTreeMap::new(alloc);
    for (leaf, numbers) in table {
        leaves.insert(*leaf, Vec::from_array(alloc, *numbers)?)?;
    }
    Ok(leaves)
}

static FIRST: [Leaf; 1] = [(0, [1, 2, 3, 5])];

// The shape of a survey of leaves of that order, whose tiles have `2^n` columns.
fn shape(top: u8, n: u8, combine: Combine) -> Option<Shape> {
    if top < 3 || top > 11 || n < 1 || n > 9 {
        return None;
    }
    let depth = Depth::new(16, B)?.with(combine);
    Some(Shape {
        top,
        low: 3,
        n,
        depth,
    })
}

// Tiles over the first leaf, of order 4, and whether they exist.
static TILES: [(u8, u64, bool); 5] = [
    (4, 0, true),
    (4, 1, false),
    (3, 0, true),
    (3, 1, false),
    (0, 0, true),
];

// Cells over the pixels of that leaf, and their values.
static VALUES: [(u8, u64, i64); 5] = [(5, 0, 3), (5, 1, 1), (5, 4, B), (4, 0, 3), (4, 1, B)];

// Whether a tile exists, if it is one of the survey.
fn existence(leaves: &Leaves, shape: &Shape, order: u8, npix: u64) -> Option<bool> {
    if order > shape.top || npix >= cells(order) {
        return None;
    }
    Some(exists(leaves, shape, order, npix))
}

// The value of a cell that is one of the survey.
fn value_of(leaves: &Leaves, shape: &Shape, order: u8, cell: u64) -> Option<i64> {
    if order > shape.top + shape.n || cell >= cells(order) || !fits(leaves, shape) {
        return None;
    }
    Some(value(leaves, shape, order, cell))
}

// The tiles and the cells over the first leaf.
fn check_first(rt: &impl Abort, leaves: &Leaves, shape: &Shape) {
    for (order, npix, there) in &TILES {
        let found = existence(leaves, shape, *order, *npix);
        assert!(rt; found == Some(*there), "tile {order}/{npix}");
    }
    for (order, cell, wanted) in &VALUES {
        let found = value_of(leaves, shape, *order, *cell);
        assert!(rt; found == Some(*wanted), "cell {order}/{cell}");
    }
}

#[test]
fn tiles_exist_and_cells_have_values_above_leaves(rt: HostRuntime) -> Result<(), Fail> {
    let shape = shape(4, 1, Combine::Mean).ok_or("no shape")?;
    let leaves = leaves_in(rt.alloc(), &FIRST)?;
    check_first(&rt, &leaves, &shape);
    Ok(())
}

// The order of the leaves, n, the order and the number of a tile, and its numbers.
type TileRow = (u8, u8, u8, u64, &'static [i64]);

// Whether the tile of a row has its numbers over these leaves.
fn has_pixels(
    alloc: Global,
    leaves: &Leaves,
    combine: Combine,
    row: &TileRow,
) -> Result<bool, Fail> {
    let (top, n, order, npix, wanted) = *row;
    let shape = shape(top, n, combine).ok_or("no shape")?;
    if order > shape.top || npix >= cells(order) || !fits(leaves, &shape) {
        return Err("no tile of the survey".into());
    }
    let numbers = pixels(alloc, leaves, &shape, order, npix)?;
    Ok(numbers.as_slice() == wanted)
}

// How the numbers are combined, the leaves, and a tile over them. In the last row means are taken order by order: at once
// they would give 1.
static SMALL: [(Combine, &[Leaf], TileRow); 5] = [
    (
        Combine::Mean,
        &[(0, [1, 2, 3, 5])],
        (4, 1, 4, 0, &[1, 2, 3, 5]),
    ),
    (
        Combine::Mean,
        &[(0, [1, 2, 3, 5])],
        (4, 1, 3, 0, &[B, B, 3, B]),
    ),
    (
        Combine::Median,
        &[(0, [1, 2, 3, 5])],
        (4, 1, 3, 0, &[B, B, 2, B]),
    ),
    (
        Combine::Mean,
        &[(1, [7, 7, 7, 7])],
        (4, 1, 3, 0, &[7, B, B, B]),
    ),
    (
        Combine::Mean,
        &[
            (0, [1, 1, 2, 2]),
            (1, [1, 1, 2, 2]),
            (2, [1, 1, 1, 2]),
            (3, [1, 1, 1, 2]),
        ],
        (5, 1, 3, 0, &[B, B, 2, B]),
    ),
];

// Whether the tile of a row has its numbers over the leaves of a table.
fn has_small_pixels(
    alloc: Global,
    combine: Combine,
    table: &[Leaf],
    row: &TileRow,
) -> Result<bool, Fail> {
    let leaves = leaves_in(alloc, table)?;
    has_pixels(alloc, &leaves, combine, row)
}

#[test]
fn tiles_have_pixels(rt: HostRuntime) -> Result<(), Fail> {
    for (combine, table, row) in &SMALL {
        assert!(rt;
            has_small_pixels(rt.alloc(), *combine, table, row)?,
            "{row:?}"
        );
    }
    Ok(())
}

// The numbers of a leaf by a rule.
fn made_numbers(alloc: Global, leaf: u64, count: u64) -> Result<Vec<i64>, Fail>
    requires leaf { leaf ≤ 6 }
    requires count { count ≤ 64 }
{
    let mut numbers = Vec::new(alloc);
    for place in 0..count {
        let rest = (13 * leaf + 5 * place) % 17;
        numbers.push(if rest == 0 { B } else { rest as i64 - 8 })?;
    }
    Ok(numbers)
}

// Some leaves of tiles of 4 by 4 or 8 by 8, with numbers by a rule.
fn made_leaves(alloc: Global, n: u8) -> Result<Leaves, Fail> {
    let count: u64 = if n == 2 { 16 } else { 64 };
    let mut leaves = BTreeMap::new(alloc);
    for leaf in [0, 1, 3, 6] {
        leaves.insert(leaf, made_numbers(alloc, leaf, count)?)?;
    }
    Ok(leaves)
}

// scripts/pyramid-values.py made them.
static LARGER: [TileRow; 4] = [
    (
        4,
        2,
        4,
        6,
        &[2, 7, -5, 0, 5, -7, -2, 3, 8, -4, 1, 6, -6, -1, 4, B],
    ),
    (
        4,
        2,
        3,
        0,
        &[1, 2, 1, -2, -2, 2, 3, 0, -3, 2, B, B, 2, -1, B, B],
    ),
    (
        5,
        2,
        3,
        0,
        &[B, B, B, B, B, 1, B, B, 1, 1, B, B, 0, B, B, B],
    ),
    (
        4,
        3,
        3,
        0,
        &[
            -2, 2, 1, 2, 3, 0, 1, -1, 1, -1, 3, 2, -1, 3, 1, -2, 1, -2, 2, 1, -2, 3, 0, 1, 0, 1,
            -1, 3, 0, -1, 3, 1, -1, 3, 1, -2, B, B, B, B, -2, 3, 0, 1, B, B, B, B, 0, -1, 3, 1, B,
            B, B, B, 0, -2, 3, 0, B, B, B, B,
        ],
    ),
];

// Whether the tile of a row has its numbers over leaves by a rule.
fn has_larger_pixels(alloc: Global, row: &TileRow) -> Result<bool, Fail> {
    let leaves = made_leaves(alloc, row.1)?;
    has_pixels(alloc, &leaves, Combine::Mean, row)
}

#[test]
fn larger_tiles_have_pixels(rt: HostRuntime) -> Result<(), Fail> {
    for row in &LARGER {
        assert!(rt; has_larger_pixels(rt.alloc(), row)?, "{row:?}");
    }
    Ok(())
}
