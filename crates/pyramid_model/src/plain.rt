//! The plain program: it computes the definitions cell by cell. It is slow, and what later bodies are compared with.
ghost use Rattle.std.specs.Prelude.{◌≡◌, ℕ, ◌+◌, ◌-◌, ◌*◌, ◌/◌, ◌%◌, ◌^◌, ◌<◌, ◌≤◌, ◌&&◌, ◌↔◌, nat_le, nat_lt, IsTrue, IfOk, false, None, Some, length, slice_get, All};
ghost use Rattle.std.specs.List.{list_any};
ghost use Rattle.std.specs.List.Sorted.{IsStrictlySortedBy};
ghost use Rattle.std.specs.Map.{keys_of};
ghost use Rattle.std.specs.Ordering.{nat_cmp};
ghost use Rattle.healpix_nested.specs.Cells.{cell_count};
ghost use Rattle.healpix_nested.specs.Place.{stored_at_z, stored_z};
ghost use Rattle.parent_rule.specs.Depth.{IsNumber};
ghost use Rattle.pyramid_model.specs.Shape.{FitsShape, IsLeaf, leaf_numbers};
ghost use Rattle.pyramid_model.specs.Leaves.{leaf_map};
ghost use Rattle.pyramid_model.specs.Value.{value, pixel_of};
ghost use Rattle.pyramid_model.specs.Tile.{exists, pixels};

use crate::shape::Shape;
use healpix_nested::{cells, interleave, split};
use parent_rule::mean4;
use std::alloc::{AllocError, Global};
use std::collections::BTreeMap;

/// Leaf tiles by number: the stored numbers of each.
pub type Leaves = BTreeMap<u64, Vec<i64>>;

// Whether a leaf is one of the shape's.
fn is_leaf(leaf: u64, numbers: &[i64], shape: &Shape) -> bool
    ensures { IsTrue result ↔ IsLeaf shape.now leaf numbers.now }
{
    leaf < cells(shape.top)
        && numbers.len() == 4usize.pow(u32::from(shape.n))
        && numbers.iter().all(|number| shape.depth.holds(*number))
}

// Whether each leaf of a map, which is ordered, is.
fn each_is_leaf(leaves: &Leaves, shape: &Shape) -> bool
    ensures ordered { IsStrictlySortedBy nat_cmp (keys_of leaves.now.entries) }
    ensures leaves { IsTrue result ↔ All (λ leaf. IsLeaf shape.now leaf.0 leaf.1.items) leaves.now.entries }
{
    leaves
        .iter()
        .all(|(leaf, numbers)| is_leaf(*leaf, numbers, shape))
}

/// Whether the leaves fit the shape: each is a cell of the order of the leaves, and has `4^n` numbers of the depth.
pub fn fits(leaves: &Leaves, shape: &Shape) -> bool
    ensures { IsTrue result ↔ FitsShape shape.now (leaf_map leaves.now.entries) }
{
    each_is_leaf(leaves, shape)
}

// How many cells lie that many orders below one cell.
fn cells_below(levels: u8) -> u64
    requires { levels ≤ 20 }
    ensures count { result ≡ 4 ^ levels }
    ensures some { 0 < result }
{
    4u64.pow(u32::from(levels))
}

// Whether a leaf number from `first` to below `end` is there.
fn any_in(leaves: &Leaves, first: u64, end: u64) -> bool
    requires { first ≤ end }
    ensures { result ≡ list_any (λ leaf. nat_le first leaf.0 && nat_lt leaf.0 end) leaves.now.entries }
{
    leaves.range(first..end).next().is_some()
}

/// Whether tile `npix` of that order exists: whether some leaf lies under its cell.
pub fn exists(leaves: &Leaves, shape: &Shape, order: u8, npix: u64) -> bool
    requires order { order ≤ shape.now.top }
    requires npix { npix < cell_count order }
    ensures { result ≡ exists shape.now (leaf_map leaves.now.entries) order npix }
{
    let below = cells_below(shape.top - order);
    any_in(leaves, npix * below, (npix + 1) * below)
}

// Whether some leaf has pixels under a cell. An order past that of the leaves names a part of one leaf. Callers rest on a
// `false` alone: a `true` only costs them time.
fn has_pixels(leaves: &Leaves, shape: &Shape, order: u8, cell: u64) -> bool
    requires order { order ≤ shape.now.top + shape.now.n }
    requires cell { cell < cell_count order }
    ensures none { result ≡ false → (pixel : ℕ) → pixel / 4 ^ (shape.now.top + shape.now.n - order) ≡ cell
        → leaf_numbers (leaf_map leaves.now.entries) (pixel / 4 ^ shape.now.n) ≡ None }
{
    if order <= shape.top {
        return exists(leaves, shape, order, cell);
    }
    let leaf = cell / cells_below(order - shape.top);
    leaves.contains_key(&leaf)
}

// The stored number of the pixel whose place in a tile has that z.
fn number_at(numbers: &[i64], n: u8, z: u64) -> i64
    requires n { n ≤ 9 }
    requires z { z < 4 ^ n }
    requires numbers { length numbers.now ≡ 4 ^ n }
    ensures { slice_get numbers.now (stored_at_z n z) ≡ Some result }
{
    let width = 2u32.pow(u32::from(n));
    let (col, row) = split(z);
    numbers[((width - 1 - row) * width + col) as usize]
}

// The pixel of a leaf, by the number of its cell at the order of the pixels.
fn pixel(leaves: &Leaves, shape: &Shape, cell: u64) -> i64
    requires fits { FitsShape shape.now (leaf_map leaves.now.entries) }
    ensures pixel { result ≡ pixel_of shape.now (leaf_numbers (leaf_map leaves.now.entries) (cell / 4 ^ shape.now.n)) (cell % 4 ^ shape.now.n) }
    ensures number { IsNumber shape.now.depth.bitpix result }
{
    let below = cells_below(shape.n);
    match leaves.get(&(cell / below)) {
        None => shape.depth.blank(),
        Some(numbers) => number_at(numbers, shape.n, cell % below),
    }
}

/// The value of a cell of that order, from 0 to the order of the leaves' pixels. A cell with no leaf under it is blank at
/// once.
pub fn value(leaves: &Leaves, shape: &Shape, order: u8, cell: u64) -> i64
    requires order { order ≤ shape.now.top + shape.now.n }
    requires cell { cell < cell_count order }
    requires fits { FitsShape shape.now (leaf_map leaves.now.entries) }
    ensures value { result ≡ value shape.now (leaf_map leaves.now.entries) order cell }
    ensures number { IsNumber shape.now.depth.bitpix result }
{
    if !has_pixels(leaves, shape, order, cell) {
        return shape.depth.blank();
    }
    if order == shape.top + shape.n {
        return pixel(leaves, shape, cell);
    }
    let first = 4 * cell;
    let v0 = value(leaves, shape, order + 1, first);
    let v1 = value(leaves, shape, order + 1, first + 1);
    let v2 = value(leaves, shape, order + 1, first + 2);
    let v3 = value(leaves, shape, order + 1, first + 3);
    mean4([v0, v1, v2, v3], shape.depth)
}

// The cell that a stored number of tile `npix` shows.
fn cell_at(npix: u64, n: u8, place: u32) -> u64
    requires n { n ≤ 9 }
    requires place { place < 4 ^ n }
    requires fits { (npix + 1) * 4 ^ n < 2 ^ 64 }
    ensures { result ≡ npix * 4 ^ n + stored_z n place }
{
    let width = 2u32.pow(u32::from(n));
    npix * cells_below(n) + interleave(place % width, width - 1 - place / width)
}

/// The stored numbers of tile `npix` of that order, bottom line first.
///
/// # Errors
///
/// `AllocError` where there is no memory for them.
pub fn pixels(
    alloc: Global,
    leaves: &Leaves,
    shape: &Shape,
    order: u8,
    npix: u64,
) -> Result<Vec<i64>, AllocError>
    requires order { order ≤ shape.now.top }
    requires npix { npix < cell_count order }
    requires fits { FitsShape shape.now (leaf_map leaves.now.entries) }
    ensures pixels { IfOk result (λ numbers. numbers.items ≡ pixels shape.now (leaf_map leaves.now.entries) order npix) }
    ensures numbers { IfOk result (λ numbers. All (IsNumber shape.now.depth.bitpix) numbers.items) }
{
    let count = 4u32.pow(u32::from(shape.n));
    let mut numbers = Vec::new(alloc);
    for place in 0..count {
        let cell = cell_at(npix, shape.n, place);
        numbers.push(value(leaves, shape, order + shape.n, cell))?;
    }
    Ok(numbers)
}
