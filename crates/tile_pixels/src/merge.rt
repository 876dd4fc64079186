//! The tile above four tiles.
ghost use Rattle.std.specs.Prelude.{◌≡◌, ℕ, ◌+◌, ◌-◌, ◌*◌, ◌/◌, ◌^◌, ◌<◌, ◌≤◌, List, ℤ, Option, ◌++◌, length, All, IfOk, option_map};
ghost use Rattle.std.specs.Option.{ForSome};
ghost use Rattle.parent_rule.specs.Depth.{IsNumber};
ghost use Rattle.pyramid_model.specs.Shape.{PyramidShape, LeafMap};
ghost use Rattle.pyramid_model.specs.Tile.{pixels};
ghost use Rattle.tile_pixels.specs.Lines.{half_row, half_rows};
ghost use Rattle.tile_pixels.specs.Merge.{FourTiles, merged, ShowsChildren};
ghost use Rattle.tile_pixels.specs.Quadrants.{AreOver, Fits, IsOver};
ghost use Rattle.tile_pixels.specs.Stored.{stored_bytes};
ghost use Rattle.tile_pixels.specs.Tile.{HasShape};

use crate::above::store_row_above;
use crate::form::TileForm;
use crate::quadrant::{Quadrant, Quadrants};
use crate::row::write_row;
use crate::tile::Tile;
use parent_rule::{Depth, Permit};
use std::alloc::{AllocError, Global};

impl Tile {
    /// The tile above four tiles: its quadrant i is the parent rule over child i, blank where the child isn't given. The
    /// permit is spent also by a refusal.
    ///
    /// # Errors
    ///
    /// `AllocError` where there is no memory for the new tile.
    pub fn merge(
        alloc: Global,
        permit: Permit,
        depth: Depth,
        n: u8,
        c0: Option<&Tile>,
        c1: Option<&Tile>,
        c2: Option<&Tile>,
        c3: Option<&Tile>,
    ) -> Result<Tile, AllocError>
        requires least_n { 1 ≤ n }
        requires greatest_n { n ≤ 9 }
        requires c0 { ForSome c0 (λ t. HasShape t.now depth n) }
        requires c1 { ForSome c1 (λ t. HasShape t.now depth n) }
        requires c2 { ForSome c2 (λ t. HasShape t.now depth n) }
        requires c3 { ForSome c3 (λ t. HasShape t.now depth n) }
        ensures tile { IfOk result (λ tile. tile ≡ record {
          depth = depth;
          n = n;
          numbers = merged depth n (record {
            first = option_map (λ t. t.now.numbers) c0.entry;
            second = option_map (λ t. t.now.numbers) c1.entry;
            third = option_map (λ t. t.now.numbers) c2.entry;
            fourth = option_map (λ t. t.now.numbers) c3.entry;
          });
        }) }

        // Where the four are those of the children of a cell, it is the cell's.
        ensures pixels { (shape : PyramidShape) (leaves : LeafMap) (k p : ℕ) → shape.depth ≡ depth → shape.n ≡ n → k < shape.top
            → ShowsChildren shape leaves k p (record {
              first = option_map (λ t. t.now.numbers) c0.entry;
              second = option_map (λ t. t.now.numbers) c1.entry;
              third = option_map (λ t. t.now.numbers) c2.entry;
              fourth = option_map (λ t. t.now.numbers) c3.entry;
            })
            → IfOk result (λ tile. tile.numbers ≡ pixels shape leaves k p) }
    {
        let quadrants = Quadrants {
            first: Quadrant::Merged(c0),
            second: Quadrant::Merged(c1),
            third: Quadrant::Merged(c2),
            fourth: Quadrant::Merged(c3),
        };
        Tile::merge_quadrants(alloc, permit, depth, n, quadrants)
    }

    /// The tile above four tiles, as `merge` makes it, where some quadrants may be kept: those of a tile that was merged
    /// over the same child. The permit is spent also by a refusal.
    ///
    /// # Errors
    ///
    /// `AllocError` where there is no memory for the new tile.
    pub fn merge_quadrants(
        alloc: Global,
        permit: Permit,
        depth: Depth,
        n: u8,
        quadrants: Quadrants<'_>,
    ) -> Result<Tile, AllocError>
        requires least_n { 1 ≤ n }
        requires greatest_n { n ≤ 9 }
        requires first { Fits depth n quadrants.first }
        requires second { Fits depth n quadrants.second }
        requires third { Fits depth n quadrants.third }
        requires fourth { Fits depth n quadrants.fourth }
        ensures tile { IfOk result (λ tile. (tiles : FourTiles) → AreOver depth n tiles quadrants.entry
            → tile ≡ record { depth = depth; n = n; numbers = merged depth n tiles }) }
    {
        permit.spend();
        let Quadrants {
            first,
            second,
            third,
            fourth,
        } = quadrants;
        let half = half_side(n);
        let mut numbers = [0; 1280];
        let mut bytes = [0; 2048];
        let numbers = &mut numbers[..5 * half];
        let bytes = &mut bytes[..half * depth.bytes()];
        let mut raw = Vec::with_capacity(alloc, bytes.len() * 4 * half)?;
        let form = TileForm { depth, n };
        append_rows(&form, second, fourth, numbers, bytes, &mut raw)?;
        append_rows(&form, first, third, numbers, bytes, &mut raw)?;
        Ok(Tile::of_raw(raw, depth, n))
    }
}

// Half of the columns of a tile.
fn half_side(n: u8) -> usize
    requires least_n { 1 ≤ n }
    requires greatest_n { n ≤ 9 }
    ensures half { result ≡ 2 ^ (n - 1) }
    ensures side { 2 * result ≡ 2 ^ n }
    ensures some { 0 < result }
    ensures small { result ≤ 256 }
{
    2usize.pow(u32::from(n - 1))
}

// Appends half of the lines of the tile above, bottom line first: those of two quadrants side by side.
fn append_rows(
    form: &TileForm,
    left: Quadrant<'_>,
    right: Quadrant<'_>,
    numbers: &mut [i64],
    bytes: &mut [u8],
    raw: &mut Vec<u8>,
) -> Result<(), AllocError>
    requires least_n { 1 ≤ form.now.n }
    requires greatest_n { form.now.n ≤ 9 }
    requires left { Fits form.now.depth form.now.n left }
    requires right { Fits form.now.depth form.now.n right }
    requires numbers { length numbers.old ≡ 5 * 2 ^ (form.now.n - 1) }
    requires bytes { length bytes.old ≡ 2 ^ (form.now.n - 1) * (form.now.depth.bitpix / 8) }
    ensures length { IfOk result (λ _. length raw.new.items ≡ length raw.old.items + 2 ^ (form.now.n - 1) * (2 * (2 ^ (form.now.n - 1) * (form.now.depth.bitpix / 8)))) }
    ensures bytes { IfOk result (λ _. (l r : Option (List ℤ)) → IsOver form.now.depth form.now.n l left.entry → IsOver form.now.depth form.now.n r right.entry
        → raw.new.items ≡ raw.old.items ++ stored_bytes form.now.depth.bitpix (half_rows form.now.depth form.now.n l r (2 ^ (form.now.n - 1)))) }
    ensures range { IfOk result (λ _. (l r : Option (List ℤ)) → IsOver form.now.depth form.now.n l left.entry → IsOver form.now.depth form.now.n r right.entry
        → All (IsNumber form.now.depth.bitpix) (half_rows form.now.depth form.now.n l r (2 ^ (form.now.n - 1)))) }
{
    let half = half_side(form.n);
    for line in 0..half {
        append_row(form, left, half - 1 - line, numbers, bytes, raw)?;
        append_row(form, right, half - 1 - line, numbers, bytes, raw)?;
    }
    Ok(())
}

// Appends a line of a quadrant, counted from 0 at the quadrant's top.
fn append_row(
    form: &TileForm,
    quadrant: Quadrant<'_>,
    row: usize,
    numbers: &mut [i64],
    bytes: &mut [u8],
    raw: &mut Vec<u8>,
) -> Result<(), AllocError>
    requires least_n { 1 ≤ form.now.n }
    requires greatest_n { form.now.n ≤ 9 }
    requires quadrant { Fits form.now.depth form.now.n quadrant }
    requires row { row < 2 ^ (form.now.n - 1) }
    requires numbers { length numbers.old ≡ 5 * 2 ^ (form.now.n - 1) }
    requires bytes { length bytes.old ≡ 2 ^ (form.now.n - 1) * (form.now.depth.bitpix / 8) }
    ensures length { IfOk result (λ _. length raw.new.items ≡ length raw.old.items + 2 ^ (form.now.n - 1) * (form.now.depth.bitpix / 8)) }
    ensures bytes { IfOk result (λ _. (child : Option (List ℤ)) → IsOver form.now.depth form.now.n child quadrant.entry
        → raw.new.items ≡ raw.old.items ++ stored_bytes form.now.depth.bitpix (half_row form.now.depth form.now.n child row)) }
    ensures range { (child : Option (List ℤ)) → IsOver form.now.depth form.now.n child quadrant.entry → All (IsNumber form.now.depth.bitpix) (half_row form.now.depth form.now.n child row) }
{
    match quadrant {
        Quadrant::Kept(tile, i) => return raw.extend_from_slice(tile.quadrant_line(i, row)),
        Quadrant::Merged(child) => {
            store_half_row(form.depth, form.n, child, row, numbers, bytes);
            return raw.extend_from_slice(bytes);
        }
    }
}

// Stores the row above rows `2 * row` and `2 * row + 1` of a child: blank where it isn't given.
fn store_half_row(
    depth: Depth,
    n: u8,
    child: Option<&Tile>,
    row: usize,
    numbers: &mut [i64],
    bytes: &mut [u8],
)
    requires least_n { 1 ≤ n }
    requires greatest_n { n ≤ 9 }
    requires child { ForSome child (λ t. HasShape t.now depth n) }
    requires row { row < 2 ^ (n - 1) }
    requires numbers { length numbers.old ≡ 5 * 2 ^ (n - 1) }
    requires bytes { length bytes.old ≡ 2 ^ (n - 1) * (depth.bitpix / 8) }
    ensures bytes { bytes.new ≡ stored_bytes depth.bitpix (half_row depth n (option_map (λ t. t.now.numbers) child.entry) row) }
    ensures range { All (IsNumber depth.bitpix) (half_row depth n (option_map (λ t. t.now.numbers) child.entry) row) }
{
    let half = half_side(n);
    let blank = depth.blank();
    match child {
        None => {
            let above = &mut numbers[..half];
            above.fill(blank);
            write_row(depth, above, bytes);
        }
        Some(tile) => {
            let line = 2 * row as u32;
            store_row_above(
                depth,
                tile.line(line),
                tile.line(line + 1),
                half,
                numbers,
                bytes,
            );
        }
    }
}
