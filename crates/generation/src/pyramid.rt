//! The tiles of a survey, order by order.
ghost use Rattle.std.specs.Prelude.{◌≡◌, ℕ, ◌+◌, ◌-◌, ◌^◌, ◌<◌, ◌≤◌, ◌⊎◌, length, slice_get, option_map, IfOk, IfSome, OnOk, MatchOption, All};
ghost use Rattle.std.specs.List.{flat_map, range_with_len};
ghost use Rattle.std.specs.List.Sorted.{IsStrictlyIncreasing};
ghost use Rattle.std.specs.Arc.{arc_value};
ghost use Rattle.std.specs.Map.{keys_of};
ghost use Rattle.healpix_nested.specs.Cells.{cell_count};
ghost use Rattle.pyramid_model.specs.Shape.{FitsShape, IsShape};
ghost use Rattle.tile_path.specs.declared.path.Path.TheVariants.{Tile as TilePath};
ghost use Rattle.tile_path.specs.Spelling.{IsTile};
ghost use Rattle.dirty_plan.specs.Dirty.{work, steps_after};
ghost use Rattle.edit_journal.specs.Leaves.{FitsLeaves};
ghost use Rattle.generation.specs.Changes.{AreTiles};
ghost use Rattle.generation.specs.Files.{leaf_map, tile_paths};
ghost use Rattle.generation.specs.Kept.{tiles_of, HasTile, SameBut};
ghost use Rattle.generation.specs.Steps.{tiles_above};
ghost use Rattle.tile_pixels.specs.Tile.{tile_of};

use crate::changes::Changes;
use crate::levels::{Edited, levels_above};
use healpix_nested::Cell;
use leaf_store::Store;
use parent_rule::Steps;
use pyramid_model::Shape;
use std::alloc::{AllocError, Global};
use std::marker::Model;
use std::sync::Arc;
use std::thread::Threads;
use survey_link::Gate;
use tile_pixels::Tile;

/// The leaves of a survey, and all tiles above them down to the lowest order, which contracts leave out: the leaves say what
/// they are.
#[derive(Drop)]
pub(crate) struct Pyramid {
    shape: Shape,
    leaves: Store<Tile>,
    // From the order above the leaves down to the lowest.
    levels: Vec<Store<Tile>>,
}

impl Model for Pyramid {
    ghost use Rattle.generation.specs.Kept.{PyramidContent, IsPyramid};

    ghost Value = { PyramidContent };

    ghost view = { λ p. record { shape = p.shape; leaves = p.leaves } };

    ghost invariant = { λ p. IsPyramid p.shape p.leaves p.levels.items };
}

impl Pyramid {
    /// The pyramid of these leaves.
    pub(crate) fn of<R: Threads + Sync, G: Gate + Sync>(
        rt: &R,
        alloc: Global,
        gate: &G,
        shape: Shape,
        leaves: Store<Tile>,
        steps: &mut Steps,
    ) -> Result<Pyramid, AllocError>
        requires { FitsLeaves shape leaves }
        ensures made { IfOk result (λ made. made ≡ record { shape = shape; leaves = leaves }) }
        ensures counted { OnOk result (steps.new ≡ steps_after steps.old (tiles_above shape (leaf_map leaves))) }
        ensures steps { steps.new ≤ steps_after steps.old (tiles_above shape (leaf_map leaves)) }
        ensures never_falls { steps.old ≤ steps.new }
    {
        // For the prover: a count fits 64 bits.
        let _count = steps.count();
        let numbers = leaf_numbers(alloc, &leaves)?;
        let edited = Edited {
            leaves: &leaves,
            before: &[],
            touched: &numbers,
        };
        let levels = levels_above(rt, alloc, gate, shape, edited, steps)?;
        Ok(Pyramid {
            shape,
            leaves,
            levels,
        })
    }

    /// The pyramid after some changes of its leaves.
    pub(crate) fn after<R: Threads + Sync, G: Gate + Sync>(
        &self,
        rt: &R,
        alloc: Global,
        gate: &G,
        changes: Changes,
        steps: &mut Steps,
    ) -> Result<Pyramid, AllocError>
        requires fits { FitsLeaves self.now.shape changes.leaves }
        requires tiles { AreTiles changes.leaves }
        requires ascending { IsStrictlyIncreasing changes.touched.items }
        requires cells { All (λ leaf. leaf < cell_count self.now.shape.top) changes.touched.items }
        requires same { SameBut changes.touched.items self.now.leaves changes.leaves }
        ensures made { IfOk result (λ made. made ≡ record { shape = self.now.shape; leaves = changes.leaves }) }
        ensures counted { OnOk result (steps.new ≡ steps_after steps.old (work self.now.shape.top self.now.shape.low changes.touched.items)) }
        ensures steps { steps.new ≤ steps_after steps.old (work self.now.shape.top self.now.shape.low changes.touched.items) }
        ensures never_falls { steps.old ≤ steps.new }
    {
        let Changes { leaves, touched } = changes;
        let edited = Edited {
            leaves: &leaves,
            before: &self.levels,
            touched: &touched,
        };
        let levels = levels_above(rt, alloc, gate, self.shape, edited, steps)?;
        Ok(Pyramid {
            shape: self.shape,
            leaves,
            levels,
        })
    }

    /// The leaves.
    pub(crate) fn leaves(&self) -> &Store<Tile>
        ensures leaves { result.now ≡ self.now.leaves }
        ensures fits { FitsLeaves self.now.shape result.now }
        ensures numbers { FitsShape self.now.shape (leaf_map result.now) }
        ensures tiles { AreTiles result.now }
    {
        &self.leaves
    }

    /// The tiles of an order; `None` if and only if the survey has none of that order.
    pub(crate) fn tiles(&self, order: u8) -> Option<&Store<Tile>>
        ensures tiles { MatchOption result ((order < self.now.shape.low) ⊎ (self.now.shape.top < order))
            (λ tiles. (self.now.shape.low ≤ order) × (order ≤ self.now.shape.top) × (tiles.now ≡ tiles_of self.now.shape (leaf_map self.now.leaves) order)) }
        ensures shape { IsShape self.now.shape.top self.now.shape.low self.now.shape.n }
        ensures numbers { FitsShape self.now.shape (leaf_map self.now.leaves) }
    {
        let shape = self.shape;
        if order < shape.low || order > shape.top {
            return None;
        }
        if order == shape.top {
            return Some(&self.leaves);
        }
        self.levels.get(usize::from(shape.top - 1 - order))
    }

    /// The tile of a cell; `None` if and only if the survey has none.
    pub(crate) fn tile(&self, cell: Cell) -> Option<&Arc<Tile>>
        ensures { MatchOption result (HasTile self.now.shape (leaf_map self.now.leaves) cell.order cell.npix → ⊥)
            (λ tile. HasTile self.now.shape (leaf_map self.now.leaves) cell.order cell.npix
            × (arc_value tile.now ≡ tile_of self.now.shape (leaf_map self.now.leaves) cell.order cell.npix)) }
    {
        match self.tiles(cell.order()) {
            Some(tiles) => tiles.get(cell.npix()),
            None => None,
        }
    }

    /// How many tiles there are.
    pub(crate) fn count(&self) -> u64
        ensures count { result ≡ length (flat_map (tile_paths self.now.shape (leaf_map self.now.leaves)) (range_with_len self.now.shape.low (self.now.shape.top + 1 - self.now.shape.low))) }
        ensures at_most { result < 2 ^ 32 }
    {
        let shape = self.shape;
        let mut count = 0;
        for order in shape.low..shape.top + 1 {
            count += self.count_of(order);
        }
        count
    }

    // How many tiles of an order there are.
    fn count_of(&self, order: u8) -> u64
        requires low { self.now.shape.low ≤ order }
        requires high { order ≤ self.now.shape.top }
        ensures count { result ≡ length (tile_paths self.now.shape (leaf_map self.now.leaves) order) }
        ensures at_most { result ≤ 50331648 }
    {
        match self.tiles(order) {
            Some(tiles) => tiles.len() as u64,
            None => 0,
        }
    }

    /// The cell of tile `i`, from 0, by order and number; `None` if and only if `i` is past the last.
    pub(crate) fn cell(&self, i: u64) -> Option<Cell>
        ensures cell { option_map (λ cell. TilePath cell) result
            ≡ slice_get (flat_map (tile_paths self.now.shape (leaf_map self.now.leaves)) (range_with_len self.now.shape.low (self.now.shape.top + 1 - self.now.shape.low))) i }
    {
        let shape = self.shape;
        let mut left = i;
        for order in shape.low..shape.top + 1 {
            let count = self.count_of(order);
            if left < count {
                return self.cell_of(order, left);
            }
            left -= count;
        }
        None
    }

    // The cell of tile `i` of an order.
    fn cell_of(&self, order: u8, i: u64) -> Option<Cell>
        requires low { self.now.shape.low ≤ order }
        requires high { order ≤ self.now.shape.top }
        requires i { i < length (tile_paths self.now.shape (leaf_map self.now.leaves) order) }
        ensures { option_map (λ cell. TilePath cell) result ≡ slice_get (tile_paths self.now.shape (leaf_map self.now.leaves) order) i }
    {
        match self.tiles(order) {
            Some(tiles) => match tiles.at(i as usize) {
                Some((npix, _)) => Cell::new(order, npix),
                None => None,
            },
            None => None,
        }
    }
}

// The numbers of the leaves, ascending.
fn leaf_numbers(alloc: Global, leaves: &Store<Tile>) -> Result<Vec<u64>, AllocError>
    ensures numbers { IfOk result (λ numbers. numbers.items ≡ keys_of leaves.now) }
    ensures ascending { IfOk result (λ numbers. IsStrictlyIncreasing numbers.items) }
    ensures tiles { OnOk result (AreTiles leaves.now) }
{
    let mut numbers = Vec::with_capacity(alloc, leaves.len())?;
    for (leaf, tile) in leaves.iter() {
        // For the prover: what a tile is.
        let _n = tile.n();
        numbers.push(leaf)?;
    }
    Ok(numbers)
}
