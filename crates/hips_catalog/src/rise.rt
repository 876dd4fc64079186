//! A row less: it is taken out of its tile, and each tile from there downward takes up the best row of those below.
ghost use Rattle.std.specs.Prelude.{◌≡◌, ℕ, List, ◌<◌, ◌≤◌, true, false, slice_get, Some};
ghost use Rattle.healpix_nested.specs.Cells.{IsCell};
ghost use Rattle.hips_catalog.specs.Rows.{Source, is_better};
ghost use Rattle.hips_catalog.specs.Tiles.{AreListed, NoneIsEmpty, rows_at};
ghost use Rattle.hips_catalog.specs.Parts.{AreTilesOf, Differ};
ghost use Rattle.hips_catalog.specs.Rising.{Rising};

use crate::row::Row;
use crate::sink::cell_of;
use crate::tile::{Tiles, best_child, pull, seek, take_out};
use healpix_nested::Cell;

// The tile that has the row, and the row's place there.
fn locate(tiles: &Tiles, top: u8, row: &Row) -> (Cell, usize)
    requires listed { AreListed tiles.now }
    requires cell { IsCell top row.now.npix }
    ensures { (n : ℕ) (few many : List Source) → AreTilesOf top n many tiles.now → Differ top row.now few many →
        Rising top n few many (λ k p. rows_at tiles.now k p) result.0.order result.0.npix row.now result.1 }
{
    for order in 0..top {
        let cell = cell_of(row, top, order);
        let (i, is_there) = seek(tiles, cell, row);
        if is_there {
            return (cell, i);
        }
    }
    let cell = cell_of(row, top, top);
    let (i, _is_there) = seek(tiles, cell, row);
    (cell, i)
}

/// Takes the row, which one of the tiles has, out of the tiles.
pub(crate) fn rise(tiles: &mut Tiles, top: u8, room: usize, row: &Row)
    requires listed { AreListed tiles.old }
    requires top { top ≤ 11 }
    requires room { 0 < room }
    requires tiles { (few : List Source) × (many : List Source) × AreTilesOf top room many tiles.old × Differ top row.now few many }
    ensures tiles { (few many : List Source) → AreTilesOf top room many tiles.old → Differ top row.now few many → AreTilesOf top room few tiles.new }
    ensures listed { AreListed tiles.new }
    ensures full { NoneIsEmpty tiles.old → NoneIsEmpty tiles.new }
{
    let (first, place) = locate(tiles, top, row);
    let mut cell = first;
    let mut i = place;
    for _order in first.order()..top {
        match best_child(tiles, cell) {
            Some(child) => {
                pull(tiles, cell, i, child);
                cell = child;
                i = 0;
            }
            None => {
                take_out(tiles, cell, i);
                return;
            }
        }
    }
    take_out(tiles, cell, i);
}
