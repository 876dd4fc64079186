//! A row more: from the top downward it goes into a tile, and the last row of a full tile goes on.
ghost use Rattle.std.specs.Prelude.{◌≡◌, ℕ, List, ◌-◌, ◌/◌, ◌<◌, ◌≤◌, ◌^◌, IsSome};
ghost use Rattle.std.specs.Arc.{arc_value};
ghost use Rattle.healpix_nested.specs.Cells.{IsCell};
ghost use Rattle.hips_catalog.specs.Rows.{Source};
ghost use Rattle.hips_catalog.specs.Tiles.{AreListed, NoneIsEmpty};
ghost use Rattle.hips_catalog.specs.Parts.{AreTilesOf, Differ};

use crate::ranked::Ranked;
use crate::row::Row;
use crate::tile::{Tile, Tiles, offer};
use balanced_list::Item;
use healpix_nested::Cell;

/// The cell of that order that the row lies under.
pub(crate) fn cell_of(row: &Row, top: u8, order: u8) -> Cell
    requires cell { IsCell top row.now.npix }
    requires order { order ≤ top }
    ensures order { result.order ≡ order }
    ensures npix { result.npix ≡ row.now.npix / 4 ^ (top - order) }
{
    match Cell::new(top, row.npix()) {
        Some(cell) => cell.ancestor(order),
        None => unreachable!(),
    }
}

/// Puts the row into the tiles of the others, one of which may be made of the spare one.
pub(crate) fn sink(
    tiles: &mut Tiles,
    top: u8,
    room: usize,
    row: Item<Ranked>,
    spare: &mut Option<Item<Tile>>,
)
    requires spare { IsSome spare.old }
    requires listed { AreListed tiles.old }
    requires room { 0 < room }
    requires tiles { (few : List Source) × (many : List Source) × AreTilesOf top room few tiles.old × Differ top (arc_value row) few many }
    ensures tiles { (few many : List Source) → AreTilesOf top room few tiles.old → Differ top (arc_value row) few many → AreTilesOf top room many tiles.new }
    ensures listed { AreListed tiles.new }
    ensures full { NoneIsEmpty tiles.old → NoneIsEmpty tiles.new }
{
    let mut row = row;
    for order in 0..top {
        let cell = cell_of(row.item().row(), top, order);
        match offer(tiles, cell, row, room, spare) {
            Some(last) => row = last,
            None => return,
        }
    }
    let cell = cell_of(row.item().row(), top, top);
    let _none = offer(tiles, cell, row, usize::MAX, spare);
}
