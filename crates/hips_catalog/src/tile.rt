//! The tiles, by the numbers of their cells.
ghost use Rattle.std.specs.Prelude.{◌≡◌, true, false, ℕ, List, ◌+◌, ◌<◌, ◌≤◌, ◌^◌, [], ◌∷◌, length, IfOk, MatchOption, drop, take as first_of, ◌++◌, None, IfErr, OnSome, IsSome, slice_get, slice_set, slice_index_or, option_map, option_copied, IfSome, IfNone};
ghost use Rattle.std.specs.Arc.{arc_value};
ghost use Rattle.std.specs.List.{insert, remove};
ghost use Rattle.balanced_list.specs.Search.{leading, HoldsAtFirst};
ghost use Rattle.hips_catalog.specs.Rows.{Source, is_better, placed};
ghost use Rattle.healpix_nested.specs.Cells.{NestedCell};
ghost use Rattle.hips_catalog.specs.declared.tile.Tile.{Tile};
ghost use Rattle.hips_catalog.specs.Tiles.{sources, child_cell, rows_at, is_of, AreListed, HasTile, IsGap, OthersStay, OthersStayButTwo, HasSameCells, HasNewRows, IsBest, IsBestTile, first_at, NoneIsEmpty, number};

use crate::ranked::Ranked;
use crate::row::Row;
use crate::tile_rows::TileRows;
use balanced_list::{BalancedList, Item, Probe};
use healpix_nested::Cell;

/// Tiles, by ascending number of their cells.
pub(crate) type Tiles = BalancedList<Tile>;

/// The tile of a cell: its rows, the best first.
#[derive(Drop)]
pub(crate) struct Tile {
    pub(crate) cell: Cell,
    pub(crate) rows: TileRows,
}

// Whether the place of a cell lies after a tile of a lower number.
#[derive(Drop)]
struct Later(u64);

impl Probe<Tile> for Later {
    ghost use Rattle.std.specs.Prelude.{nat_lt};
    ghost use Rattle.hips_catalog.specs.Tiles.{number};

    ghost past = { λ s tile. nat_lt (number tile) s.0 };

    fn is_past(&self, tile: &Tile) -> bool {
        tile.cell.uniq() < self.0
    }
}

impl Tile {
    // Whether this is the tile of the cell.
    fn is_of(&self, cell: Cell) -> bool
        ensures { result ≡ is_of cell.order cell.npix self.now }
    {
        self.cell.order() == cell.order() && self.cell.npix() == cell.npix()
    }

    // The tile, if it has rows.
    fn with_rows(&self) -> Option<&Tile>
        ensures some { IfSome result (λ tile. (tile.now ≡ self.now) × (0 < length self.now.rows)) }
        ensures none { IfNone result (self.now.rows ≡ []) }
    {
        if self.rows.len() == 0 {
            None
        } else {
            Some(self)
        }
    }
}

/// The cell's tile and its place, or else the place where it would be.
pub(crate) fn find(tiles: &Tiles, cell: Cell) -> Result<(usize, &Tile), usize>
    requires { AreListed tiles.now }
    ensures there { IfOk result (λ found. HasTile tiles.now found.0 cell) }
    ensures rows { IfOk result (λ found. rows_at tiles.now cell.order cell.npix ≡ sources found.1.now.rows) }
    ensures cell { IfOk result (λ found. found.1.now.cell ≡ cell) }
    ensures gap { IfErr result (λ at. IsGap tiles.now at cell) }
{
    let (at, there) = tiles.search(&Later(cell.uniq()));
    match there {
        Some(tile) => {
            if tile.is_of(cell) {
                Ok((at, tile))
            } else {
                Err(at)
            }
        }
        None => Err(at),
    }
}

// The place of the cell's tile, which has rows, and the tile.
fn with_place(tiles: &Tiles, cell: Cell) -> (usize, &Tile)
    requires listed { AreListed tiles.now }
    requires some { 0 < length (rows_at tiles.now cell.order cell.npix) }
    ensures there { HasTile tiles.now result.0 cell }
    ensures rows { rows_at tiles.now cell.order cell.npix ≡ sources result.1.now.rows }
{
    match find(tiles, cell) {
        Ok(found) => found,
        Err(_) => unreachable!(),
    }
}

// Takes the cell's tile out for a change of its rows. Until it is swapped back, one without rows is in its place.
fn lift(tiles: &mut Tiles, cell: Cell, at: usize) -> Tile
    requires listed { AreListed tiles.old }
    requires there { HasTile tiles.old at cell }
    ensures rows { rows_at tiles.old cell.order cell.npix ≡ sources result.rows }
    ensures count { length (rows_at tiles.old cell.order cell.npix) ≡ length result.rows }
    ensures within { at < length tiles.new }
    ensures back { (tile : Tile) → tile.cell ≡ result.cell → HasNewRows cell (sources tile.rows) tiles.old (slice_set tiles.new at tile) }
{
    let mut tile = Tile {
        cell,
        rows: TileRows::new(),
    };
    tiles.swap(at, &mut tile);
    tile
}

/// Puts a row into the cell's tile, which is there.
pub(crate) fn put(tiles: &mut Tiles, cell: Cell, at: usize, i: usize, row: Item<Ranked>)
    requires listed { AreListed tiles.old }
    requires there { HasTile tiles.old at cell }
    requires place { i ≤ length (rows_at tiles.old cell.order cell.npix) }
    requires fits { length (rows_at tiles.old cell.order cell.npix) + 1 < 2 ^ 64 }
    ensures rows { rows_at tiles.new cell.order cell.npix ≡ insert (rows_at tiles.old cell.order cell.npix) i (arc_value row) }
    ensures others { OthersStay cell.order cell.npix tiles.old tiles.new }
    ensures listed { AreListed tiles.new }
    ensures cells { HasSameCells tiles.old tiles.new }
{
    let mut tile = lift(tiles, cell, at);
    tile.rows.insert(i, row);
    tiles.swap(at, &mut tile);
}

/// Takes a row out of the cell's tile, which stays there even if it has no other.
pub(crate) fn take(tiles: &mut Tiles, cell: Cell, at: usize, i: usize) -> Item<Ranked>
    requires listed { AreListed tiles.old }
    requires there { HasTile tiles.old at cell }
    requires place { i < length (rows_at tiles.old cell.order cell.npix) }
    ensures rows { rows_at tiles.new cell.order cell.npix ≡ remove (rows_at tiles.old cell.order cell.npix) i }
    ensures row { arc_value result ≡ slice_index_or (rows_at tiles.old cell.order cell.npix) i (arc_value result) }
    ensures others { OthersStay cell.order cell.npix tiles.old tiles.new }
    ensures listed { AreListed tiles.new }
    ensures cells { HasSameCells tiles.old tiles.new }
{
    let mut tile = lift(tiles, cell, at);
    let row = tile.rows.remove(i);
    tiles.swap(at, &mut tile);
    row
}

// Puts a row in the place of the first one of the cell's tile, which comes out.
fn exchange(tiles: &mut Tiles, cell: Cell, at: usize, row: Item<Ranked>) -> Item<Ranked>
    requires listed { AreListed tiles.old }
    requires there { HasTile tiles.old at cell }
    requires some { 0 < length (rows_at tiles.old cell.order cell.npix) }
    ensures rows { rows_at tiles.new cell.order cell.npix ≡ arc_value row ∷ drop 1 (rows_at tiles.old cell.order cell.npix) }
    ensures first { Some (arc_value result) ≡ slice_get (rows_at tiles.old cell.order cell.npix) 0 }
    ensures others { OthersStay cell.order cell.npix tiles.old tiles.new }
    ensures listed { AreListed tiles.new }
    ensures cells { HasSameCells tiles.old tiles.new }
{
    let mut tile = lift(tiles, cell, at);
    let first = tile.rows.exchange(0, row);
    tiles.swap(at, &mut tile);
    first
}

/// The rows of the cell's tile; `None` where there is no tile.
pub(crate) fn rows(tiles: &Tiles, cell: Cell) -> Option<&TileRows>
    requires { AreListed tiles.now }
    ensures { MatchOption result (rows_at tiles.now cell.order cell.npix ≡ []) (λ rows. rows_at tiles.now cell.order cell.npix ≡ sources rows.now) }
{
    match find(tiles, cell) {
        Ok((_at, tile)) => Some(&tile.rows),
        Err(_) => None,
    }
}

// The best tile of some cells, or the child's tile if that has a better first row.
fn better_of<'a>(tiles: &'a Tiles, best: Option<&'a Tile>, child: Cell) -> Option<&'a Tile>
    requires { AreListed tiles.now }
    ensures { (cells : List NestedCell) → IsBestTile tiles.now (option_copied best.entry) cells → IsBestTile tiles.now (option_copied result) (child ∷ cells) }
{
    match find(tiles, child) {
        Err(_) => best,
        Ok((_at, tile)) => match best {
            None => tile.with_rows(),
            Some(other) => {
                if tile.rows.begins_better(&other.rows) {
                    Some(tile)
                } else {
                    best
                }
            }
        },
    }
}

// The child's tile that has the best first row; `None` where no child's tile has rows.
fn best_tile(tiles: &Tiles, cell: Cell) -> Option<&Tile>
    requires listed { AreListed tiles.now }
    requires order { cell.order < 20 }
    ensures { IsBestTile tiles.now (option_copied result) (child_cell cell 3 ∷ child_cell cell 2 ∷ child_cell cell 1 ∷ child_cell cell 0 ∷ []) }
{
    let best = better_of(tiles, None, cell.child(0));
    let best = better_of(tiles, best, cell.child(1));
    let best = better_of(tiles, best, cell.child(2));
    better_of(tiles, best, cell.child(3))
}

/// The child of the cell whose tile has the best first row; `None` where no child's tile has rows.
pub(crate) fn best_child(tiles: &Tiles, cell: Cell) -> Option<Cell>
    requires listed { AreListed tiles.now }
    requires order { cell.order < 20 }
    ensures { IsBest tiles.now result (child_cell cell 3 ∷ child_cell cell 2 ∷ child_cell cell 1 ∷ child_cell cell 0 ∷ []) }
{
    match best_tile(tiles, cell) {
        Some(tile) => Some(tile.cell),
        None => None,
    }
}

// Makes the tile of a cell that has none, with one row.
fn add(tiles: &mut Tiles, at: usize, cell: Cell, row: Item<Ranked>, mut spare: Item<Tile>)
    requires listed { AreListed tiles.old }
    requires gap { IsGap tiles.old at cell }
    ensures rows { rows_at tiles.new cell.order cell.npix ≡ arc_value row ∷ [] }
    ensures others { OthersStay cell.order cell.npix tiles.old tiles.new }
    ensures listed { AreListed tiles.new }
    ensures full { NoneIsEmpty tiles.old → NoneIsEmpty tiles.new }
{
    // For the prover: what a cell is.
    let _order = cell.order();
    let mut rows = TileRows::new();
    rows.insert(0, row);
    spare.set(Tile { cell, rows });
    tiles.insert(at, spare);
}

// Puts a row among others at its place there; the last row, if there are then more than there is room for.
fn put_among(rows: &mut TileRows, i: usize, row: Item<Ranked>, room: usize) -> Option<Item<Ranked>>
    requires place { i ≡ leading (λ s. is_better s (arc_value row)) (sources rows.old) }
    requires room { length (sources rows.old) ≤ room }
    requires fits { length rows.old + 1 < 2 ^ 64 }
    ensures rows { sources rows.new ≡ first_of room (placed (arc_value row) (sources rows.old)) }
    ensures out { option_map arc_value result ≡ slice_get (placed (arc_value row) (sources rows.old)) room }
{
    rows.insert(i, row);
    if rows.len() > room {
        Some(rows.remove(room))
    } else {
        None
    }
}

// Puts a row into the cell's tile at its place there; the last row, if the tile has then more than there is room for.
fn offer_to(
    tiles: &mut Tiles,
    cell: Cell,
    at: usize,
    i: usize,
    row: Item<Ranked>,
    room: usize,
) -> Option<Item<Ranked>>
    requires listed { AreListed tiles.old }
    requires there { HasTile tiles.old at cell }
    requires place { i ≡ leading (λ s. is_better s (arc_value row)) (rows_at tiles.old cell.order cell.npix) }
    requires room { length (rows_at tiles.old cell.order cell.npix) ≤ room }
    requires fits { length (rows_at tiles.old cell.order cell.npix) + 1 < 2 ^ 64 }
    requires some { 0 < room }
    ensures rows { rows_at tiles.new cell.order cell.npix ≡ first_of room (placed (arc_value row) (rows_at tiles.old cell.order cell.npix)) }
    ensures out { option_map arc_value result ≡ slice_get (placed (arc_value row) (rows_at tiles.old cell.order cell.npix)) room }
    ensures others { OthersStay cell.order cell.npix tiles.old tiles.new }
    ensures listed { AreListed tiles.new }
    ensures full { NoneIsEmpty tiles.old → NoneIsEmpty tiles.new }
{
    if i == room {
        return Some(row);
    }
    let mut tile = lift(tiles, cell, at);
    let last = put_among(&mut tile.rows, i, row, room);
    tiles.swap(at, &mut tile);
    last
}

/// Places a row in the cell's tile, which is made of the spare one where there is none; the last row, if the tile has more
/// than there is room for.
pub(crate) fn offer(
    tiles: &mut Tiles,
    cell: Cell,
    row: Item<Ranked>,
    room: usize,
    spare: &mut Option<Item<Tile>>,
) -> Option<Item<Ranked>>
    requires listed { AreListed tiles.old }
    requires in_order { HoldsAtFirst (λ s. is_better s (arc_value row)) (rows_at tiles.old cell.order cell.npix) }
    requires room { length (rows_at tiles.old cell.order cell.npix) ≤ room }
    requires fits { length (rows_at tiles.old cell.order cell.npix) + 1 < 2 ^ 64 }
    requires some { 0 < room }
    requires spare { IsSome spare.old }
    ensures rows { rows_at tiles.new cell.order cell.npix ≡ first_of room (placed (arc_value row) (rows_at tiles.old cell.order cell.npix)) }
    ensures out { option_map arc_value result ≡ slice_get (placed (arc_value row) (rows_at tiles.old cell.order cell.npix)) room }
    ensures others { OthersStay cell.order cell.npix tiles.old tiles.new }
    ensures listed { AreListed tiles.new }
    ensures full { NoneIsEmpty tiles.old → NoneIsEmpty tiles.new }
    ensures spare { OnSome result (IsSome spare.new) }
{
    match find(tiles, cell) {
        Ok((at, tile)) => {
            let i = tile.rows.place_of(row.item().row());
            offer_to(tiles, cell, at, i, row, room)
        }
        Err(at) => match spare.take() {
            Some(tile) => {
                add(tiles, at, cell, row, tile);
                None
            }
            None => Some(row),
        },
    }
}

/// The place of a row in the cell's tile, and whether a row with its rank and id is there.
pub(crate) fn seek(tiles: &Tiles, cell: Cell, row: &Row) -> (usize, bool)
    requires { AreListed tiles.now }
    ensures place { HoldsAtFirst (λ s. is_better s row.now) (rows_at tiles.now cell.order cell.npix) → result.0 ≡ leading (λ s. is_better s row.now) (rows_at tiles.now cell.order cell.npix) }
    ensures yes { result.1 ≡ true → (s : Source) × (slice_get (rows_at tiles.now cell.order cell.npix) result.0 ≡ Some s) × (is_better s row.now ≡ false) × (is_better row.now s ≡ false) }
    ensures no { result.1 ≡ false → ¬ (slice_get (rows_at tiles.now cell.order cell.npix) result.0 ≡ Some row.now) }
{
    match rows(tiles, cell) {
        Some(rows) => rows.seek(row),
        None => (0, false),
    }
}

/// Takes row `i` out of the cell's tile, puts the child's first row at its end, and the row that was taken out in that one's
/// place.
pub(crate) fn pull(tiles: &mut Tiles, cell: Cell, i: usize, child: Cell)
    requires listed { AreListed tiles.old }
    requires place { i < length (rows_at tiles.old cell.order cell.npix) }
    requires first { IsSome (first_at tiles.old child) }
    requires orders { child.order ≡ cell.order + 1 }
    ensures cell { (z : Source) → first_at tiles.old child ≡ Some z → rows_at tiles.new cell.order cell.npix ≡ remove (rows_at tiles.old cell.order cell.npix) i ++ z ∷ [] }
    ensures child { (dead : Source) × (rows_at tiles.new child.order child.npix ≡ dead ∷ drop 1 (rows_at tiles.old child.order child.npix)) }
    ensures others { OthersStayButTwo cell child tiles.old tiles.new }
    ensures listed { AreListed tiles.new }
    ensures full { NoneIsEmpty tiles.old → NoneIsEmpty tiles.new }
{
    let (upper, tile) = with_place(tiles, cell);
    let last = tile.rows.len() - 1;
    let (lower, _tile) = with_place(tiles, child);
    let dead = take(tiles, cell, upper, i);
    let best = exchange(tiles, child, lower, dead);
    put(tiles, cell, upper, last, best);
}

/// Takes row `i` out of the cell's tile, and the tile too where it has no other.
pub(crate) fn take_out(tiles: &mut Tiles, cell: Cell, i: usize)
    requires listed { AreListed tiles.old }
    requires place { i < length (rows_at tiles.old cell.order cell.npix) }
    ensures rows { rows_at tiles.new cell.order cell.npix ≡ remove (rows_at tiles.old cell.order cell.npix) i }
    ensures others { OthersStay cell.order cell.npix tiles.old tiles.new }
    ensures listed { AreListed tiles.new }
    ensures full { NoneIsEmpty tiles.old → NoneIsEmpty tiles.new }
{
    let (at, tile) = with_place(tiles, cell);
    if tile.rows.len() == 1 {
        let _tile = tiles.remove(at);
        return;
    }
    let _row = take(tiles, cell, at, i);
}
