//! Laws of the definitions, as functions that do nothing: the contract of each is its law.
ghost use Rattle.std.specs.Prelude.{ℕ, ◌≤◌};
ghost use Rattle.hips_catalog.specs.Laws.{RowIsRead, EachRowStandsInOneTile, TilesHoldRowsInOrder, BetterRowsStandAbove};

use decimal_scale::laws::plain_is_read;

/// The line that is written of a row is read as that row, and nothing else is read as a row.
pub fn row_is_read()
    ensures { (top : ℕ) → top ≤ 11 → RowIsRead top }
{
    plain_is_read();
}

/// Each row of a catalogue is in exactly one tile, that of a cell which its own cell lies under.
pub fn each_row_stands_in_one_tile()
    ensures { EachRowStandsInOneTile }
{}

/// A tile holds rows of its catalogue and nothing else, the better ones first, and none twice.
pub fn tiles_hold_rows_in_order()
    ensures { TilesHoldRowsInOrder }
{}

/// Above a tile that exists, each tile on the path up from its cell is full, and all its rows are better. So the tiles of the
/// lowest orders show the best rows.
pub fn better_rows_stand_above()
    ensures { BetterRowsStandAbove }
{}
