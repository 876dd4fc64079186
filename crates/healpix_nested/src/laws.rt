//! What follows from the definitions alone. Each function does nothing: its contract is the law.
ghost use Rattle.std.specs.Prelude.{◌≡◌};
ghost use Rattle.healpix_nested.specs.Cells.{greatest_order};
ghost use Rattle.healpix_nested.specs.Laws.{OrdersByOrderAndNumber, StoredNumbersComeBack, NumbersZComeBack, InterleavingIsARuleOnBits, UniqNumbersDiffer, CellsNest, FourStandInASquare};

use crate::cell::{Cell, MAX_ORDER};

/// The greatest order is 20.
pub fn the_greatest_order_is_20()
    ensures { MAX_ORDER ≡ greatest_order }
{}

/// Cells are ordered by order, and those of one order by number.
pub fn cells_are_ordered_by_order_and_number()
    ensures { OrdersByOrderAndNumber ⟦<Cell as Ord>⟧.cmp }
{}

/// The stored numbers of a tile of at most 512 columns go to numbers z of the tile, no two to the same.
pub fn stored_numbers_come_back()
    ensures { StoredNumbersComeBack }
{}

/// The numbers z of a tile of at most 512 columns go to stored numbers of the tile, no two to the same.
pub fn numbers_z_come_back()
    ensures { NumbersZComeBack }
{}

/// The rule on bits, line in the even places and column in the odd, names one number: z(col, row).
pub fn interleaving_is_a_rule_on_bits()
    ensures { InterleavingIsARuleOnBits }
{}

/// Two cells with one `uniq` are one cell.
pub fn uniq_numbers_differ()
    ensures { UniqNumbersDiffer }
{}

/// A cell lies under one cell of each order up to its own, and the cells right under it are its four children.
pub fn cells_nest()
    ensures { CellsNest }
{}

/// Children of a place are numbered down the first column of their square, and then down the second.
pub fn four_stand_in_a_square()
    ensures { FourStandInASquare }
{}
