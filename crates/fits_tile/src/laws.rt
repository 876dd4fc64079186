//! What follows from the definitions alone: the contract of the function is the law.
ghost use Rattle.fits_tile.specs.Laws.{TilesAreReadAgain};

use fits_header::laws::{made_cards_are_cards, written_headers_are_read, written_values_are_read};

/// The file of a tile, of any survey and of any cell of order 0 to 11, is read as that tile's numbers.
pub fn tiles_are_read_again()
    ensures { TilesAreReadAgain }
{
    made_cards_are_cards();
    written_values_are_read();
    written_headers_are_read();
}
