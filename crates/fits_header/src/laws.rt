//! What follows from the definitions alone. Each function does nothing: its contract is the law.
ghost use Rattle.fits_header.specs.Laws.{MadeCardsAreCards, WrittenValuesAreRead, WrittenHeadersAreRead};

use decimal_scale::laws::{whole_is_read, written_is_read};

/// What the makers of cards make is 80 bytes of printable ASCII.
pub fn made_cards_are_cards()
    ensures { MadeCardsAreCards }
{}

/// The value that is written in a card is read again.
pub fn written_values_are_read()
    ensures { WrittenValuesAreRead }
{
    written_is_read();
    whole_is_read();
}

/// A header that is written is read by its cards, whatever follows it.
pub fn written_headers_are_read()
    ensures { WrittenHeadersAreRead }
{}
