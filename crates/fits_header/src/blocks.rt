//! The cards of a header, and whole blocks.
ghost use Rattle.std.specs.Prelude.{◌≡◌, ◌+◌, ◌^◌, ◌<◌, ◌≤◌, position, take};
ghost use Rattle.std.specs.List.{list_all};
ghost use Rattle.fits_header.specs.Cards.{is_end_card, whole_blocks};
ghost use Rattle.fits_header.specs.Reading.{place_not_ascii, is_text_byte};

/// The length of a card in bytes.
pub const CARD_LEN: usize = 80;

/// The length of a block in bytes.
pub const BLOCK_LEN: usize = 2_880;

/// The greatest length of a header that is read: 36 blocks.
pub(crate) const MAX_HEADER_LEN: usize = 36 * BLOCK_LEN;

// The cards of the greatest header.
const MAX_CARDS: usize = MAX_HEADER_LEN / CARD_LEN;

/// A length rounded up to whole blocks of 2,880 bytes (FITS 4.0, section 3.1).
pub fn whole_blocks(len: usize) -> usize
    requires { len + 2879 < 2 ^ 64 }
    ensures len { result ≡ whole_blocks len }
    ensures covers { len ≤ result }
{
    (len + (BLOCK_LEN - 1)) / BLOCK_LEN * BLOCK_LEN
}

/// How many cards stand before the end card; `None` if and only if none of the first 1,296 cards is an end card.
pub(crate) fn cards_before_end(cards: &[[u8; CARD_LEN]]) -> Option<usize>
    ensures { result ≡ position is_end_card (take 1296 cards.now) }
{
    first_end_card(&cards[..cards.len().min(MAX_CARDS)])
}

fn first_end_card(cards: &[[u8; CARD_LEN]]) -> Option<usize>
    ensures { result ≡ position is_end_card cards.now }
{
    cards.iter().position(|card| is_end_card(card))
}

fn is_end_card(card: &[u8; CARD_LEN]) -> bool
    ensures { result ≡ is_end_card card.now }
{
    card.starts_with(b"END     ")
}

/// Where the first byte stands that is no printable ASCII.
pub(crate) fn place_not_ascii(bytes: &[u8]) -> Option<usize>
    ensures { result ≡ place_not_ascii bytes.now }
{
    if are_text_bytes(bytes) {
        return None;
    }
    bytes.iter().position(|byte| !is_text_byte(*byte))
}

// Whether all bytes are printable ASCII. It looks at each, and so at many at once.
fn are_text_bytes(bytes: &[u8]) -> bool
    ensures { result ≡ list_all is_text_byte bytes.now }
{
    let mut all = true;
    for byte in bytes {
        all &= is_text_byte(*byte);
    }
    all
}

fn is_text_byte(byte: u8) -> bool
    ensures { result ≡ is_text_byte byte }
{
    matches!(byte, b' '..=b'~')
}
