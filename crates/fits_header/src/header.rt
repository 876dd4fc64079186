//! A header that is read.
ghost use Rattle.std.specs.Prelude.{◌≡◌, List, ℕ, ◌%◌, ◌≤◌, ◌<◌, length, Some, None, take, IfOk};
ghost use Rattle.fits_header.specs.Cards.{cards_before_end, cards as cards_of};
ghost use Rattle.fits_header.specs.Reading.{read_header};

use crate::blocks::{CARD_LEN, MAX_HEADER_LEN, cards_before_end, place_not_ascii, whole_blocks};
use crate::fault::HeaderFault;
use crate::scan::read_cards;
use decimal_scale::Decimal;

/// The values of the eight keywords of a header that say what the data of an image are (FITS 4.0, sections 4.4.1 and
/// 4.4.2.5); `None` where no card has the keyword.
#[derive(Clone, Copy, Debug, PartialEq, Eq)]
pub struct Header {
    /// Whether card 1 is a named card SIMPLE.
    pub first_simple: bool,
    /// Whether the file conforms to the standard.
    pub simple: Option<bool>,
    /// The bits of a stored number; a float where negative.
    pub bitpix: Option<i64>,
    /// The number of axes.
    pub naxis: Option<i64>,
    /// The length of axis 1: the pixels of a line.
    pub naxis1: Option<i64>,
    /// The length of axis 2: the lines.
    pub naxis2: Option<i64>,
    /// What stored numbers are multiplied by.
    pub bscale: Option<Decimal>,
    /// What is added then.
    pub bzero: Option<Decimal>,
    /// The stored number of blank pixels.
    pub blank: Option<i64>,
}

impl Header {
    /// Reads the header at the front of the bytes: the values of its named keywords, and its length in bytes, a multiple
    /// of 2,880. A named card has one of the eight keywords in columns 1 to 8 and `= ` in columns 9 and 10; all other cards
    /// are skipped.
    ///
    /// # Errors
    ///
    /// The first of these: `Short` where the bytes are fewer than the header's, or than 103,680 where there is no end card;
    /// `NotAscii` where a byte before the end card, or of the first 103,680, is outside 0x20 to 0x7E; `NoEnd` where there
    /// is no end card; `BadValue` where a named card has no value of its keyword's kind; `Twice` where a named card has the
    /// keyword of an earlier one.
    pub fn read(bytes: &[u8]) -> Result<(Header, usize), HeaderFault>
        ensures outcome { result ≡ read_header bytes.now }
        ensures within { IfOk result (λ read. read.1 ≤ length bytes.now) }
        ensures blocks { IfOk result (λ read. read.1 % 2880 ≡ 0) }
    {
        let (cards, _) = bytes.as_chunks::<CARD_LEN>();
        match cards_before_end(cards) {
            Some(before) => read_to_end(bytes, &cards[..before]),
            None => Err(fault_without_end(bytes)),
        }
    }
}

// Reads the header that has these cards before its end card.
fn read_to_end(bytes: &[u8], cards: &[[u8; CARD_LEN]]) -> Result<(Header, usize), HeaderFault>
    requires before { cards_before_end bytes.now ≡ Some (length cards.now) }
    requires cards { cards.now ≡ take (length cards.now) (cards_of bytes.now) }
    ensures outcome { result ≡ read_header bytes.now }
    ensures within { IfOk result (λ read. read.1 ≤ length bytes.now) }
    ensures blocks { IfOk result (λ read. read.1 % 2880 ≡ 0) }
{
    let len = whole_blocks(CARD_LEN * (cards.len() + 1));
    if bytes.len() < len {
        return Err(HeaderFault::Short);
    }
    match place_not_ascii(&bytes[..CARD_LEN * cards.len()]) {
        Some(at) => Err(HeaderFault::NotAscii { at }),
        None => {
            let header = read_cards(cards)?;
            Ok((header, len))
        }
    }
}

// Why a text with no end card is no header.
fn fault_without_end(bytes: &[u8]) -> HeaderFault
    requires { cards_before_end bytes.now ≡ None }
    ensures { read_header bytes.now ≡ Err result }
{
    if bytes.len() < MAX_HEADER_LEN {
        return HeaderFault::Short;
    }
    match place_not_ascii(&bytes[..MAX_HEADER_LEN]) {
        Some(at) => HeaderFault::NotAscii { at },
        None => HeaderFault::NoEnd,
    }
}
