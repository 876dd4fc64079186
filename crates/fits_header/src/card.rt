//! Cards that are written, and the header that they make.
ghost use Rattle.std.specs.Prelude.{◌≡◌, ℕ, ◌*◌, ◌+◌, ◌≤◌, List, ◌++◌, length, drop, IsTrue};
ghost use Rattle.std.specs.List.{concat};
ghost use Rattle.fits_header.specs.Cards.{whole_blocks};
ghost use Rattle.fits_header.specs.WrittenCards.{is_word, filled, keyword_columns, set_right, value_card, logical_card, integer_card, real_card, text_card, end_card};
ghost use Rattle.fits_header.specs.FitsFile.{header_text};

use crate::blocks::{CARD_LEN, whole_blocks};
use decimal_scale::Decimal;
use itoa::Buffer;
use std::marker::Model;

// How many columns stand before the value indicator, and before the value.
const INDICATOR_START: usize = 8;

const VALUE_START: usize = 10;

// The last column of a value in fixed format.
const VALUE_END: usize = 30;

// How many columns stand before the quote that ends a text.
const TEXT_END: usize = 19;

/// A card of a header that is written: 80 bytes of ASCII, each from 0x20 to 0x7E (FITS 4.0, section 4.1).
#[derive(Clone, Copy, Debug, PartialEq, Eq)]
pub struct Card {
    bytes: [u8; CARD_LEN],
}

impl Model for Card {
    ghost use Rattle.std.specs.Prelude.{List, ℕ};

    ghost Value = { List ℕ };

    ghost view = { λ c. c.bytes };

    ghost inverse = { λ v. record { bytes = v } };
}

impl Card {
    /// The card of a logical value: `T` or `F` in column 30. The keyword is 1 to 8 of A to Z and 0 to 9.
    pub fn logical(keyword: &[u8], v: bool) -> Card
        requires { IsTrue (is_word keyword.now) }
        ensures { result ≡ logical_card keyword.now v }
    {
        Card::in_fixed_format(keyword, if v { b"T" } else { b"F" })
    }

    /// The card of a whole number: plain decimals that end in column 30. The keyword is 1 to 8 of A to Z and 0 to 9.
    pub fn integer(keyword: &[u8], v: i64) -> Card
        requires { IsTrue (is_word keyword.now) }
        ensures { result ≡ integer_card keyword.now v }
    {
        let mut buffer = Buffer::new();
        Card::in_fixed_format(keyword, buffer.format(v).as_bytes())
    }

    /// The card of a real number, as `Decimal::text_into` writes it: ending in column 30 where it has at most 20 bytes,
    /// else beginning in column 11. The keyword is 1 to 8 of A to Z and 0 to 9.
    pub fn real(keyword: &[u8], v: &Decimal) -> Card
        requires { IsTrue (is_word keyword.now) }
        ensures { result ≡ real_card keyword.now v.now }
    {
        let mut text = [0; 26];
        let len = v.text_into(&mut text);
        Card::in_fixed_format(keyword, &text[..len])
    }

    /// The card of a text: a quote in column 11, the text filled with spaces to 8 characters, and a quote. The keyword and
    /// the text are 1 to 8 of A to Z and 0 to 9.
    pub fn text(keyword: &[u8], v: &[u8]) -> Card
        requires keyword { IsTrue (is_word keyword.now) }
        requires text { IsTrue (is_word v.now) }
        ensures { result ≡ text_card keyword.now v.now }
    {
        let mut bytes = with_keyword(keyword);
        put(&mut bytes, VALUE_START, b"'");
        put(&mut bytes, VALUE_START + 1, v);
        put(&mut bytes, TEXT_END, b"'");
        Card { bytes }
    }

    /// The end card: `END` and 77 spaces.
    pub fn end() -> Card
        ensures { result ≡ end_card }
    {
        let mut bytes = [b' '; CARD_LEN];
        put(&mut bytes, 0, b"END");
        Card { bytes }
    }

    // The card whose value ends in column 30, or begins in column 11 where it has more than 20 bytes.
    fn in_fixed_format(keyword: &[u8], value: &[u8]) -> Card
        requires keyword { length keyword.now ≤ 8 }
        requires value { length value.now ≤ 70 }
        ensures { result ≡ value_card keyword.now (set_right 20 value.now) }
    {
        let mut bytes = with_keyword(keyword);
        let start = VALUE_END.saturating_sub(value.len()).max(VALUE_START);
        put(&mut bytes, start, value);
        Card { bytes }
    }

    fn bytes(&self) -> &[u8]
        ensures bytes { result.now ≡ self.now }
        ensures len { length self.now ≡ 80 }
    {
        &self.bytes
    }
}

// A card that has nothing but the keyword and the value indicator.
#[tactic(auto, unfolding(crate::specs::WrittenCards::keyword_columns))]
fn with_keyword(keyword: &[u8]) -> [u8; CARD_LEN]
    requires { length keyword.now ≤ 8 }
    ensures { result ≡ filled 80 (keyword_columns keyword.now) }
{
    let mut bytes = [b' '; CARD_LEN];
    put(&mut bytes, 0, keyword);
    put(&mut bytes, INDICATOR_START, b"= ");
    bytes
}

// Puts a text over the spaces of a card.
fn put(card: &mut [u8; CARD_LEN], start: usize, text: &[u8])
    requires { start + length text.now ≤ 80 }
    ensures { (before : List ℕ) → length before ≤ start → card.old ≡ filled 80 before
        → card.new ≡ filled 80 (filled start before ++ text.now) }
{
    card[start..start + text.len()].copy_from_slice(text);
}

/// Writes a header at the front of `out`, the cards and then spaces up to a multiple of 2,880 bytes (FITS 4.0, section
/// 3.3.1), and says how many bytes that took. The rest stays.
#[tactic(auto, unfolding(crate::specs::FitsFile::header_text))]
pub fn write_cards(cards: &[Card], out: &mut [u8]) -> usize
    requires { whole_blocks (80 * length cards.now) ≤ length out.old }
    ensures len { result ≡ whole_blocks (80 * length cards.now) }
    ensures written { out.new ≡ header_text cards.now ++ drop result out.old }
{
    let used = CARD_LEN * cards.len();
    let len = whole_blocks(used);
    put_cards(cards, out);
    out[used..len].fill(b' ');
    len
}

// Puts the cards at the front.
fn put_cards(cards: &[Card], out: &mut [u8])
    requires { 80 * length cards.now ≤ length out.old }
    ensures len { length (concat cards.now) ≡ 80 * length cards.now }
    ensures written { out.new ≡ concat cards.now ++ drop (80 * length cards.now) out.old }
{
    for (place, card) in cards.iter().enumerate() {
        let start = CARD_LEN * place;
        out[start..start + CARD_LEN].copy_from_slice(card.bytes());
    }
}
