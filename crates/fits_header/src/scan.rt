//! One pass over the cards of a header.
ghost use Rattle.std.specs.Prelude.{◌≡◌, ℕ, ◌+◌, ◌<◌, List, [], length, slice_index_or, true, false, is_some, OnOk, IfErr, if◌then◌else◌};
ghost use Rattle.std.specs.Option.{option_or};
ghost use Rattle.fits_header.specs.Values.{takes};
ghost use Rattle.fits_header.specs.Reading.{begins_simple, is_bad};
ghost use Rattle.fits_header.specs.Scan.{read_cards, with_value, has_keyword, no_values};
ghost use Rattle.fits_header.specs.Scanned.{IsScanned};
ghost use Rattle.fits_header.specs.declared.fault.HeaderFault.TheVariants.{BadValue};

use crate::blocks::CARD_LEN;
use crate::fault::HeaderFault;
use crate::header::Header;
use crate::keyword::Keyword;
use crate::value::{logical, real, value_text};
use decimal_scale::whole_number;

// What the cards say so far.
#[derive(Drop)]
struct Scan {
    header: Header,
    repeated: Option<u32>,
}

/// The values of the cards before the end card.
///
/// # Errors
///
/// `BadValue` with the least card that has no value of its kind; else `Twice` with the least that repeats a keyword.
pub(crate) fn read_cards(cards: &[[u8; CARD_LEN]]) -> Result<Header, HeaderFault>
    requires { length cards.now < 1296 }
    ensures { result ≡ read_cards cards.now }
{
    let mut scan = Scan {
        header: no_values(begins_simple(cards)),
        repeated: None,
    };
    for (place, card) in cards.iter().enumerate() {
        scan.take_card(place, card)?;
    }
    match scan.repeated {
        Some(card) => Err(HeaderFault::Twice { card }),
        None => Ok(scan.header),
    }
}

// Whether the first card is a named card SIMPLE.
fn begins_simple(cards: &[[u8; CARD_LEN]]) -> bool
    ensures { result ≡ begins_simple cards.now }
{
    match cards {
        [] => false,
        [first, ..] => Keyword::Simple.names(first),
    }
}

fn no_values(first_simple: bool) -> Header
    ensures { result ≡ no_values first_simple }
{
    Header {
        first_simple,
        simple: None,
        bitpix: None,
        naxis: None,
        naxis1: None,
        naxis2: None,
        bscale: None,
        bzero: None,
        blank: None,
    }
}

impl Scan {
    // Takes the card at that place, from 0. A bad one is the fault.
    fn take_card(&mut self, place: usize, card: &[u8; CARD_LEN]) -> Result<(), HeaderFault>
        requires { place < 1296 }
        ensures accepted { OnOk result (is_bad card.now ≡ false) }
        ensures refused { IfErr result (λ fault. (is_bad card.now ≡ true) × (fault ≡ BadValue (place + 1))) }
        ensures scanned { OnOk result ((cards : List (List ℕ)) → place < length cards
            → slice_index_or cards place [] ≡ card.now → IsScanned cards place self.old → IsScanned cards (place + 1) self.new) }
    {
        match Keyword::of(card) {
            None => Ok(()),
            Some(keyword) => match value_text(card) {
                None => Err(HeaderFault::BadValue {
                    card: number_of(place),
                }),
                Some(text) => self.take_value(place, keyword, text),
            },
        }
    }

    // Takes the value text of a named card.
    fn take_value(&mut self, place: usize, keyword: Keyword, text: &[u8]) -> Result<(), HeaderFault>
        requires { place < 1296 }
        ensures outcome { result ≡ (if takes keyword text.now then Ok tt else Err (BadValue (place + 1))) }
        ensures header { self.new.header ≡ with_value keyword text.now self.old.header }
        ensures repeated { self.new.repeated ≡ option_or self.old.repeated
            (if has_keyword keyword self.old.header then Some (place + 1) else None) }
    {
        if self.header.has(keyword) {
            self.repeated = self.repeated.or(Some(number_of(place)));
        }
        if self.header.put(keyword, text) {
            Ok(())
        } else {
            Err(HeaderFault::BadValue {
                card: number_of(place),
            })
        }
    }
}

// The number of the card at that place: cards are counted from 1.
fn number_of(place: usize) -> u32
    requires { place < 1296 }
    ensures { result ≡ place + 1 }
{
    place as u32 + 1
}

impl Header {
    // Whether the keyword has a value.
    fn has(&self, keyword: Keyword) -> bool
        ensures { result ≡ has_keyword keyword self.now }
    {
        match keyword {
            Keyword::Simple => self.simple.is_some(),
            Keyword::Bitpix => self.bitpix.is_some(),
            Keyword::Naxis => self.naxis.is_some(),
            Keyword::Naxis1 => self.naxis1.is_some(),
            Keyword::Naxis2 => self.naxis2.is_some(),
            Keyword::Bscale => self.bscale.is_some(),
            Keyword::Bzero => self.bzero.is_some(),
            Keyword::Blank => self.blank.is_some(),
        }
    }

    // Gives the keyword the value of the text, unless it has one. Whether the text is a value of its kind.
    fn put(&mut self, keyword: Keyword, text: &[u8]) -> bool
        ensures taken { result ≡ takes keyword text.now }
        ensures after { self.new ≡ with_value keyword text.now self.old }
    {
        match keyword {
            Keyword::Simple => fill(&mut self.simple, logical(text)),
            Keyword::Bitpix => fill(&mut self.bitpix, whole_number(text)),
            Keyword::Naxis => fill(&mut self.naxis, whole_number(text)),
            Keyword::Naxis1 => fill(&mut self.naxis1, whole_number(text)),
            Keyword::Naxis2 => fill(&mut self.naxis2, whole_number(text)),
            Keyword::Bscale => fill(&mut self.bscale, real(text)),
            Keyword::Bzero => fill(&mut self.bzero, real(text)),
            Keyword::Blank => fill(&mut self.blank, whole_number(text)),
        }
    }
}

// Fills a slot that is empty. Whether there is a value.
fn fill<T: Copy>(slot: &mut Option<T>, value: Option<T>) -> bool
    ensures value { result ≡ is_some value }
    ensures after { slot.new ≡ option_or slot.old value }
{
    *slot = slot.or(value);
    value.is_some()
}
