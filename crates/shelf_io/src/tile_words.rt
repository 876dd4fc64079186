//! What is wrong with a tile's file, in words for whoever made it. No clause covers the text; tests do.
use fits_header::HeaderFault;
use fits_tile::TileFault;
use std::fmt;

// The number of bytes of a card (FITS 4.0, section 4.1.1).
const CARD_LEN: usize = 80;

// Where the value of a card begins.
const VALUE_AT: usize = 10;

/// A fault of a file in words, with the card where it is, as in `card 6, BLANK = -32768.0: not a whole number`. All but
/// printable ASCII is shown as `\xff` and the like.
#[derive(Clone, Copy)]
pub(crate) struct TileWords<'a> {
    file: &'a [u8],
    fault: TileFault,
}

impl<'a> TileWords<'a> {
    /// The words for the fault of this file.
    pub(crate) fn new(file: &'a [u8], fault: TileFault) -> TileWords<'a> {
        TileWords { file, fault }
    }
}

impl<'a> fmt::Display for TileWords<'a> {
    fn fmt<W: fmt::Write>(&self, f: &mut fmt::Formatter<W>) -> fmt::Result {
        match self.fault {
            TileFault::Header(fault) => fmt_header(self.file, fault, f),
            TileFault::NotSimple => f.write_str("card 1 isn't SIMPLE = T"),
            TileFault::Bitpix { found } => fmt_bitpix(found, f),
            TileFault::Naxis { found } => fmt_other("NAXIS", found, "2", f),
            TileFault::Width { axis: 1, found } => {
                fmt_other("NAXIS1", found, "hips_tile_width", f)
            }
            TileFault::Width { found, .. } => fmt_other("NAXIS2", found, "hips_tile_width", f),
            TileFault::Scale => f.write_str("BSCALE isn't survey_bscale"),
            TileFault::Zero => f.write_str("BZERO isn't survey_bzero"),
            TileFault::Blank { found } => write!(f, "BLANK = {found} isn't survey_blank"),
            TileFault::Truncated { missing } => write!(f, "{missing} bytes of pixels are missing"),
            TileFault::Trailing { extra } => {
                write!(f, "{extra} bytes too many follow the pixels")
            }
        }
    }
}

// Why a file has no header that can be read.
fn fmt_header<W: fmt::Write>(
    file: &[u8],
    fault: HeaderFault,
    f: &mut fmt::Formatter<W>,
) -> fmt::Result {
    match fault {
        HeaderFault::Short => f.write_str("it ends within its header"),
        HeaderFault::NotAscii { at } => write!(f, "byte {at} of the header isn't printable ASCII"),
        HeaderFault::NoEnd => f.write_str("the header has no card END"),
        HeaderFault::BadValue { card } => {
            fmt_card(file, card, f)?;
            f.write_str(wanted(keyword(file, card)))
        }
        HeaderFault::Twice { card } => {
            fmt_card(file, card, f)?;
            f.write_str("an earlier card has this keyword")
        }
    }
}

// A card, counted from 1, up to what is wrong with it.
fn fmt_card<W: fmt::Write>(file: &[u8], card: u32, f: &mut fmt::Formatter<W>) -> fmt::Result {
    let (keyword, value) = (keyword(file, card), value(file, card));
    let (keyword, value) = (keyword.escape_ascii(), value.escape_ascii());
    write!(f, "card {card}, {keyword} = {value}: ")
}

// What a card with this keyword must have.
fn wanted(keyword: &[u8]) -> &'static str {
    match keyword {
        b"SIMPLE" => "neither T nor F",
        b"BSCALE" | b"BZERO" => "not a real number of at most 18 digits",
        _ => "not a whole number",
    }
}

fn keyword(file: &[u8], card: u32) -> &[u8] {
    let written = written_in(file, card).split(|byte| *byte == b'=').next();
    written.unwrap_or(&[]).trim_ascii()
}

// The value, with the comment that may follow.
fn value(file: &[u8], card: u32) -> &[u8] {
    let written = written_in(file, card).get(VALUE_AT..);
    written.unwrap_or(&[]).trim_ascii()
}

// What is written in a card, counted from 1.
fn written_in(file: &[u8], card: u32) -> &[u8] {
    let cards = file.chunks(CARD_LEN);
    cards
        .skip(card.saturating_sub(1) as usize)
        .next()
        .unwrap_or(&[])
}

// The pixels of a file aren't of the survey's depth.
fn fmt_bitpix<W: fmt::Write>(found: Option<i64>, f: &mut fmt::Formatter<W>) -> fmt::Result {
    match found {
        Some(found) if found < 0 => {
            write!(
                f,
                "BITPIX = {found}, floating-point pixels: have HipsGen make it again with hips_pixel_bitpix=16 or 32"
            )
        }
        _ => fmt_other("BITPIX", found, "survey_bitpix", f),
    }
}

// A card has another number than it must have, or isn't there.
fn fmt_other<W: fmt::Write>(
    keyword: &str,
    found: Option<i64>,
    wanted: &str,
    f: &mut fmt::Formatter<W>,
) -> fmt::Result {
    match found {
        Some(found) => write!(f, "{keyword} = {found} isn't {wanted}"),
        None => write!(f, "there is no card {keyword}"),
    }
}
