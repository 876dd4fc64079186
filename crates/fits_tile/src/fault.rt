//! Why a file is no tile.
ghost use Rattle.std.specs.Prelude.{Some};
ghost use Rattle.fits_tile.specs.Faults.{fault_text, found_text, refusal_text};

use fits_header::HeaderFault;
use std::error::Error;
use std::fmt;

/// Why a file is not a tile of the survey. Where several stand, it is the first of these. It is shown as its number from 1,
/// a word, and what was found, as in `3 bitpix 8`; `none` was found where the card is absent.
#[derive(Clone, Copy, Debug, PartialEq, Eq, Hash)]
pub enum TileFault {
    /// The file does not begin with a header that can be read.
    Header(HeaderFault),
    /// Card 1 is not SIMPLE, or SIMPLE is F.
    NotSimple,
    /// BITPIX is absent or not the survey's.
    Bitpix {
        /// What it is.
        found: Option<i64>,
    },
    /// NAXIS is absent or not 2.
    Naxis {
        /// What it is.
        found: Option<i64>,
    },
    /// NAXIS1, or else NAXIS2, is absent or not the width of the survey's tiles.
    Width {
        /// 1 or 2.
        axis: u8,
        /// What it is.
        found: Option<i64>,
    },
    /// BSCALE, 1 where absent, is not the survey's.
    Scale,
    /// BZERO, 0 where absent, is not the survey's.
    Zero,
    /// BLANK is there and not the survey's.
    Blank {
        /// What it is.
        found: i64,
    },
    /// Fewer bytes follow the header than the stored numbers take.
    Truncated {
        /// How many are missing.
        missing: u64,
    },
    /// More bytes follow the header than the stored numbers take when they are filled up to whole blocks.
    Trailing {
        /// How many there are too many.
        extra: u64,
    },
}

impl fmt::Display for TileFault {
    ghost output = { λ fault. Some (fault_text fault) };

    fn fmt<W: fmt::Write>(&self, f: &mut fmt::Formatter<W>) -> fmt::Result {
        match self {
            TileFault::Header(fault) => write!(f, "1 header {fault}"),
            TileFault::NotSimple => f.write_str("2 simple"),
            TileFault::Bitpix { found } => write!(f, "3 bitpix {}", Found { number: *found }),
            TileFault::Naxis { found } => write!(f, "4 naxis {}", Found { number: *found }),
            TileFault::Width { axis, found } => {
                write!(f, "5 width {axis} {}", Found { number: *found })
            }
            TileFault::Scale => f.write_str("6 scale"),
            TileFault::Zero => f.write_str("7 zero"),
            TileFault::Blank { found } => write!(f, "8 blank {found}"),
            TileFault::Truncated { missing } => write!(f, "9 truncated {missing}"),
            TileFault::Trailing { extra } => write!(f, "10 trailing {extra}"),
        }
    }
}

impl Error for TileFault {}

// The value that a card has, or none.
#[derive(Clone, Copy)]
struct Found {
    number: Option<i64>,
}

impl fmt::Display for Found {
    ghost output = { λ found. Some (found_text found.number) };

    fn fmt<W: fmt::Write>(&self, f: &mut fmt::Formatter<W>) -> fmt::Result {
        match self.number {
            Some(number) => write!(f, "{number}"),
            None => f.write_str("none"),
        }
    }
}

/// Why no tile was read. It is shown as the text of its fault, or as `out of memory`.
#[derive(Clone, Copy, Debug, PartialEq, Eq)]
pub enum TileRefusal {
    /// The file is not a tile of the survey.
    Fault(TileFault),
    /// There was no memory for the numbers.
    OutOfMemory,
}

impl fmt::Display for TileRefusal {
    ghost output = { λ refusal. Some (refusal_text refusal) };

    fn fmt<W: fmt::Write>(&self, f: &mut fmt::Formatter<W>) -> fmt::Result {
        match self {
            TileRefusal::Fault(fault) => write!(f, "{fault}"),
            TileRefusal::OutOfMemory => f.write_str("out of memory"),
        }
    }
}

impl Error for TileRefusal {}
