//! Why a text is no header.
ghost use Rattle.std.specs.Prelude.{Some};
ghost use Rattle.fits_header.specs.Faults.{fault_text};

use std::error::Error;
use std::fmt;

/// Why a text is no header. Where several stand, it is the first of these. It is shown as its number from 1, and where it
/// is, as in `2 7`.
#[derive(Clone, Copy, Debug, PartialEq, Eq, Hash)]
pub enum HeaderFault {
    /// The text is shorter than its header; or it has no end card and fewer than 103,680 bytes.
    Short,
    /// A byte before the end card, or among the first 103,680 where there is no end card, is no printable ASCII.
    NotAscii {
        /// The place of the first such byte, from 0.
        at: usize,
    },
    /// None of the first 1,296 cards is an end card.
    NoEnd,
    /// A named card has no value text of its kind.
    BadValue {
        /// The least such card, from 1.
        card: u32,
    },
    /// A named card has the keyword of an earlier one.
    Twice {
        /// The least such card, from 1.
        card: u32,
    },
}

impl fmt::Display for HeaderFault {
    ghost output = { λ fault. Some (fault_text fault) };

    fn fmt<W: fmt::Write>(&self, f: &mut fmt::Formatter<W>) -> fmt::Result {
        match self {
            HeaderFault::Short => f.write_str("1"),
            HeaderFault::NotAscii { at } => write!(f, "2 {at}"),
            HeaderFault::NoEnd => f.write_str("3"),
            HeaderFault::BadValue { card } => write!(f, "4 {card}"),
            HeaderFault::Twice { card } => write!(f, "5 {card}"),
        }
    }
}

impl Error for HeaderFault {}
