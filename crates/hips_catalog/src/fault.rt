//! Why a line is no row.
ghost use Rattle.std.specs.Prelude.{◌≡◌, Some, decimal};
ghost use Rattle.hips_catalog.specs.Texts.{fault_number, fault_words, refusal_words};
ghost use Rattle.hips_catalog.specs.declared.fault.RowRefusal.TheVariants.{Fault, OutOfMemory};

use std::alloc::AllocError;
use std::error::Error;
use std::fmt;

/// What is wrong with the line of a row. If several apply, it is the first of these. It is shown in words.
#[derive(Clone, Copy, Debug, PartialEq, Eq)]
pub enum RowFault {
    /// It hasn't exactly three TABs.
    Fields = 1,
    /// The rank is no number below 2^64 in plain decimals.
    Rank = 2,
    /// The number of the cell is none of a cell of the deepest order in plain decimals.
    Npix = 3,
    /// The id hasn't 1 to 64 bytes, each 0x21 to 0x7E.
    Id = 4,
    /// The rest has more than 256 bytes, or one below 0x20 or 0x7F.
    Rest = 5,
}

impl RowFault {
    /// The number of the fault: 1 for `Fields`, 2 for `Rank`, 3 for `Npix`, 4 for `Id`, 5 for `Rest`.
    pub fn number(self) -> u8
        ensures { result ≡ fault_number self }
    {
        self as u8
    }
}

impl fmt::Display for RowFault {
    ghost output = { λ fault. Some (fault_words fault) };

    fn fmt<W: fmt::Write>(&self, f: &mut fmt::Formatter<W>) -> fmt::Result {
        match self {
            RowFault::Fields => f.write_str("a row has four fields with one TAB between each two"),
            RowFault::Rank => f.write_str(
                "the rank is a number below 2^64 without a sign or leading zeros",
            ),
            RowFault::Npix => f.write_str(
                "the second field is the number of a cell of the deepest order",
            ),
            RowFault::Id => f.write_str("an id is 1 to 64 characters of ASCII without blanks"),
            RowFault::Rest => f.write_str(
                "the last field is at most 256 bytes without control characters",
            ),
        }
    }
}

impl Error for RowFault {}

/// Why no row was read. It is shown as its fault, or as `out of memory`.
#[derive(Clone, Copy, Debug, PartialEq, Eq)]
pub enum RowRefusal {
    /// The line is no row.
    Fault(RowFault),
    /// There was no memory for the row.
    OutOfMemory,
}

impl From<RowFault> for RowRefusal {
    ghost use Rattle.std.specs.Prelude.{◌≡◌};
    ghost use Rattle.hips_catalog.specs.declared.fault.RowRefusal.TheVariants.{Fault};

    ghost from_gives = { λ fault refusal. refusal ≡ Fault fault };

    fn from(fault: RowFault) -> RowRefusal {
        RowRefusal::Fault(fault)
    }
}

impl From<AllocError> for RowRefusal {
    ghost use Rattle.std.specs.Prelude.{◌≡◌};
    ghost use Rattle.hips_catalog.specs.declared.fault.RowRefusal.TheVariants.{OutOfMemory};

    ghost from_gives = { λ _ refusal. refusal ≡ OutOfMemory };

    fn from(_: AllocError) -> RowRefusal {
        RowRefusal::OutOfMemory
    }
}

impl fmt::Display for RowRefusal {
    ghost output = { λ refusal. Some (refusal_words refusal) };

    fn fmt<W: fmt::Write>(&self, f: &mut fmt::Formatter<W>) -> fmt::Result {
        match self {
            RowRefusal::Fault(fault) => write!(f, "{fault}"),
            RowRefusal::OutOfMemory => f.write_str("out of memory"),
        }
    }
}

impl Error for RowRefusal {}
