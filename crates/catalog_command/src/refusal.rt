//! Why no catalogue is put on the shelf.
ghost use Rattle.std.specs.Prelude.{◌≡◌, Some};
ghost use Rattle.catalog_command.specs.Run.{kind_of, bad_line_text};

use hips_catalog::RowFault;
use std::alloc::AllocError;
use std::fmt;
use survey_link::{Failed, LinkFault};

/// What is wrong with a line. If several apply, it is the last of these or else `Long`, or else the first.
#[derive(Clone, Copy, Debug, PartialEq, Eq)]
pub enum LineFault {
    /// It is no row, or takes out a row by what is no id.
    Row(RowFault),
    /// There is no line feed among 512 bytes.
    Long,
    /// It is a row whose id is there.
    Twice,
    /// It is a row, and there are 1,000,000.
    Full,
    /// It takes out a row that isn't there.
    Absent,
    /// There were 2,000,000 lines before it.
    Many,
}

impl LineFault {
    /// The number of the fault: 1 to 5 for that of a row, 6 for `Long`, 7 for `Twice`, 8 for `Full`, 9 for `Absent`, 10 for
    /// `Many`.
    pub fn kind(self) -> u8
        ensures { result ≡ kind_of self }
    {
        match self {
            LineFault::Row(fault) => fault.number(),
            LineFault::Long => 6,
            LineFault::Twice => 7,
            LineFault::Full => 8,
            LineFault::Absent => 9,
            LineFault::Many => 10,
        }
    }
}

/// The first line of an input that has a fault. It is shown as its number, from 1, and that of the fault, as in `row 2 7`.
#[derive(Clone, Copy, Debug, PartialEq, Eq)]
pub struct BadLine {
    /// The number of the line, from 1.
    pub line: u64,
    /// What is wrong with it.
    pub fault: LineFault,
}

impl fmt::Display for BadLine {
    ghost output = { λ bad. Some (bad_line_text bad) };

    fn fmt<W: fmt::Write>(&self, f: &mut fmt::Formatter<W>) -> fmt::Result {
        write!(f, "row {} {}", self.line, self.fault.kind())
    }
}

/// Why no catalogue was put on the shelf, or not all of it.
#[derive(Clone, Copy, Debug, PartialEq, Eq)]
pub enum CatalogRefusal {
    /// The input ends within a line.
    Cut,
    /// A line has a fault.
    Line(BadLine),
    /// The source failed.
    ReadFault,
    /// The shelf failed; some tiles may have been removed or put.
    ShelfFault,
    /// There was no memory; some tiles may have been removed or put.
    OutOfMemory,
}

impl From<AllocError> for CatalogRefusal {
    ghost use Rattle.catalog_command.specs.declared.refusal.CatalogRefusal.TheVariants.{OutOfMemory};

    ghost from_gives = { λ _ stop. stop ≡ OutOfMemory };

    fn from(_: AllocError) -> CatalogRefusal {
        CatalogRefusal::OutOfMemory
    }
}

impl From<Failed> for CatalogRefusal {
    ghost use Rattle.catalog_command.specs.declared.refusal.CatalogRefusal.TheVariants.{ReadFault};

    ghost from_gives = { λ _ stop. stop ≡ ReadFault };

    fn from(_: Failed) -> CatalogRefusal {
        CatalogRefusal::ReadFault
    }
}

impl From<LinkFault> for CatalogRefusal {
    ghost use Rattle.catalog_command.specs.Stops.{of_link};

    ghost from_gives = { λ fault stop. stop ≡ of_link fault };

    fn from(fault: LinkFault) -> CatalogRefusal {
        match fault {
            LinkFault::Failed => CatalogRefusal::ShelfFault,
            LinkFault::OutOfMemory => CatalogRefusal::OutOfMemory,
        }
    }
}
