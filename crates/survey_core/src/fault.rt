//! Why the body of a batch isn't one.
ghost use Rattle.std.specs.Prelude.{Some};
ghost use Rattle.survey_core.specs.Faults.{entry_fault_text, batch_read_text};

use fits_tile::TileFault;
use std::error::Error;
use std::fmt;

/// What is wrong with an entry of a batch body. If several apply, it is the first of these. It is shown as one word, or as
/// the text of the fault of its tile file.
#[derive(Clone, Copy, Debug, PartialEq, Eq, Hash)]
pub enum EntryFault {
    /// There are 1,024 entries before it.
    Many,
    /// It doesn't begin with the line of an entry; or there is no entry at all.
    Line,
    /// Fewer bytes follow its line than the line says.
    Short,
    /// These bytes are not a tile of the survey.
    Tile(TileFault),
}

impl fmt::Display for EntryFault {
    ghost output = { λ fault. Some (entry_fault_text fault) };

    fn fmt<W: fmt::Write>(&self, f: &mut fmt::Formatter<W>) -> fmt::Result {
        match self {
            EntryFault::Many => f.write_str("many"),
            EntryFault::Line => f.write_str("line"),
            EntryFault::Short => f.write_str("short"),
            EntryFault::Tile(fault) => write!(f, "{fault}"),
        }
    }
}

impl Error for EntryFault {}

/// Why no batch was read. It is shown as the place of the entry, a space and the text of its fault, or as `out of memory`.
#[derive(Clone, Copy, Debug, PartialEq, Eq)]
pub enum BatchRead {
    /// The first entry that has a fault.
    Entry {
        /// Its place, from 0.
        at: u32,
        /// What is wrong with it.
        fault: EntryFault,
    },
    /// There was no memory for the edits.
    OutOfMemory,
}

impl fmt::Display for BatchRead {
    ghost output = { λ refusal. Some (batch_read_text refusal) };

    fn fmt<W: fmt::Write>(&self, f: &mut fmt::Formatter<W>) -> fmt::Result {
        match self {
            BatchRead::Entry { at, fault } => write!(f, "{at} {fault}"),
            BatchRead::OutOfMemory => f.write_str("out of memory"),
        }
    }
}

impl Error for BatchRead {}

/// Why an entry wasn't read.
#[derive(Clone, Copy, Debug, PartialEq, Eq)]
pub(crate) enum EntryRefusal {
    /// The entry has this fault.
    Fault(EntryFault),
    /// There was no memory for its tile.
    OutOfMemory,
}
