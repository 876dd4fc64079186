//! Why an edit, a batch or a journal isn't accepted.
ghost use Rattle.std.specs.Prelude.{◌≡◌, Some};
ghost use Rattle.edit_journal.specs.Faults.{fault_number};
ghost use Rattle.edit_journal.specs.Texts.{edit_fault_text, edit_refusal_text, batch_fault_text, batch_refusal_text, start_refusal_text};

use std::alloc::AllocError;
use std::error::Error;
use std::fmt;

/// What is wrong with an edit. Where several stand, it is the first of these.
#[derive(Clone, Copy, Debug, PartialEq, Eq, Hash)]
pub enum EditFault {
    /// An Add of a leaf that is there.
    Exists = 1,
    /// A Replace or a Remove of a leaf that isn't there.
    Absent = 2,
    /// There are 65,536 edits.
    Edits = 3,
    /// The charge would exceed 2^29 bytes.
    Bytes = 4,
}

impl fmt::Display for EditFault {
    ghost output = { λ fault. Some (edit_fault_text fault) };

    fn fmt<W: fmt::Write>(&self, f: &mut fmt::Formatter<W>) -> fmt::Result {
        match self {
            EditFault::Exists => f.write_str("the leaf is there"),
            EditFault::Absent => f.write_str("the leaf is not there"),
            EditFault::Edits => f.write_str("too many edits"),
            EditFault::Bytes => f.write_str("too many bytes"),
        }
    }
}

impl Error for EditFault {}

impl EditFault {
    /// The number of the fault, from 1 to 4.
    pub fn number(self) -> u8
        ensures { result ≡ fault_number self }
    {
        self as u8
    }
}

/// Why an edit wasn't accepted. It is shown as the text of its fault, or as `out of memory`.
#[derive(Clone, Copy, Debug, PartialEq, Eq)]
pub enum EditRefusal {
    /// The edit has this fault.
    Fault(EditFault),
    /// There was no memory for the journal.
    OutOfMemory,
}

impl fmt::Display for EditRefusal {
    ghost output = { λ refusal. Some (edit_refusal_text refusal) };

    fn fmt<W: fmt::Write>(&self, f: &mut fmt::Formatter<W>) -> fmt::Result {
        match self {
            EditRefusal::Fault(fault) => write!(f, "{fault}"),
            EditRefusal::OutOfMemory => f.write_str("out of memory"),
        }
    }
}

impl Error for EditRefusal {}

impl From<EditFault> for EditRefusal {
    ghost use Rattle.std.specs.Prelude.{◌≡◌};
    ghost use Rattle.edit_journal.specs.declared.fault.EditRefusal.TheVariants.{Fault};

    ghost from_gives = { λ fault refusal. refusal ≡ Fault fault };

    fn from(fault: EditFault) -> EditRefusal {
        EditRefusal::Fault(fault)
    }
}

impl From<AllocError> for EditRefusal {
    ghost use Rattle.std.specs.Prelude.{◌≡◌};
    ghost use Rattle.edit_journal.specs.declared.fault.EditRefusal.TheVariants.{OutOfMemory};

    ghost from_gives = { λ _ refusal. refusal ≡ OutOfMemory };

    fn from(_: AllocError) -> EditRefusal {
        EditRefusal::OutOfMemory
    }
}

/// The first edit of a batch that isn't accepted: its place, from 0, and its fault after the edits before it. It is shown
/// as in `edit 3: the leaf is there`.
#[derive(Clone, Copy, Debug, PartialEq, Eq)]
pub struct BatchFault {
    pub at: u32,
    pub fault: EditFault,
}

impl fmt::Display for BatchFault {
    ghost output = { λ fault. Some (batch_fault_text fault) };

    fn fmt<W: fmt::Write>(&self, f: &mut fmt::Formatter<W>) -> fmt::Result {
        write!(f, "edit {}: {}", self.at, self.fault)
    }
}

impl Error for BatchFault {}

/// Why a batch wasn't accepted. It is shown as the text of its fault, or as `out of memory`.
#[derive(Clone, Copy, Debug, PartialEq, Eq)]
pub enum BatchRefusal {
    /// One of its edits has a fault.
    Fault(BatchFault),
    /// There was no memory for the journal.
    OutOfMemory,
}

impl fmt::Display for BatchRefusal {
    ghost output = { λ refusal. Some (batch_refusal_text refusal) };

    fn fmt<W: fmt::Write>(&self, f: &mut fmt::Formatter<W>) -> fmt::Result {
        match self {
            BatchRefusal::Fault(fault) => write!(f, "{fault}"),
            BatchRefusal::OutOfMemory => f.write_str("out of memory"),
        }
    }
}

impl Error for BatchRefusal {}

impl From<BatchFault> for BatchRefusal {
    ghost use Rattle.std.specs.Prelude.{◌≡◌};
    ghost use Rattle.edit_journal.specs.declared.fault.BatchRefusal.TheVariants.{Fault};

    ghost from_gives = { λ fault refusal. refusal ≡ Fault fault };

    fn from(fault: BatchFault) -> BatchRefusal {
        BatchRefusal::Fault(fault)
    }
}

impl From<AllocError> for BatchRefusal {
    ghost use Rattle.std.specs.Prelude.{◌≡◌};
    ghost use Rattle.edit_journal.specs.declared.fault.BatchRefusal.TheVariants.{OutOfMemory};

    ghost from_gives = { λ _ refusal. refusal ≡ OutOfMemory };

    fn from(_: AllocError) -> BatchRefusal {
        BatchRefusal::OutOfMemory
    }
}

/// Why no journal was begun. It is shown as in `70000 leaves are too many`, or as `out of memory`.
#[derive(Clone, Copy, Debug, PartialEq, Eq)]
pub enum StartRefusal {
    /// The charge of the opening leaves exceeds 2^29 bytes.
    TooMany {
        /// How many leaves there are.
        leaves: u64,
    },
    /// There was no memory for the journal.
    OutOfMemory,
}

impl fmt::Display for StartRefusal {
    ghost output = { λ refusal. Some (start_refusal_text refusal) };

    fn fmt<W: fmt::Write>(&self, f: &mut fmt::Formatter<W>) -> fmt::Result {
        match self {
            StartRefusal::TooMany { leaves } => write!(f, "{leaves} leaves are too many"),
            StartRefusal::OutOfMemory => f.write_str("out of memory"),
        }
    }
}

impl Error for StartRefusal {}

impl From<AllocError> for StartRefusal {
    ghost use Rattle.std.specs.Prelude.{◌≡◌};
    ghost use Rattle.edit_journal.specs.declared.fault.StartRefusal.TheVariants.{OutOfMemory};

    ghost from_gives = { λ _ refusal. refusal ≡ OutOfMemory };

    fn from(_: AllocError) -> StartRefusal {
        StartRefusal::OutOfMemory
    }
}
