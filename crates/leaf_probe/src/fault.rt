//! Why `probe` ends without a tile.
ghost use Rattle.std.specs.Prelude.{◌≡◌, nat_eq, Err, ⊤};
ghost use Rattle.command_output.specs.Status.{number_of};
ghost use Rattle.leaf_probe.specs.declared.fault.ProbeFault.TheVariants.{Read, OutOfMemory};
ghost use Rattle.leaf_probe.specs.Status.{status_of, read_failed, write_failed};

use command_output::Status;
use std::alloc::{AllocError, AllocFailed};
use survey_link::Failed;

/// Why no tile was written.
#[derive(Clone, Copy, Debug, PartialEq, Eq)]
pub enum ProbeFault {
    /// The input ends within a record.
    Cut,
    /// The source failed.
    Read,
    /// The sink failed; a prefix of the tile may have been written.
    Write,
    /// No leaf lies at or under the asked tile.
    NoLeaf,
    /// There was no memory.
    OutOfMemory,
    /// The input goes on after the last record that is read.
    TooMany,
    /// The asked tile is no cell of its order, or a record's number is no leaf's.
    OutOfRange,
}

impl ProbeFault {
    /// The status that the program ends with.
    pub fn status(self) -> Status
        ensures status { number_of result ≡ status_of self }
        ensures read { nat_eq (number_of result) 5 ≡ read_failed {A = ⊤} (Err self) }
        ensures write { nat_eq (number_of result) 6 ≡ write_failed {A = ⊤} (Err self) }
    {
        match self {
            ProbeFault::Cut => Status::Cut,
            ProbeFault::Read => Status::ReadFault,
            ProbeFault::Write => Status::WriteFault,
            ProbeFault::NoLeaf => Status::NoLeaf,
            ProbeFault::OutOfMemory => Status::OutOfMemory,
            ProbeFault::TooMany => Status::Spent,
            ProbeFault::OutOfRange => Status::OutOfRange,
        }
    }
}

impl From<AllocError> for ProbeFault {
    ghost from_gives = { λ _ e. e ≡ OutOfMemory };

    fn from(_: AllocError) -> Self {
        ProbeFault::OutOfMemory
    }
}

impl<T: Drop> From<AllocFailed<T>> for ProbeFault {
    ghost from_gives = { λ _ e. e ≡ OutOfMemory };

    fn from(_: AllocFailed<T>) -> Self {
        ProbeFault::OutOfMemory
    }
}

impl From<Failed> for ProbeFault {
    ghost from_gives = { λ _ e. e ≡ Read };

    fn from(_: Failed) -> Self {
        ProbeFault::Read
    }
}
