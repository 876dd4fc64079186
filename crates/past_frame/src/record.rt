//! Records, and why none is read.
use std::alloc::AllocError;

/// A record. Its text, the body of a batch or the path of a read, is kept apart from it.
#[derive(Clone, Copy, Debug, PartialEq, Eq)]
pub enum Record {
    /// Accept a batch of edits.
    Batch,
    /// A file is asked for.
    Read {
        /// Of the survey after so many edits.
        k: u32,
    },
}

/// Why no record was read.
#[derive(Clone, Copy, Debug, PartialEq, Eq)]
pub enum RecordStop {
    /// The input ended before it.
    End,
    /// The input ended within it.
    Cut,
    /// No line of a record came.
    BadLine,
    /// The source failed.
    ReadFault,
    /// There was no memory.
    OutOfMemory,
}

impl From<AllocError> for RecordStop {
    ghost use Rattle.std.specs.Prelude.{◌≡◌};
    ghost use Rattle.past_frame.specs.declared.record.RecordStop.TheVariants as stop;

    ghost from_gives = { λ _ stopped. stopped ≡ stop.OutOfMemory };

    fn from(_error: AllocError) -> RecordStop {
        RecordStop::OutOfMemory
    }
}
