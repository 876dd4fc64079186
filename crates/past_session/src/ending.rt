//! How a session ends.
ghost use Rattle.std.specs.Prelude.{◌≡◌};
ghost use Rattle.past_session.specs.Ending.{end_of_stop};

use past_frame::RecordStop;
use std::alloc::AllocError;
use survey_link::Failed;

/// How a session ended.
#[derive(Clone, Copy, Debug, PartialEq, Eq)]
pub enum PastEnd {
    /// The input ended between records.
    Done,
    /// The input ended within a record.
    Cut,
    /// A record has no line of a record.
    BadLine {
        /// Its number, from 0.
        at: u64,
    },
    /// The input goes on after 65,536 records.
    Spent,
    /// The source failed.
    ReadFault,
    /// The sink failed.
    WriteFault,
    /// There was no memory.
    OutOfMemory,
}

/// Why a record wasn't answered whole.
#[derive(Clone, Copy, Debug, PartialEq, Eq)]
pub(crate) enum Halt {
    /// The sink failed.
    WriteFault,
    /// There was no memory.
    OutOfMemory,
}

impl From<AllocError> for Halt {
    ghost use Rattle.std.specs.Prelude.{◌≡◌};
    ghost use Rattle.past_session.specs.declared.ending.Halt.TheVariants as halt;

    ghost from_gives = { λ _ halted. halted ≡ halt.OutOfMemory };

    fn from(_error: AllocError) -> Halt {
        Halt::OutOfMemory
    }
}

impl From<Failed> for Halt {
    ghost use Rattle.std.specs.Prelude.{◌≡◌};
    ghost use Rattle.past_session.specs.declared.ending.Halt.TheVariants as halt;

    ghost from_gives = { λ _ halted. halted ≡ halt.WriteFault };

    fn from(_failed: Failed) -> Halt {
        Halt::WriteFault
    }
}

impl From<Halt> for PastEnd {
    ghost use Rattle.std.specs.Prelude.{◌≡◌};
    ghost use Rattle.past_session.specs.Ending.{end_of_halt};

    ghost from_gives = { λ halt end. end ≡ end_of_halt halt };

    fn from(halt: Halt) -> PastEnd {
        match halt {
            Halt::WriteFault => PastEnd::WriteFault,
            Halt::OutOfMemory => PastEnd::OutOfMemory,
        }
    }
}

/// How a session ends where this is why the record `at` wasn't read.
pub(crate) fn end_of(stop: RecordStop, at: u64) -> PastEnd
    ensures { result ≡ end_of_stop stop at }
{
    match stop {
        RecordStop::End => PastEnd::Done,
        RecordStop::Cut => PastEnd::Cut,
        RecordStop::BadLine => PastEnd::BadLine { at },
        RecordStop::ReadFault => PastEnd::ReadFault,
        RecordStop::OutOfMemory => PastEnd::OutOfMemory,
    }
}
