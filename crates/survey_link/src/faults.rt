//! Why a call on the outside was refused.
ghost use Rattle.std.specs.Prelude.{Some, codes};
ghost use Rattle.survey_link.specs.Faults.{link_fault_text, door_fault_text};

use std::alloc::AllocError;
use std::error::Error;
use std::fmt;

/// The outside failed: its count of faults rose.
#[derive(Clone, Copy, Debug, PartialEq, Eq, Hash)]
pub struct Failed;

/// Why a call on a shelf was refused.
#[derive(Clone, Copy, Debug, PartialEq, Eq, Hash)]
pub enum LinkFault {
    /// The shelf failed: its count of faults rose.
    Failed,
    /// There was no memory.
    OutOfMemory,
}

/// Why no connection was accepted.
#[derive(Clone, Copy, Debug, PartialEq, Eq, Hash)]
pub enum DoorFault {
    /// The door failed: its count of faults rose.
    Failed,
    /// There was no memory.
    OutOfMemory,
}

impl From<Failed> for LinkFault {
    ghost use Rattle.std.specs.Prelude.{◌≡◌};
    ghost use Rattle.survey_link.specs.declared.faults.LinkFault.TheVariants as fault;

    ghost from_gives = { λ _ given. given ≡ fault.Failed };

    fn from(_: Failed) -> LinkFault {
        LinkFault::Failed
    }
}

impl From<AllocError> for LinkFault {
    ghost use Rattle.std.specs.Prelude.{◌≡◌};
    ghost use Rattle.survey_link.specs.declared.faults.LinkFault.TheVariants as fault;

    ghost from_gives = { λ _ given. given ≡ fault.OutOfMemory };

    fn from(_: AllocError) -> LinkFault {
        LinkFault::OutOfMemory
    }
}

impl fmt::Display for Failed {
    ghost output = { λ _. Some (codes "a read or a write failed") };

    fn fmt<W: fmt::Write>(&self, f: &mut fmt::Formatter<W>) -> fmt::Result {
        f.write_str("a read or a write failed")
    }
}

impl fmt::Display for LinkFault {
    ghost output = { λ fault. Some (link_fault_text fault) };

    fn fmt<W: fmt::Write>(&self, f: &mut fmt::Formatter<W>) -> fmt::Result {
        f.write_str(match self {
            LinkFault::Failed => "the shelf failed",
            LinkFault::OutOfMemory => "out of memory",
        })
    }
}

impl fmt::Display for DoorFault {
    ghost output = { λ fault. Some (door_fault_text fault) };

    fn fmt<W: fmt::Write>(&self, f: &mut fmt::Formatter<W>) -> fmt::Result {
        f.write_str(match self {
            DoorFault::Failed => "the door failed",
            DoorFault::OutOfMemory => "out of memory",
        })
    }
}

impl Error for Failed {}

impl Error for LinkFault {}

impl Error for DoorFault {}
