//! Why there is no generation of a prefix.
ghost use Rattle.std.specs.Prelude.{◌≡◌, Some};
ghost use Rattle.past_reads.specs.declared.refusal.PastRefusal.TheVariants.{OutOfMemory};
ghost use Rattle.past_reads.specs.Texts.{past_refusal_text};

use std::alloc::AllocError;
use std::error::Error;
use std::fmt;

/// Why there is no generation of the first k edits. It is shown in words, as in `there are 3 edits`.
#[derive(Clone, Copy, Debug, PartialEq, Eq)]
pub enum PastRefusal {
    /// There are fewer edits.
    TooNew {
        /// How many there are.
        edits: u32,
    },
    /// A batch would be split.
    Split {
        /// How many edits were asked for.
        k: u32,
    },
    /// There was no memory.
    OutOfMemory,
}

impl fmt::Display for PastRefusal {
    ghost output = { λ refusal. Some (past_refusal_text refusal) };

    fn fmt<W: fmt::Write>(&self, f: &mut fmt::Formatter<W>) -> fmt::Result {
        match self {
            PastRefusal::TooNew { edits } => write!(f, "there are {edits} edits"),
            PastRefusal::Split { k } => write!(f, "edit {k} isn't the last of its batch"),
            PastRefusal::OutOfMemory => f.write_str("out of memory"),
        }
    }
}

impl Error for PastRefusal {}

impl From<AllocError> for PastRefusal {
    ghost from_gives = { λ _ refusal. refusal ≡ OutOfMemory };

    fn from(_: AllocError) -> PastRefusal {
        PastRefusal::OutOfMemory
    }
}
