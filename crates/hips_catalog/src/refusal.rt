//! Why a row isn't put into a catalogue.
ghost use Rattle.std.specs.Prelude.{◌≡◌, Some};
ghost use Rattle.hips_catalog.specs.declared.refusal.InsertRefusal.TheVariants.{OutOfMemory};
ghost use Rattle.hips_catalog.specs.Texts.{insert_refusal_words};

use std::alloc::AllocError;
use std::error::Error;
use std::fmt;

/// Why a row isn't put into a catalogue. If several apply, it is the first of these. It is shown in words.
#[derive(Clone, Copy, Debug, PartialEq, Eq)]
pub enum InsertRefusal {
    /// A row has its id.
    Twice,
    /// There are as many rows as a catalogue has at most.
    Full,
    /// There was no memory.
    OutOfMemory,
}

impl fmt::Display for InsertRefusal {
    ghost output = { λ refusal. Some (insert_refusal_words refusal) };

    fn fmt<W: fmt::Write>(&self, f: &mut fmt::Formatter<W>) -> fmt::Result {
        match self {
            InsertRefusal::Twice => f.write_str("the id is there already"),
            InsertRefusal::Full => f.write_str("there are 1000000 rows"),
            InsertRefusal::OutOfMemory => f.write_str("out of memory"),
        }
    }
}

impl Error for InsertRefusal {}

impl From<AllocError> for InsertRefusal {
    ghost from_gives = { λ _ refusal. refusal ≡ OutOfMemory };

    fn from(_: AllocError) -> InsertRefusal {
        InsertRefusal::OutOfMemory
    }
}
