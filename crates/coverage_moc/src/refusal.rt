//! Why no cover was read.
ghost use Rattle.std.specs.Prelude.{Some};
ghost use Rattle.coverage_moc.specs.Texts.{refusal_text};

use std::alloc::AllocError;
use std::error::Error;
use std::fmt;

/// Why no cover was read. It is shown as `not a coverage file` or as `out of memory`.
#[derive(Clone, Copy, Debug, PartialEq, Eq)]
pub enum CoverRefusal {
    /// The bytes are not the coverage file of any leaves of that order.
    NotCover,
    /// A growth of memory was refused.
    OutOfMemory,
}

impl fmt::Display for CoverRefusal {
    ghost output = { λ refusal. Some (refusal_text refusal) };

    fn fmt<W: fmt::Write>(&self, f: &mut fmt::Formatter<W>) -> fmt::Result {
        match self {
            CoverRefusal::NotCover => f.write_str("not a coverage file"),
            CoverRefusal::OutOfMemory => f.write_str("out of memory"),
        }
    }
}

impl Error for CoverRefusal {}

impl From<AllocError> for CoverRefusal {
    ghost use Rattle.std.specs.Prelude.{◌≡◌};
    ghost use Rattle.coverage_moc.specs.declared.refusal.CoverRefusal.TheVariants.{OutOfMemory};

    ghost from_gives = { λ _ refusal. refusal ≡ OutOfMemory };

    fn from(_error: AllocError) -> CoverRefusal {
        CoverRefusal::OutOfMemory
    }
}
