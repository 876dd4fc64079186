//! Why a generation isn't published.
ghost use Rattle.std.specs.Prelude.{Some};
ghost use Rattle.survey_core.specs.Faults.{install_refusal_text};

use std::alloc::AllocError;
use std::error::Error;
use std::fmt;

/// Why a generation wasn't installed. It is shown as in `7 edits are published already`, or as `out of memory`.
#[derive(Clone, Copy, Debug, PartialEq, Eq)]
pub enum InstallRefusal {
    /// As many edits are published already, or more.
    Already {
        /// How many are.
        tip: u32,
    },
    /// There was no memory for the state.
    OutOfMemory,
}

impl fmt::Display for InstallRefusal {
    ghost output = { λ refusal. Some (install_refusal_text refusal) };

    fn fmt<W: fmt::Write>(&self, f: &mut fmt::Formatter<W>) -> fmt::Result {
        match self {
            InstallRefusal::Already { tip } => write!(f, "{tip} edits are published already"),
            InstallRefusal::OutOfMemory => f.write_str("out of memory"),
        }
    }
}

impl Error for InstallRefusal {}

impl From<AllocError> for InstallRefusal {
    ghost use Rattle.std.specs.Prelude.{◌≡◌};
    ghost use Rattle.survey_core.specs.declared.refusal.InstallRefusal.TheVariants.{OutOfMemory};

    ghost from_gives = { λ _ refusal. refusal ≡ OutOfMemory };

    fn from(_: AllocError) -> InstallRefusal {
        InstallRefusal::OutOfMemory
    }
}
