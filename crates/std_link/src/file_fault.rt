//! Why a call on a file was refused, and what an error of the outside says of it.
ghost use Rattle.std.specs.Prelude.{◌≡◌, ◌≢◌, IfOk, IfErr, IsErrOf};
ghost use Rattle.std_link.specs.Folder.{meaning_of};

use crate::failed_call::FailedCall;
use std::io::ErrorKind;

/// Why a call on a file was refused.
#[derive(Drop)]
pub(crate) enum FileFault {
    /// There is no such file or folder.
    Absent,
    /// There was no memory.
    OutOfMemory,
    /// All else.
    Failed(FailedCall),
}

/// What an error says of a call on a file.
#[derive(Clone, Copy, Debug, PartialEq, Eq)]
pub(crate) enum Meaning {
    /// The call was interrupted: make it again.
    Interrupted,
    /// There is no such file or folder.
    Absent,
    /// There was no memory.
    OutOfMemory,
    /// All else.
    Failed,
}

/// What an error of this kind says of a call on a file.
pub(crate) fn meaning_of(kind: ErrorKind) -> Meaning
    ensures { result ≡ meaning_of kind }
{
    match kind {
        ErrorKind::Interrupted => Meaning::Interrupted,
        ErrorKind::NotFound | ErrorKind::NotADirectory => Meaning::Absent,
        ErrorKind::OutOfMemory => Meaning::OutOfMemory,
        _ => Meaning::Failed,
    }
}

/// What was found, where an absent file is no fault.
pub(crate) fn found<T>(outcome: Result<T, FileFault>) -> Result<Option<T>, FileFault>
    ensures there { IfOk outcome (λ value. result ≡ Ok (Some value)) }
    ensures absent { IsErrOf outcome FileFault.Absent → result ≡ Ok None }
    ensures refused { IfErr outcome (λ fault. fault ≢ FileFault.Absent → result ≡ Err fault) }
{
    match outcome {
        Ok(value) => Ok(Some(value)),
        Err(FileFault::Absent) => Ok(None),
        Err(fault) => Err(fault),
    }
}

/// Whether the file is gone, where one that was absent is no fault.
pub(crate) fn gone(outcome: Result<(), FileFault>) -> Result<(), FileFault>
    ensures there { IfOk outcome (λ _. result ≡ Ok tt) }
    ensures absent { IsErrOf outcome FileFault.Absent → result ≡ Ok tt }
    ensures refused { IfErr outcome (λ fault. fault ≢ FileFault.Absent → result ≡ Err fault) }
{
    match outcome {
        Ok(()) | Err(FileFault::Absent) => Ok(()),
        Err(fault) => Err(fault),
    }
}
