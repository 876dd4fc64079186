//! A call on a file that failed, and what the system answered.
use std::alloc::{AllocError, Global};
use std::{fmt, io};

/// Which call on a file it was.
#[derive(Clone, Copy, Debug, PartialEq, Eq)]
pub(crate) enum FileCall {
    MakeFolder,
    Create,
    Write,
    Rename,
    Remove,
    Read,
    List,
    Look,
    Enter,
    Put,
}

impl fmt::Display for FileCall {
    fn fmt<W: fmt::Write>(&self, f: &mut fmt::Formatter<W>) -> fmt::Result {
        f.write_str(match self {
            FileCall::MakeFolder => "make the folder",
            FileCall::Create => "create",
            FileCall::Write => "write",
            FileCall::Rename => "move the whole file to",
            FileCall::Remove => "remove",
            FileCall::Read => "read",
            FileCall::List => "list",
            FileCall::Look => "look at",
            FileCall::Enter => "enter",
            FileCall::Put => "put",
        })
    }
}

/// A call on a file that failed. It is shown as the call, the path and what the system answered, as in
/// `can't write Norder3/Dir0/Npix5.fits.unfinished: No space left on device (os error 28)`.
///
/// Of the path all but printable ASCII is shown as `\n`, `\xff` and the like. It is left out if there was no memory for it.
#[derive(Drop)]
pub struct FailedCall {
    call: FileCall,
    path: Option<String>,
    error: io::Error,
}

impl FailedCall {
    pub(crate) fn new(alloc: Global, call: FileCall, path: &str, error: io::Error) -> FailedCall {
        FailedCall {
            call,
            path: String::from_str(alloc, path).ok(),
            error,
        }
    }
}

impl fmt::Display for FailedCall {
    fn fmt<W: fmt::Write>(&self, f: &mut fmt::Formatter<W>) -> fmt::Result {
        match &self.path {
            Some(path) => write!(
                f,
                "can't {} {}: {}",
                self.call,
                path.as_bytes().escape_ascii(),
                self.error
            ),
            None => write!(f, "can't {} a file: {}", self.call, self.error),
        }
    }
}
