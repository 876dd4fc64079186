//! What a door was refused.
ghost use Rattle.std.specs.Prelude.{◌≡◌};
ghost use Rattle.tcp_link.specs.Tcp.{is_out_of_memory, says_out_of_memory};

use std::io::ErrorKind;
use std::{fmt, io};

/// What a door was refused, and by which error of the system.
#[derive(Clone, Copy, Debug)]
pub enum Refusal {
    /// To listen on its address.
    Listen(io::Error),
    /// To accept a connection.
    Accept(io::Error),
    /// To split the stream of a connection into its halves, with their time-outs.
    Split(io::Error),
}

impl Refusal {
    /// Whether memory ran out, the program's own or the system's.
    pub(crate) fn says_out_of_memory(&self) -> bool
        ensures { result ≡ says_out_of_memory self.now }
    {
        match self {
            Refusal::Listen(error) | Refusal::Accept(error) | Refusal::Split(error) => {
                is_out_of_memory(error.kind())
            }
        }
    }
}

fn is_out_of_memory(kind: ErrorKind) -> bool
    ensures { result ≡ is_out_of_memory kind }
{
    matches!(kind, ErrorKind::OutOfMemory)
}

impl fmt::Display for Refusal {
    fn fmt<W: fmt::Write>(&self, f: &mut fmt::Formatter<W>) -> fmt::Result {
        match self {
            Refusal::Listen(error) => write!(f, "can't listen: {error}"),
            Refusal::Accept(error) => write!(f, "can't accept: {error}"),
            Refusal::Split(error) => write!(f, "can't use a connection: {error}"),
        }
    }
}
