//! A call that is made again.
ghost use Rattle.std.specs.Prelude.{◌≡◌, Bool, false, IfErr};
ghost use Rattle.std.specs.IoError.{error_kind};
ghost use Rattle.tcp_link.specs.Tcp.{passes};

use std::io;
use std::io::ErrorKind;

/// Makes a call again while what it is refused for passes: the system interrupted it, or its client has gone.
///
/// # Errors
///
/// What the call was refused for, where that doesn't pass.
pub fn again<T, F: Fn() -> io::Result<T> + Drop>(call: F) -> io::Result<T>
    requires { F.IsAlwaysCallable call }
    ensures lasts { IfErr result (λ error. passes (error_kind error) ≡ false) }
{
    for _ in 0..u64::MAX {
        match call() {
            Ok(value) => return Ok(value),
            Err(error) => {
                if !passes(error.kind()) {
                    return Err(error);
                }
            }
        }
    }
    Err(ErrorKind::Other.into())
}

// Whether a refusal passes: the system interrupted the call, or its client has gone.
fn passes(kind: ErrorKind) -> bool
    ensures { result ≡ passes kind }
{
    matches!(kind, ErrorKind::Interrupted | ErrorKind::ConnectionAborted)
}
