//! Connections that this side makes.
ghost use Rattle.std.specs.Prelude.{◌≡◌, IfOk};

use crate::connection::Connection;
use crate::patience::Patience;
use crate::stream::Stream;
use crate::tcp_in::TcpIn;
use crate::tcp_out::TcpOut;
use log::{Log, error};
use std::alloc::AllocError;
use std::net::{Net, TcpListener, TcpStream};
use std::sync::Arc;

/// What the other side of a dialed connection sends.
pub type DialIn<R> = TcpIn<R>;

/// What the other side of a dialed connection is sent.
pub type DialOut<R> = TcpOut<R>;

/// The two halves of one stream to an address: an IP address or a host's name with `:` and a port, or the path of a Unix
/// socket, with a `/`. If connecting is refused, why is logged, and each call that reads or writes is a fault.
///
/// Its peer has the time that a client of a server's doors has. Names are looked up by `net`.
///
/// # Errors
///
/// `AllocError` where there is no memory.
pub fn dial<R, N>(rt: &R, net: &N, address: &str) -> Result<(DialIn<R>, DialOut<R>), AllocError>
where
    R: AllocGlobal + Log + Clone + Drop,
    N: Net<Listener = TcpListener, Stream = TcpStream>,
    ensures fresh { IfOk result (λ halves. (halves.0 ≡ 0) × (halves.1 ≡ 0)) }
{
    let patience = Patience::usual();
    let stream = call(rt, net, address, patience);
    let connection = Connection::new(rt.clone()?, patience, stream, None);
    let connection = Arc::new(rt.alloc(), connection)?;
    let output = TcpOut::new(Arc::try_clone(&connection)?);
    Ok((TcpIn::new(connection), output))
}

// A stream to the address. The log gets why there is none.
fn call<R, N>(rt: &R, net: &N, address: &str, patience: Patience) -> Option<Stream>
where
    R: Log,
    N: Net<Listener = TcpListener, Stream = TcpStream>,
{
    match Stream::connect(net, address, patience) {
        Ok(stream) => Some(stream),
        Err(error) => {
            error!(rt; "can't connect to {address}: {error}");
            None
        }
    }
}
