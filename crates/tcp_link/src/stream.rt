//! Streams and listeners, over TCP or at the path of a Unix socket.
ghost use Rattle.std.specs.Prelude.{◌≤◌, length, IfOk};
ghost use Rattle.std.specs.Io.Slices.{io_slices_bytes};

use crate::patience::Patience;
use std::fs::Files;
use std::io::{ErrorKind, IoSlice, Read};
use std::net::{Net, Shutdown, SocketAddr, TcpListener, TcpStream, ToSocketAddrs};
use std::os::unix::fs::FileTypeExt;
use std::os::unix::net::{UnixListener, UnixStream};
use std::time::Duration;
use std::{fs, io};

/// Whether an address is the path of a Unix socket: it has a `/`.
pub(crate) fn is_path(address: &str) -> bool {
    address.contains('/')
}

/// A stream.
#[derive(Drop)]
pub(crate) enum Stream {
    Tcp(TcpStream),
    Unix(UnixStream),
}

impl Stream {
    /// A stream to an address. Each place of a host's name is tried in turn.
    pub(crate) fn connect<N>(net: &N, address: &str, patience: Patience) -> io::Result<Stream>
    where
        N: Net<Listener = TcpListener, Stream = TcpStream>,
    {
        let stream = if is_path(address) {
            Stream::Unix(UnixStream::connect(net, address)?)
        } else {
            Stream::Tcp(connect_in_turn(net, address, patience.turn)?)
        };
        stream.prepare(patience)?;
        Ok(stream)
    }

    /// From now on it waits no longer than a connection may be idle, and holds no small write back for more.
    pub(crate) fn prepare(&self, patience: Patience) -> io::Result<()> {
        if let Stream::Tcp(stream) = self {
            stream.set_nodelay(true)?;
        }
        self.set_read_timeout(patience.rest)?;
        self.set_write_timeout(patience.rest)
    }

    pub(crate) fn read(&self, buf: &mut [u8]) -> io::Result<usize>
        ensures count { IfOk result (λ m. m ≤ length buf.old) }
    {
        match self {
            Stream::Tcp(stream) => read_from(stream, buf),
            Stream::Unix(stream) => read_from(stream, buf),
        }
    }

    pub(crate) fn write_vectored(&self, parts: &[IoSlice<'_>]) -> io::Result<usize>
        ensures count { IfOk result (λ m. m ≤ length (io_slices_bytes parts.now)) }
    {
        match self {
            Stream::Tcp(stream) => stream.write_vectored(parts),
            Stream::Unix(stream) => stream.write_vectored(parts),
        }
    }

    pub(crate) fn set_read_timeout(&self, timeout: Duration) -> io::Result<()> {
        match self {
            Stream::Tcp(stream) => stream.set_read_timeout(Some(timeout)),
            Stream::Unix(stream) => stream.set_read_timeout(Some(timeout)),
        }
    }

    pub(crate) fn set_write_timeout(&self, timeout: Duration) -> io::Result<()> {
        match self {
            Stream::Tcp(stream) => stream.set_write_timeout(Some(timeout)),
            Stream::Unix(stream) => stream.set_write_timeout(Some(timeout)),
        }
    }

    /// Nothing more is written.
    pub(crate) fn end_writing(&self) -> io::Result<()> {
        match self {
            Stream::Tcp(stream) => stream.shutdown(Shutdown::Write),
            Stream::Unix(stream) => stream.shutdown(Shutdown::Write),
        }
    }
}

fn read_from<T: Read + Drop>(mut stream: T, buf: &mut [u8]) -> io::Result<usize>
    ensures count { IfOk result (λ m. m ≤ length buf.old) }
{
    stream.read(buf)
}

// Connects to the first place of the address that answers.
fn connect_in_turn<N>(net: &N, address: &str, timeout: Duration) -> io::Result<TcpStream>
where
    N: Net<Listener = TcpListener, Stream = TcpStream>,
{
    let mut refusal = ErrorKind::AddrNotAvailable.into();
    for place in address.to_socket_addrs(net)? {
        match TcpStream::connect_timeout(net, &place, timeout) {
            Ok(stream) => return Ok(stream),
            Err(error) => refusal = error,
        }
    }
    Err(refusal)
}

/// What listens at an address.
#[derive(Drop)]
pub(crate) enum Listener {
    Tcp(TcpListener),
    Unix(UnixListener),
}

impl Listener {
    /// Listens at an address. A socket that a dead server left at a path is removed first.
    pub(crate) fn bind<N>(net: &N, address: &str) -> io::Result<Listener>
    where
        N: Net<Listener = TcpListener, Stream = TcpStream> + Files,
    {
        if is_path(address) {
            Ok(Listener::Unix(bind_path(net, address)?))
        } else {
            Ok(Listener::Tcp(TcpListener::bind(net, address)?))
        }
    }

    /// The next stream, and where its client is; `None` over a Unix socket.
    pub(crate) fn accept(&self) -> io::Result<(Stream, Option<SocketAddr>)> {
        match self {
            Listener::Tcp(listener) => {
                let (stream, client) = listener.accept()?;
                Ok((Stream::Tcp(stream), Some(client)))
            }
            Listener::Unix(listener) => {
                let (stream, _) = listener.accept()?;
                Ok((Stream::Unix(stream), None))
            }
        }
    }

    /// Where it listens; `None` for a Unix socket.
    pub(crate) fn place(&self) -> io::Result<Option<SocketAddr>> {
        match self {
            Listener::Tcp(listener) => Ok(Some(listener.local_addr()?)),
            Listener::Unix(_) => Ok(None),
        }
    }
}

/// Listens at a path, in place of a socket that a dead server left there.
pub(crate) fn bind_path<N: Net + Files>(net: &N, path: &str) -> io::Result<UnixListener> {
    if is_left(net, path) {
        fs::remove_file(net, path)?;
    }
    UnixListener::bind(net, path)
}

// Whether a socket lies at the path at which nobody listens.
fn is_left<N: Net + Files>(net: &N, path: &str) -> bool {
    match fs::symlink_metadata(net, path) {
        Ok(found) => found.file_type().is_socket() && refuses(net, path),
        Err(_) => false,
    }
}

fn refuses<N: Net>(net: &N, path: &str) -> bool {
    match UnixStream::connect(net, path) {
        Ok(_) => false,
        Err(error) => matches!(error.kind(), ErrorKind::ConnectionRefused),
    }
}
