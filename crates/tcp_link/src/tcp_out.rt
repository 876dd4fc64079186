//! What a peer is sent.
ghost use Rattle.std.specs.Prelude.{◌≡◌, ◌<◌, ◌≤◌, ℕ, None, length, IfOk, OnOk, OnErr};
ghost use Rattle.std.specs.Io.Slices.{io_slices_bytes};
ghost use Rattle.survey_link.specs.Link.{next_count, parts_bytes};

use crate::connection::Connection;
use crate::patience::Patience;
use crate::watch::Watch;
use std::io;
use std::io::IoSlice;
use std::marker::Model;
use std::sync::Arc;
use std::time::{Clock, Duration};
use survey_link::{Failed, Sink};

// How long a peer that has its reply may send nothing before its connection is closed, in milliseconds, and how often what it
// still sends is read until then.
const LINGER: u64 = 1000;

const LINGERING_READS: usize = 1024;

/// What a peer is sent. Its bytes are opaque to the proof; contracts see its count of faults.
///
/// A peer that doesn't take its reply in time is a fault, as is one that has gone. A flush ends the reply.
#[derive(Drop)]
pub struct TcpOut<R> {
    connection: Arc<Connection<R>>,
    watch: Watch,
    faults: u64,
}

impl<R> Model for TcpOut<R> {
    ghost Value = { ℕ };

    ghost view = { λ a. a.faults };
}

impl<R> TcpOut<R> {
    pub(crate) fn new(connection: Arc<Connection<R>>) -> TcpOut<R>
        ensures { result ≡ 0 }
    {
        let watch = Watch::new(connection.patience.rest);
        TcpOut {
            connection,
            watch,
            faults: 0,
        }
    }
}

impl<R: Clock> TcpOut<R> {
    /// Ends the reply, and drops what the peer still sends until it closes its side too: where bytes are left unread the
    /// system resets the connection, and the peer may lose the reply (RFC 9112, section 9.6).
    pub(crate) fn end(&self) {
        if self.faults == 0 {
            let _ = linger(&self.connection);
        }
    }

    fn set_timeout(&mut self) -> io::Result<()>
        ensures counts_none { self.new ≡ self.old }
    {
        let connection = &*self.connection;
        let Patience { turn, pace, .. } = connection.patience;
        match self.watch.timeout(&connection.runtime, turn, pace)? {
            Some(timeout) => connection.stream()?.set_write_timeout(timeout),
            None => Ok(()),
        }
    }
}

// Reads what the peer still sends, for no longer than a connection may take to end.
fn linger<R: Clock>(connection: &Connection<R>) -> io::Result<()> {
    let stream = connection.stream()?;
    stream.end_writing()?;
    stream.set_read_timeout(Duration::from_millis(LINGER))?;
    let mut watch = Watch::new(Duration::ZERO);
    let mut buf = [0; 16_384];
    for _ in 0..LINGERING_READS {
        watch.timeout(&connection.runtime, connection.patience.end, 0)?;
        if stream.read(&mut buf)? == 0 {
            break;
        }
    }
    Ok(())
}

impl<R: Clock> Sink for TcpOut<R> {
    ghost held = { λ _. None };

    ghost flushed = { λ _. None };

    ghost faults = { λ faults. faults };

    ghost number = { λ _. None };

    fn write(&mut self, buf: &[u8]) -> Result<usize, Failed>
        requires { 0 < length buf.now }
        ensures some { IfOk result (λ m. 0 < m) }
        ensures count { IfOk result (λ m. m ≤ length buf.now) }
        ensures sound { OnOk result (self.new ≡ self.old) }
        ensures failed { OnErr result (self.new ≡ next_count self.old) }
        ensures never_falls { self.old ≤ self.new }
    {
        self.write_parts([buf, b"", b"", b""])
    }

    // By one system call, before the reply has taken too long.
    fn write_parts(&mut self, parts: [&[u8]; 4]) -> Result<usize, Failed>
        requires { 0 < length (parts_bytes parts) }
        ensures some { IfOk result (λ m. 0 < m) }
        ensures count { IfOk result (λ m. m ≤ length (parts_bytes parts.entry)) }
        ensures sound { OnOk result (self.new ≡ self.old) }
        ensures failed { OnErr result (self.new ≡ next_count self.old) }
        ensures never_falls { self.old ≤ self.new }
    {
        let slices = io_slices(parts);
        for _ in 0..u64::MAX {
            if self.set_timeout().is_err() {
                break;
            }
            let Ok(stream) = self.connection.stream() else {
                break;
            };
            match stream.write_vectored(&slices) {
                Ok(0) => break,
                Ok(count) => {
                    self.watch.count(count);
                    return Ok(count);
                }
                Err(error) => {
                    if !self.watch.goes_on(error.kind()) {
                        break;
                    }
                }
            }
        }
        self.faults = self.faults.saturating_add(1);
        Err(Failed)
    }

    // Nothing is kept back. The reply has ended, and the next byte that comes begins a turn.
    fn flush(&mut self) -> Result<(), Failed>
        ensures done { OnErr result ⊥ }
        ensures sound { self.new ≡ self.old }
    {
        self.watch.set_back();
        self.connection.set_rests(true);
        Ok(())
    }
}

// The parts, as std's vectored writes take them.
fn io_slices(parts: [&[u8]; 4]) -> [IoSlice<'_>; 4]
    ensures { io_slices_bytes result ≡ parts_bytes parts.entry }
{
    parts.map(IoSlice::new)
}
