//! What the doors of one address share.
ghost use Rattle.std.specs.Prelude.{◌≡◌, false, IfErr};
ghost use Rattle.std.specs.IoError.{error_kind};
ghost use Rattle.tcp_link.specs.Tcp.{passes};

use crate::again::again;
use crate::busy::Busy;
use crate::shortage::Shortage;
use crate::stream::{Listener, Stream};
use log::{Log, error, info, warn};
use std::fs::Files;
use std::io;
use std::io::ErrorKind;
use std::net::{Net, SocketAddr, TcpListener, TcpStream};
use std::sync::{Mutex, OnceLock, Wait};
use std::time::Clock;

/// An address, and its listener once it is bound.
#[derive(Drop)]
pub(crate) struct Listening {
    address: String,
    // Whether a refusal to bind it was said.
    binding: Mutex<bool>,
    listener: OnceLock<Listener>,
    shortage: Shortage,
    pub(crate) busy: Busy,
}

impl Listening {
    pub(crate) fn new(address: String) -> Listening {
        Listening {
            address,
            binding: Mutex::new(false),
            listener: OnceLock::new(),
            shortage: Shortage::new(),
            busy: Busy::new(),
        }
    }

    /// The next connection and its client, by the listener. Where the system is short of descriptors or of buffers it is tried
    /// again for minutes. Logs a warning if all doors have been busy for long.
    ///
    /// # Errors
    ///
    /// What it is refused for.
    pub(crate) fn accept<R: Wait + Clock + Log>(
        &self,
        rt: &R,
        listener: &Listener,
    ) -> io::Result<(Stream, Option<SocketAddr>)>
        ensures lasts { IfErr result (λ error. passes (error_kind error) ≡ false) }
    {
        let begun = self.busy.begin_waiting(rt);
        let accepted = self.next(rt, listener);
        self.busy.end_waiting(rt, begun);
        accepted
    }

    // The next connection and its client.
    fn next<R: Wait + Clock + Log>(
        &self,
        rt: &R,
        listener: &Listener,
    ) -> io::Result<(Stream, Option<SocketAddr>)>
        ensures lasts { IfErr result (λ error. passes (error_kind error) ≡ false) }
    {
        let mut begun = None;
        for _ in 0..u64::MAX {
            match again(|| listener.accept()) {
                Ok(accepted) => return Ok(accepted),
                Err(error) => {
                    if !self.shortage.may_pass(rt, &mut begun, error) {
                        return Err(error);
                    }
                }
            }
        }
        Err(ErrorKind::Other.into())
    }

    /// The listener, which the first call binds. Where that is refused the next call tries again. The log gets where it
    /// listens, and the first refusal.
    pub(crate) fn listener<R, N>(&self, rt: &R, net: &N) -> io::Result<&Listener>
    where
        R: Wait + Log,
        N: Net<Listener = TcpListener, Stream = TcpStream> + Files,
    {
        if let Some(listener) = self.listener.get() {
            return Ok(listener);
        }
        let mut is_said = self.binding.lock(rt);
        if let Some(listener) = self.listener.get() {
            return Ok(listener);
        }
        let address = self.address.as_str();
        match Listener::bind(net, address) {
            Ok(listener) => {
                say_place(rt, address, &listener);
                Ok(self.listener.get_or_init(rt, move || listener))
            }
            Err(error) => {
                if !*is_said {
                    error!(rt; "can't listen at {address}: {error}");
                    *is_said = true;
                }
                Err(error)
            }
        }
    }
}

// Says where it listens, and if whoever reaches the machine reaches it there.
fn say_place<R: Log>(rt: &R, address: &str, listener: &Listener) {
    match listener.place() {
        Ok(Some(place)) => {
            info!(rt; "listening at {place}");
            if place.ip().is_unspecified() {
                warn!(rt; "whoever reaches this machine may edit the survey: listen at 127.0.0.1 or at the path of a Unix socket, behind a proxy");
            }
        }
        _ => info!(rt; "listening at {address}"),
    }
}
