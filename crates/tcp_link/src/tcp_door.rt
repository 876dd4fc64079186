//! The doors of an address.
ghost use Rattle.std.specs.Prelude.{◌≡◌, ◌≤◌, None, Some, replicate, IfOk, IfErr, IfSome, IsSome, IsErrOf, OnOk, OnErr};
ghost use Rattle.survey_link.specs.Link.{next_count};
ghost use Rattle.tcp_link.specs.Tcp.{Lasts, FailsAccept, RunsOutOfMemory, StopsListening, says_out_of_memory};

use crate::connection::Connection;
use crate::listening::Listening;
use crate::patience::Patience;
use crate::refusal::Refusal;
use crate::stream::{Listener, Stream};
use crate::tcp_in::TcpIn;
use crate::tcp_out::TcpOut;
use log::{Log, debug};
use std::alloc::AllocError;
use std::fs::Files;
use std::io;
use std::marker::Model;
use std::net::{Net, SocketAddr, TcpListener, TcpStream};
use std::sync::{Arc, Wait};
use std::time::Clock;
use survey_link::{Door, DoorFault};

/// A door of an address, over TCP or a Unix socket. Its connections are opaque to the proof.
///
/// The doors of one address share a listener, which the first call that needs it binds. What it answers as `Failed` counts
/// as a fault: that the system refuses to listen, to accept, or to split a stream into its halves. An accept that the
/// system interrupts, or whose client has gone, is made again and counts as none; one for which the system has no
/// descriptor or no buffer is made again for five minutes, after a pause each time, before it counts. Nor does one for
/// which there is no memory, which has a count of its own; its client is dropped. A connection that is given back is
/// closed.
///
/// The log gets each connection's client, with the place of the door among those of its address and the connection's number
/// at it, both from 1 on. Over a Unix socket clients have no address.
/// While all doors of an address have been busy for ten seconds, a warning is logged, once a minute; so is one if they listen at
/// every address of the machine.
#[derive(Drop)]
pub struct TcpDoor<R, N> {
    runtime: R,
    net: N,
    listening: Arc<Listening>,
    patience: Patience,
    place: usize,
    taken: u64,
    faults: u64,
    // How many accepts found no memory.
    memory_faults: u64,
    refusal: Option<Refusal>,
}

impl<R, N> Model for TcpDoor<R, N> {
    ghost use Rattle.tcp_link.specs.Tcp.{DoorState};

    ghost Value = { DoorState };

    ghost view = { λ a. record { faults = a.faults; memory_faults = a.memory_faults; refusal = a.refusal } };
}

/// So many doors of an address: an IP address or a host's name with `:` and a port, or the path of a Unix socket, with a `/`.
/// Nothing is bound yet. A socket that a dead server left at the path is then replaced.
///
/// Each keeps a copy of `rt`, which allows it to wait, and of `net`, since no call of a door is passed one.
///
/// # Errors
///
/// `AllocError` where there is no memory.
pub fn tcp_doors<R, N>(
    rt: &R,
    net: &N,
    address: &str,
    count: usize,
) -> Result<Vec<TcpDoor<R, N>>, AllocError>
where
    R: AllocGlobal + Clone + Drop,
    N: Clone + Drop,
    ensures { IfOk result (λ doors. doors.items ≡ replicate count (record { faults = 0; memory_faults = 0; refusal = None })) }
{
    patient_doors(rt, net, address, count, Patience::usual())
}

/// As `tcp_doors`, of doors whose clients may take so long.
///
/// # Errors
///
/// As for `tcp_doors`.
pub fn patient_doors<R, N>(
    rt: &R,
    net: &N,
    address: &str,
    count: usize,
    patience: Patience,
) -> Result<Vec<TcpDoor<R, N>>, AllocError>
where
    R: AllocGlobal + Clone + Drop,
    N: Clone + Drop,
    ensures { IfOk result (λ doors. doors.items ≡ replicate count (record { faults = 0; memory_faults = 0; refusal = None })) }
{
    let alloc = rt.alloc();
    let listening = Arc::new(alloc, Listening::new(String::from_str(alloc, address)?))?;
    let mut doors = Vec::new(alloc);
    for at in 0..count {
        doors.push(TcpDoor {
            runtime: rt.clone()?,
            net: net.clone()?,
            listening: Arc::try_clone(&listening)?,
            patience,
            place: at + 1,
            taken: 0,
            faults: 0,
            memory_faults: 0,
            refusal: None,
        })?;
    }
    Ok(doors)
}

impl<R, N> TcpDoor<R, N> {
    /// What the door was last refused; `None` if and only if it was never refused anything.
    pub fn refusal(&self) -> Option<Refusal>
        ensures { result ≡ self.now.refusal }
    {
        self.refusal
    }

    // Counts what is answered as `Failed`.
    fn fail(&mut self, refusal: Refusal) -> DoorFault
        ensures fault { result ≡ DoorFault.Failed }
        ensures counted { self.new ≡ record self.old { faults = next_count self.old.faults; refusal = Some refusal } }
        ensures never_falls { self.old.faults ≤ self.new.faults }
    {
        self.faults = self.faults.saturating_add(1);
        self.refusal = Some(refusal);
        DoorFault::Failed
    }

    // Counts what is answered as `OutOfMemory`.
    fn want(&mut self, refusal: Refusal) -> DoorFault
        ensures fault { result ≡ DoorFault.OutOfMemory }
        ensures counted { self.new ≡ record self.old { memory_faults = next_count self.old.memory_faults; refusal = Some refusal } }
        ensures never_falls { self.old.memory_faults ≤ self.new.memory_faults }
    {
        self.memory_faults = self.memory_faults.saturating_add(1);
        self.refusal = Some(refusal);
        DoorFault::OutOfMemory
    }
}

impl<R, N> TcpDoor<R, N>
where
    R: Wait + Clock + Log + AllocGlobal + Clone + Drop,
    N: Net<Listener = TcpListener, Stream = TcpStream> + Files + Clone + Drop,
{
    /// Listens, where no door of the address does yet, and answers where: at the port that the system chose, if it was asked
    /// for port 0; `None` at the path of a Unix socket.
    ///
    /// # Errors
    ///
    /// `DoorFault::Failed` only where the count of faults rose.
    pub fn listen(&mut self) -> Result<Option<SocketAddr>, DoorFault>
        ensures sound { OnOk result (self.new ≡ self.old) }
        ensures failed { OnErr result ((self.new.faults ≡ next_count self.old.faults) × (self.new.memory_faults ≡ self.old.memory_faults)) }
        ensures only { IfErr result (λ fault. fault ≡ DoorFault.Failed) }
        ensures cause { OnErr result (StopsListening self.new.refusal) }
    {
        match self.place() {
            Ok(place) => Ok(place),
            Err(refusal) => Err(self.fail(refusal)),
        }
    }

    // Where it listens.
    fn place(&self) -> Result<Option<SocketAddr>, Refusal>
        ensures cause { IfErr result (λ refusal. StopsListening (Some refusal)) }
    {
        let listener = self.listener()?;
        listener.place().map_err(Refusal::Listen)
    }

    fn listener(&self) -> Result<&Listener, Refusal>
        ensures cause { IfErr result (λ refusal. StopsListening (Some refusal)) }
    {
        self.listening
            .listener(&self.runtime, &self.net)
            .map_err(Refusal::Listen)
    }

    // The halves of the next connection. No memory for what they share is a refusal to split its stream.
    fn next(&self) -> Result<(TcpIn<R>, TcpOut<R>), Refusal>
        ensures fresh { IfOk result (λ halves. (halves.0 ≡ 0) × (halves.1 ≡ 0)) }
        ensures cause { IfErr result Lasts }
    {
        let listener = self.listener()?;
        let (stream, client) = self
            .listening
            .accept(&self.runtime, listener)
            .map_err(Refusal::Accept)?;
        self.say_client(client);
        self.halves(stream).map_err(Refusal::Split)
    }

    // Says whose the next connection is.
    fn say_client(&self, client: Option<SocketAddr>) {
        let number = self.taken.saturating_add(1);
        let connection = self.runtime.span("connection");
        let rt = connection.with("place", self.place).with("number", number);
        match client {
            Some(client) => debug!(rt; target: "client", "{client}"),
            None => debug!(rt; target: "client", "unix"),
        }
    }

    // The halves of a stream.
    fn halves(&self, stream: Stream) -> io::Result<(TcpIn<R>, TcpOut<R>)>
        ensures fresh { IfOk result (λ halves. (halves.0 ≡ 0) × (halves.1 ≡ 0)) }
    {
        stream.prepare(self.patience)?;
        let listening = Arc::try_clone(&self.listening)?;
        let connection = Connection::new(
            self.runtime.clone()?,
            self.patience,
            Some(stream),
            Some(listening),
        );
        let connection = Arc::new(self.runtime.alloc(), connection)?;
        let output = TcpOut::new(Arc::try_clone(&connection)?);
        Ok((TcpIn::new(connection), output))
    }
}

impl<R, N> Door for TcpDoor<R, N>
where
    R: Wait + Clock + Log + AllocGlobal + Clone + Drop,
    N: Net<Listener = TcpListener, Stream = TcpStream> + Files + Clone + Drop,
{
    type In = TcpIn<R>;

    type Out = TcpOut<R>;

    ghost connections = { λ _. None };

    ghost faults = { λ door. door.faults };

    ghost memory_faults = { λ door. door.memory_faults };

    // A real door has no last connection.
    fn accept(&mut self) -> Result<Option<(TcpIn<R>, TcpOut<R>)>, DoorFault>
        ensures comes { IfOk result (λ next. IfSome next (λ halves. (halves.0 ≡ 0) × (halves.1 ≡ 0)) × IsSome next) }
        ensures sound { OnOk result (self.new ≡ self.old) }
        ensures failed { IsErrOf result DoorFault.Failed → (self.new.faults ≡ next_count self.old.faults) × (self.new.memory_faults ≡ self.old.memory_faults) }
        ensures cause { IsErrOf result DoorFault.Failed → FailsAccept self.new.refusal }
        ensures wanted { IsErrOf result DoorFault.OutOfMemory → (self.new.memory_faults ≡ next_count self.old.memory_faults) × (self.new.faults ≡ self.old.faults) }
        ensures want_never_falls { IsErrOf result DoorFault.OutOfMemory → self.old.memory_faults ≤ self.new.memory_faults }
        ensures want_cause { IsErrOf result DoorFault.OutOfMemory → RunsOutOfMemory self.new.refusal }
        ensures never_falls { self.old.faults ≤ self.new.faults }
    {
        match self.next() {
            Ok(halves) => {
                self.taken = self.taken.saturating_add(1);
                Ok(Some(halves))
            }
            Err(refusal) => {
                if refusal.says_out_of_memory() {
                    Err(self.want(refusal))
                } else {
                    Err(self.fail(refusal))
                }
            }
        }
    }

    fn faults(&self) -> u64
        ensures { result ≡ self.now.faults }
    {
        self.faults
    }

    // Where reading has failed nobody waits for the rest of a reply.
    fn done(&mut self, input: TcpIn<R>, output: TcpOut<R>)
        ensures sound { self.new ≡ self.old }
    {
        if !input.has_failed() {
            output.end();
        }
    }
}
