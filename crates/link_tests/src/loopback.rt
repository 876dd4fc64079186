//! Connections of `tcp_link` over the loopback device, and over Unix sockets in the folder that the test runs in.
use log::Log;
use std::cell::Cell;
use std::io::{ErrorKind, Read, Write};
use std::net::{Net, SocketAddr, TcpListener, TcpStream};
use std::process::Abort;
use std::rt::Files;
use std::sync::Wait;
use std::test::Fail;
use std::time::{Clock, Duration};
use std::{fs, io};
use survey_link::{Door, Failed, Sink, Source, write_whole};
use tcp_link::again::again;
use tcp_link::{Patience, TcpDoor, TcpIn, TcpOut, dial, patient_doors, tcp_doors};

// Any free port of the loopback device.
static FREE: &str = "127.0.0.1:0";

// What a door and its checks need of the runtime.
trait Outside: Net<Listener = TcpListener, Stream = TcpStream>
    + Files
    + Wait
    + Clock
    + Log
    + Abort
    + AllocGlobal
    + Clone
    + Drop {}

impl<R> Outside for R
where
    R: Net<Listener = TcpListener, Stream = TcpStream>
        + Files
        + Wait
        + Clock
        + Log
        + Abort
        + AllocGlobal
        + Clone
        + Drop,
{}

// A connection and its client.
#[derive(Drop)]
struct Met<R> {
    client: TcpStream,
    input: TcpIn<R>,
    output: TcpOut<R>,
}

// Where the door listens.
fn place_of<R: Outside>(door: &mut TcpDoor<R, R>) -> Result<SocketAddr, Fail> {
    match door.listen()? {
        Some(place) => Ok(place),
        None => Err(Fail::new("no place")),
    }
}

// The connection of a client that has just come to the door.
fn meet<R: Outside>(rt: &R, door: &mut TcpDoor<R, R>) -> Result<Met<R>, Fail> {
    let client = TcpStream::connect(rt, place_of(door)?)?;
    match door.accept()? {
        Some((input, output)) => Ok(Met {
            client,
            input,
            output,
        }),
        None => Err(Fail::new("no connection")),
    }
}

// The client gets this reply and no more.
fn check_reply<R: AllocGlobal + Abort>(
    rt: &R,
    client: &mut TcpStream,
    reply: &str,
) -> Result<(), Fail> {
    let mut got = String::new(rt.alloc());
    client.read_to_string(&mut got)?;
    assert_eq!(rt; got.as_str(), reply);
    Ok(())
}

// Gives the connection back, and answers the client.
fn end<R: Outside>(door: &mut TcpDoor<R, R>, met: Met<R>) -> TcpStream {
    let Met {
        client,
        input,
        output,
    } = met;
    door.done(input, output);
    client
}

// What nobody reads before the connection is closed.
fn say_too_much<R: Outside>(met: &mut Met<R>) -> Result<(), Fail> {
    met.client.write_all(&[0; 100_000])?;
    write_whole(&mut met.output, b"too long")?;
    Ok(())
}

#[test]
fn a_reply_is_read_to_its_end(rt: HostRuntime) -> Result<(), Fail> {
    let mut doors = tcp_doors(&rt, &rt, FREE, 1)?;
    let mut met = meet(&rt, &mut doors[0])?;
    say_too_much(&mut met)?;
    check_reply(&rt, &mut end(&mut doors[0], met), "too long")
}

// Writes a reply of 64 MB, of which the buffers on the way hold a few.
fn send_much<K: Sink>(sink: &mut K) -> Result<(), Failed> {
    for _ in 0..1000 {
        write_whole(sink, &[0; 65_536])?;
    }
    Ok(())
}

// Clients that may be idle for 100 milliseconds, and take 300 for a request or a reply, however many bytes it has.
fn impatience() -> Patience {
    Patience {
        rest: Duration::from_millis(100),
        turn: Duration::from_millis(300),
        pace: 0,
        end: Duration::from_millis(100),
    }
}

// How many bytes a reading gives; `None` where it fails.
fn read_some<S: Source>(source: &mut S) -> Option<usize> {
    source.read(&mut [0; 8]).ok()
}

// A client that says nothing, then some bytes of a body, and takes nothing of its reply.
fn check_deadlines<R: Outside>(
    rt: &R,
    door: &mut TcpDoor<R, R>,
    client: &mut TcpOut<R>,
) -> Result<(), Fail> {
    match door.accept()? {
        Some((mut input, mut output)) => {
            assert_eq!(rt; read_some(&mut input), None);
            write_whole(client, b"abc")?;
            assert_eq!(rt; read_some(&mut input), Some(3));
            assert_eq!(rt; read_some(&mut input), None);
            assert!(rt; send_much(&mut output).is_err());
            Ok(())
        }
        None => Err(Fail::new("no connection")),
    }
}

#[test]
fn a_unix_socket_has_deadlines(rt: HostRuntime) -> Result<(), Fail> {
    let path = "./silent";
    let _ = fs::remove_file(&rt, path);
    let mut doors = patient_doors(&rt, &rt, path, 1, impatience())?;
    doors[0].listen()?;
    let (_input, mut output) = dial(&rt, &rt, path)?;
    check_deadlines(&rt, &mut doors[0], &mut output)?;
    assert_eq!(rt; doors[0].faults(), 0);
    fs::remove_file(&rt, path)?;
    Ok(())
}

// A call whose first answer is an error of this kind and whose second is a number.
fn answers_second(kind: ErrorKind, calls: &Cell<u32>) -> io::Result<u32> {
    calls.set(calls.get().saturating_add(1));
    if calls.get() == 1 {
        Err(kind.into())
    } else {
        Ok(calls.get())
    }
}

fn answer_of(kind: ErrorKind) -> Option<u32> {
    let calls = Cell::new(0);
    again(|| answers_second(kind, &calls)).ok()
}

#[test]
fn an_accept_is_made_again(rt: HostRuntime) {
    assert_eq!(rt; answer_of(ErrorKind::Interrupted), Some(2));
    assert_eq!(rt; answer_of(ErrorKind::ConnectionAborted), Some(2));
    assert_eq!(rt; answer_of(ErrorKind::ConnectionReset), None);
}
