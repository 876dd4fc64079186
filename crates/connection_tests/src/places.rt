//! Places over a door in memory.
use crate::surveys::opened;
use hips_place::{InConnection, PlaceEnd, serve_place};
use log::Log;
use memory_link::{MemDoor, MemSink, MemSource};
use parent_rule::Steps;
use reader_pin::Solo;
use small_files::SURVEY;
use std::alloc::{AllocError, Global};
use std::test::Fail;
use std::thread::Threads;
use std::time::Clock;
use survey_link::OpenGate;

static PIN: &[u8] = b"POST /pin HTTP/1.1\r\nHost: a\r\n\r\n";

static PINNED: &[u8] =
    b"HTTP/1.1 200 OK\r\nContent-Type: text/plain\r\nContent-Length: 9\r\nSurvey-Prefix: 0\r\n\r\npinned 0\n";

fn client(alloc: Global) -> Result<(MemSource, MemSink), AllocError> {
    let source = MemSource::new(Vec::from_slice(alloc, PIN)?, 8, Vec::new(alloc));
    let sink = MemSink::new(alloc, 1024, Vec::new(alloc))?;
    Ok((source, sink))
}

// A door through which two clients come, whose accept with this number fails.
fn door_of(alloc: Global, fails: u64) -> Result<MemDoor, AllocError> {
    let mut clients = Vec::new(alloc);
    clients.push(client(alloc)?)?;
    clients.push(client(alloc)?)?;
    MemDoor::new(alloc, clients, Vec::from_slice(alloc, &[fails])?)
}

// How many of the clients were served and given back.
fn served(door: &MemDoor) -> usize {
    (0..2)
        .filter(|i| match door.given(*i) {
            Some((_, sink)) => sink.bytes() == PINNED,
            None => false,
        })
        .count()
}

// How a place ends that takes so many connections, and how many of them it serves.
fn place<R: Threads + Sync + Clock + Log>(
    rt: &R,
    alloc: Global,
    most: u32,
    fails: u64,
) -> Result<(PlaceEnd, usize), Fail> {
    let mut board = opened(rt, alloc, SURVEY)?;
    let mut door = door_of(alloc, fails)?;
    let end = serve_place::<&R, InConnection<&R>, Solo, MemDoor, OpenGate>(
        &rt,
        alloc,
        1,
        &mut board,
        &mut door,
        most,
        &OpenGate::new(),
        &mut Steps::new(),
    );
    Ok((end, served(&door)))
}

// Each row: the limit of connections, the accept that fails, how the place ends, and how many were served.
static PLACES: [(u32, u64, PlaceEnd, usize); 5] = [
    (0, 9, PlaceEnd::Done, 0),
    (1, 9, PlaceEnd::Done, 1),
    (2, 9, PlaceEnd::Done, 2),
    (9, 9, PlaceEnd::Done, 2),
    (9, 1, PlaceEnd::Failed, 1),
];

#[test]
fn a_place_serves_its_connections(rt: HostRuntime) -> Result<(), Fail> {
    for (most, fails, end, count) in &PLACES {
        let went = place(&rt, rt.alloc(), *most, *fails)?;
        assert!(rt; went == (*end, *count), "{most} {fails}");
    }
    Ok(())
}
