//! A copy from a session in memory.
use hips_http::{SessionEnd, session};
use log::Log;
use memory_link::{MemShelf, MemSink, MemSource};
use parent_rule::Steps;
use reader_pin::Solo;
use served_copy::mirror_session;
use small_files::{SURVEY, TILE_HEADER, fill_block, tile_file};
use small_survey::first_state;
use std::alloc::Global;
use std::test::Fail;
use std::thread::Threads;
use std::time::Clock;
use survey_link::{OpenGate, Shelf};

// Puts a leaf of two blocks, whose file follows, and publishes it.
static PUT: &str = "PUT /Norder4/Dir0/Npix0.fits HTTP/1.1\r
Host: editor\r
Content-Length: 5760\r
\r
";

static PUBLISH: &str = "POST /publish HTTP/1.1\r
Host: editor\r
\r
";

// The requests of a copy of a survey with leaf 0.
static REQUESTS: &str = "POST /pin HTTP/1.1\r
Host: mirror\r
\r
GET /properties HTTP/1.1\r
Host: mirror\r
\r
GET /Moc.fits HTTP/1.1\r
Host: mirror\r
\r
GET /Norder4/Dir0/Npix0.fits HTTP/1.1\r
Host: mirror\r
\r
GET /Norder3/Allsky.fits HTTP/1.1\r
Host: mirror\r
\r
POST /unpin HTTP/1.1\r
Host: mirror\r
Connection: close\r
\r
";

// What a session flushes that is sent these requests, where it ends so.
fn flushed<R: Threads + Sync + Clock + Log>(
    rt: &R,
    alloc: Global,
    board: &mut Solo,
    requests: Vec<u8>,
    wanted: SessionEnd,
) -> Result<Vec<u8>, Fail> {
    let mut source = MemSource::new(requests, 1_000, Vec::new(alloc));
    let mut sink = MemSink::new(alloc, 100_000, Vec::new(alloc))?;
    let gate = OpenGate::new();
    let served = session(
        rt,
        alloc,
        board,
        &mut source,
        &mut sink,
        &gate,
        &mut Steps::new(),
    );
    if served.end != wanted {
        return Err("another end".into());
    }
    Ok(Vec::from_slice(alloc, sink.bytes())?)
}

// The board of the survey in which leaf 0 is published.
fn edited<R: Threads + Sync + Clock + Log>(rt: &R, alloc: Global) -> Result<Solo, Fail> {
    let mut board = Solo::new(alloc, first_state(rt, alloc, SURVEY)?)?;
    let mut file = tile_file(alloc, TILE_HEADER, [1, 2, 3, 5])?;
    fill_block(&mut file, 0)?;
    let mut input = Vec::from_slice(alloc, PUT.as_bytes())?;
    input.extend_from_slice(&file)?;
    input.extend_from_slice(PUBLISH.as_bytes())?;
    let _replies = flushed(rt, alloc, &mut board, input, SessionEnd::Closed)?;
    Ok(board)
}

// The paths of the shelf, in order, each with a space behind it.
fn listed(alloc: Global, shelf: &mut MemShelf) -> Result<String, Fail> {
    let mut paths = shelf.list(alloc)?;
    paths.sort()?;
    let mut text = String::new(alloc);
    for path in &paths {
        text.push_str(path)?;
        text.push(' ')?;
    }
    Ok(text)
}

fn copies_one<R: Threads + Sync + Clock + Log>(rt: &R, alloc: Global) -> Result<bool, Fail> {
    let mut board = edited(rt, alloc)?;
    let requests = Vec::from_slice(alloc, REQUESTS.as_bytes())?;
    let replies = flushed(rt, alloc, &mut board, requests, SessionEnd::Asked)?;
    let mut src = MemSource::new(replies, 1_000, Vec::new(alloc));
    let mut sink = MemSink::new(alloc, 10_000, Vec::new(alloc))?;
    let mut shelf = MemShelf::new(alloc, Vec::new(alloc));
    let answer = mirror_session(rt, alloc, &mut src, &mut sink, &mut shelf, &OpenGate::new());
    let paths = listed(alloc, &mut shelf)?;
    Ok(
        answer == Ok(5)
            && sink.bytes() == REQUESTS.as_bytes()
            && paths.as_str()
                == "Moc.fits Norder3/Allsky.fits Norder3/Dir0/Npix0.fits Norder4/Dir0/Npix0.fits properties ",
    )
}

#[test]
fn a_served_leaf_is_copied(rt: HostRuntime) -> Result<(), Fail> {
    assert!(rt; copies_one(&rt, rt.alloc())?);
    Ok(())
}
