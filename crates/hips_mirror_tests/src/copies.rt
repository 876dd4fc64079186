//! Copies over ends in memory.
use crate::peers::{opened, replies};
use hips_mirror::{MirrorRefusal, mirror};
use log::Log;
use memory_link::{MemShelf, MemSink, MemSource};
use parent_rule::Steps;
use shelf_io::verify;
use std::alloc::Global;
use std::test::Fail;
use std::thread::Threads;
use std::time::Clock;
use survey_link::{OpenGate, Shelf};

// The requests of a copy of a survey without leaves.
static REQUESTS: &str = "POST /pin HTTP/1.1\r
Host: mirror\r
\r
GET /properties HTTP/1.1\r
Host: mirror\r
\r
GET /Moc.fits HTTP/1.1\r
Host: mirror\r
\r
POST /unpin HTTP/1.1\r
Host: mirror\r
Connection: close\r
\r
";

// A copy from a peer that sends these bytes, by pieces.
pub(crate) fn copied<R: Threads + Sync + Clock + Log>(
    rt: &R,
    alloc: Global,
    bytes: Vec<u8>,
    sink: &mut MemSink,
    shelf: &mut MemShelf,
) -> Result<u64, MirrorRefusal> {
    let mut src = MemSource::new(bytes, 1_000, Vec::new(alloc));
    mirror(
        rt,
        alloc,
        &mut src,
        sink,
        shelf,
        &OpenGate::new(),
        &mut Steps::new(),
    )
}

// The paths of the shelf, in order, each with a space behind it.
fn listed(alloc: Global, shelf: &mut MemShelf) -> Result<String, Fail> {
    let mut paths = shelf.list(alloc)?;
    paths.sort()?;
    let mut text = String::new(alloc);
    for path in &paths {
        text.push_str(path)?;
        text.push(' ')?;
    }
    Ok(text)
}

fn copies_empty<R: Threads + Sync + Clock + Log>(rt: &R, alloc: Global) -> Result<bool, Fail> {
    let mut sink = MemSink::new(alloc, 10_000, Vec::new(alloc))?;
    let mut shelf = MemShelf::new(alloc, Vec::new(alloc));
    shelf.put("note.txt", b"keep")?;
    shelf.put("Norder3/Dir0/Npix0.fits", b"stray")?;
    let bytes = replies(rt, alloc, 0)?;
    let answer = copied(rt, alloc, bytes, &mut sink, &mut shelf);
    let paths = listed(alloc, &mut shelf)?;
    Ok(
        answer == Ok(2)
            && sink.bytes() == REQUESTS.as_bytes()
            && paths.as_str() == "Moc.fits note.txt properties ",
    )
}

#[test]
fn an_empty_survey_is_copied(rt: HostRuntime) -> Result<(), Fail> {
    assert!(rt; copies_empty(&rt, rt.alloc())?);
    Ok(())
}

fn copies_four<R: Threads + Sync + Clock + Log>(rt: &R, alloc: Global) -> Result<bool, Fail> {
    let mut sink = MemSink::new(alloc, 10_000, Vec::new(alloc))?;
    let mut shelf = MemShelf::new(alloc, Vec::new(alloc));
    let bytes = replies(rt, alloc, 4)?;
    let answer = copied(rt, alloc, bytes, &mut sink, &mut shelf);
    let survey = opened(rt, alloc, 4)?;
    let verdict = verify(rt, alloc, &mut shelf, &survey)?;
    let told = verdict.to_string(alloc)?;
    Ok(answer == Ok(8) && told.as_str() == "verified 8")
}

#[test]
fn four_leaves_are_copied(rt: HostRuntime) -> Result<(), Fail> {
    assert!(rt; copies_four(&rt, rt.alloc())?);
    Ok(())
}
