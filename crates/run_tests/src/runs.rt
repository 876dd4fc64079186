//! Runs of the whole program over ends in memory, each described by a row of text. Only here do the tests of its commands
//! call `run`, which promises so much that each call is dear to prove.
//!
//! A row has these fields, with a `|` between two. Those behind the output may be empty or left out.
//!
//! | | Field | Where it is empty |
//! |---|---|---|
//! | 0 | the command line | no words |
//! | 1 | the input | none |
//! | 2 | the status | |
//! | 3 | the output | none |
//! | 4 | the files of the shelf | the description of the small survey |
//! | 5 | in pieces of how many bytes the input comes | 1,000 |
//! | 6 | the read that fails | none |
//! | 7 | for how many bytes of output there is room | 65,536 |
//! | 8 | the write or flush that fails | none |
//! | 9 | the paths of the shelf after the run | those before it |

use crate::texts::{SMALL, bytes_of, field, paths, shelf_of};
use hipsd_run::run;
use log::Log;
use memory_link::{MemDoor, MemShelf, MemSink, MemSource};
use parent_rule::Steps;
use std::alloc::{AllocError, Global};
use std::process::Abort;
use std::sync::Wait;
use std::test::Fail;
use std::thread::Threads;
use std::time::Clock;
use survey_link::OpenGate;

// The words of a command line.
fn words_of(alloc: Global, line: &str) -> Result<Vec<String>, AllocError> {
    let mut words = Vec::new(alloc);
    for word in line.split_whitespace() {
        words.push(String::from_str(alloc, word)?)?;
    }
    Ok(words)
}

// Runs a command over these ends and no doors, and answers its status.
fn run_words<R: AllocGlobal + Threads + Wait + Sync + Clock + Log>(
    rt: &R,
    words: &[String],
    source: &mut MemSource,
    sink: &mut MemSink,
    shelf: &mut MemShelf,
) -> u8 {
    let mut doors: Vec<MemDoor> = Vec::new(rt.alloc());
    let gate = OpenGate::new();
    let mut steps = Steps::new();
    run(
        rt, words, source, sink, shelf, &mut doors, &gate, &mut steps,
    )
}

// The number in a field of a row, or else this one.
fn number_or(row: &str, at: usize, other: usize) -> usize {
    field(row, at).parse::<usize>().unwrap_or(other)
}

// The call in a field of a row, if there is one.
fn failing(alloc: Global, row: &str, at: usize) -> Result<Vec<u64>, AllocError> {
    let mut calls = Vec::new(alloc);
    if let Ok(call) = field(row, at).parse::<u64>() {
        calls.push(call)?;
    }
    Ok(calls)
}

// Whether the run of a row over that sink and that shelf ends by its status.
fn ends<R: AllocGlobal + Threads + Wait + Sync + Clock + Log>(
    rt: &R,
    row: &str,
    sink: &mut MemSink,
    shelf: &mut MemShelf,
) -> Result<bool, Fail> {
    let alloc = rt.alloc();
    let words = words_of(alloc, field(row, 0))?;
    let input = bytes_of(alloc, field(row, 1))?;
    let piece = number_or(row, 5, 1_000).max(1);
    let mut source = MemSource::new(input, piece, failing(alloc, row, 6)?);
    let status = run_words(rt, &words, &mut source, sink, shelf);
    Ok(field(row, 2).parse::<u8>() == Ok(status))
}

// The same, and whether the output is that of the row.
fn writes<R: AllocGlobal + Threads + Wait + Sync + Clock + Log>(
    rt: &R,
    row: &str,
    shelf: &mut MemShelf,
) -> Result<bool, Fail> {
    let alloc = rt.alloc();
    let mut sink = MemSink::new(alloc, number_or(row, 7, 65_536), failing(alloc, row, 8)?)?;
    let ended = ends(rt, row, &mut sink, shelf)?;
    Ok(ended && sink.bytes() == bytes_of(alloc, field(row, 3))?.as_slice())
}

// The same, and whether the shelf has the paths after it that the row says.
fn leaves<R: AllocGlobal + Threads + Wait + Sync + Clock + Log>(
    rt: &R,
    row: &str,
    shelf: &mut MemShelf,
) -> Result<bool, Fail> {
    let before = paths(rt.alloc(), shelf)?;
    let ended = writes(rt, row, shelf)?;
    let after = paths(rt.alloc(), shelf)?;
    match field(row, 9) {
        "" => Ok(ended && after == before),
        wanted => Ok(ended && after.as_str() == wanted),
    }
}

// Whether the run of a row goes so over a shelf of its own.
fn goes<R: AllocGlobal + Threads + Wait + Sync + Clock + Log>(
    rt: &R,
    row: &str,
) -> Result<bool, Fail> {
    let files = match field(row, 4) {
        "" => SMALL,
        files => files,
    };
    let mut shelf = shelf_of(rt.alloc(), files)?;
    leaves(rt, row, &mut shelf)
}

/// Each run goes so whose row is one of these between the two texts.
pub(crate) fn all_go<R: AllocGlobal + Threads + Wait + Sync + Clock + Log + Abort>(
    rt: &R,
    before: &str,
    rows: &str,
    behind: &str,
) -> Result<(), Fail> {
    for part in rows.lines() {
        let row = format!(in rt.alloc(); "{before}{part}{behind}")?;
        assert!(rt; goes(rt, row.as_str())?, "{row}");
    }
    Ok(())
}
