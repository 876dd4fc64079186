//! A catalogue of as many rows as it may have, and the line of one more.
use catalog_command::run_catalog;
use log::Log;
use memory_link::{MemShelf, MemSink, MemSource};
use std::alloc::{AllocError, Global};
use std::io::Print;
use std::test::Fail;
use std::time::Clock;

// The ranks and ids of the rows, in their order: one row more than a catalogue may have.
const FIRST: u64 = 1_000_000;

const END: u64 = 2_000_001;

// How many bytes a read gives at most.
const PIECE: usize = 65_536;

/// Runs `catalog` over the lines, and prints how it ended.
///
/// # Errors
///
/// Where there is no memory.
pub fn print_catalog<R: AllocGlobal + Print + Clock + Log>(rt: &R) -> Result<(), Fail> {
    let alloc = rt.alloc();
    let lines = lines(alloc)?;
    let bytes = lines.len();
    let mut source = MemSource::new(lines, PIECE, Vec::new(alloc));
    let mut sink = MemSink::new(alloc, PIECE, Vec::new(alloc))?;
    let mut shelf = MemShelf::new(alloc, Vec::new(alloc));
    let status = run_catalog(rt, 0, 1, &mut source, &mut sink, &mut shelf).number();
    println!(rt;
        "catalog bytes {bytes} status {status} {}",
        shown(sink.bytes())
    )?;
    Ok(())
}

// A line for each row, all in one cell.
fn lines(alloc: Global) -> Result<Vec<u8>, AllocError> {
    let mut lines = Vec::new(alloc);
    for number in FIRST..END {
        let line = format!(in alloc; "{number}\t0\t{number}\t\n")?;
        lines.extend_from_slice(line.as_bytes())?;
    }
    Ok(lines)
}

// The first line of a text.
fn shown(bytes: &[u8]) -> &str {
    str::from_utf8(bytes)
        .unwrap_or("")
        .lines()
        .next()
        .unwrap_or("")
}
