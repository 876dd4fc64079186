//! Whole runs of `catalog` over ends in memory, each described by a row of text.
//!
//! In the rows `,` stands for a TAB, `;` for a line feed, and a number between two `*` for that many `x`. A row has these fields,
//! with a `|` between two. Those behind the line may be empty or left out.
//!
//! | | Field | Where it is empty |
//! |---|---|---|
//! | 0 | the deepest order, and how many rows a tile holds | |
//! | 1 | the input | none |
//! | 2 | the status | |
//! | 3 | the line that is written | none |
//! | 4 | the files after the run, each as PATH=TEXT with a `&` between two | none |
//! | 5 | those before it | none |
//! | 6 | the read that fails | none |
//! | 7 | the write or flush that fails | none |
//! | 8 | the call of the shelf that fails, of those after the files before were put | none |
ghost use Rattle.std.specs.Prelude.{◌≤◌};

use catalog_command::run_catalog;
use log::Log;
use memory_link::{MemShelf, MemSink, MemSource};
use std::alloc::{AllocError, Global};
use std::process::Abort;
use std::test::Fail;
use std::time::Clock;
use survey_link::Shelf;

static RUNS: &str = "\
1 1|5,0,a,;3,1,b,;4,0,c,;|0|rows 3 tiles 2;|Norder0/Dir0/Npix0.tsv=rank,npix,id,rest;3,1,b,;&Norder1/Dir0/Npix0.tsv=rank,npix,id,rest;4,0,c,;5,0,a,;
1 1|5,0,a,;3,1,b,;4,0,c,;-,b;|0|rows 2 tiles 2;|Norder0/Dir0/Npix0.tsv=rank,npix,id,rest;4,0,c,;&Norder1/Dir0/Npix0.tsv=rank,npix,id,rest;5,0,a,;
1 1|7,0,b,the last;7,1,a,1.5;5,4,c,;|0|rows 3 tiles 3;|Norder0/Dir0/Npix0.tsv=rank,npix,id,rest;7,1,a,1.5;&Norder0/Dir0/Npix1.tsv=rank,npix,id,rest;5,4,c,;&Norder1/Dir0/Npix0.tsv=rank,npix,id,rest;7,0,b,the last;
1 1|7,0,b,the last;7,1,a,1.5;5,4,c,;-,a;|0|rows 2 tiles 2;|Norder0/Dir0/Npix0.tsv=rank,npix,id,rest;7,0,b,the last;&Norder0/Dir0/Npix1.tsv=rank,npix,id,rest;5,4,c,;
3 4096||0|rows 0 tiles 0;
0 1|1,11,x,y z;1,11,a,;-,x;2,0,-,-;|0|rows 2 tiles 2;|Norder0/Dir0/Npix0.tsv=rank,npix,id,rest;2,0,-,-;&Norder0/Dir0/Npix11.tsv=rank,npix,id,rest;1,11,a,;
11 1|18446744073709551615,50331647,a,;0,50331647,b,;|0|rows 2 tiles 2;|Norder0/Dir0/Npix11.tsv=rank,npix,id,rest;0,50331647,b,;&Norder1/Dir0/Npix47.tsv=rank,npix,id,rest;18446744073709551615,50331647,a,;
";

#[test]
fn puts_the_tiles_of_its_input(rt: HostRuntime) -> Result<(), Fail> {
    all_go(&rt, RUNS, "")
}

// The files of an earlier run, in which the row b was the best one, and two that are no tiles; and the run that makes the row b
// the worst, and takes away a tile that it has no rows for.
static AGAIN: &str = "\
1 1|5,0,a,;6,0,b,;4,0,c,;|0|rows 3 tiles 2;|Norder0/Dir0/Npix0.tsv=rank,npix,id,rest;4,0,c,;&Norder1/Dir0/Npix0.tsv=rank,npix,id,rest;5,0,a,;6,0,b,;&Norder1/Dir0/Npix09.tsv=no tile&note.txt=kept
";

static BEFORE: &str =
    "|Norder0/Dir0/Npix0.tsv=rank,npix,id,rest;3,1,b,;&Norder1/Dir0/Npix0.tsv=rank,npix,id,rest;4,0,c,;5,0,a,;&Norder1/Dir0/Npix9.tsv=rank,npix,id,rest;9,9,z,;&Norder1/Dir0/Npix09.tsv=no tile&note.txt=kept";

#[test]
fn makes_the_tiles_of_an_earlier_run_its_own(rt: HostRuntime) -> Result<(), Fail> {
    all_go(&rt, AGAIN, BEFORE)
}

// Lines with a fault, the first of the input and a later one, behind which another has one; input that is cut within a line;
// ends that fail. The files stay.
static REFUSED: &str = "\
1 2|5,0,a,;6,1,b,;5,0,c,,;5;|16|row 3 1;
1 2|5,0,a;|16|row 1 1;
1 2|;|16|row 1 1;
1 2|-;|16|row 1 1;
1 2|5,0,a,;*511*;|16|row 2 1;
1 2|5,0,a,;6,1,b,;+5,0,c,;5;|16|row 3 2;
1 2|05,0,a,;|16|row 1 2;
1 2|,0,a,;|16|row 1 2;
1 2|18446744073709551616,0,a,;|16|row 1 2;
1 2|x,y,,~;|16|row 1 2;
1 2|5,0,a,;6,1,b,;5,48,c,;5;|16|row 3 3;
1 2|5,-1,a,;|16|row 1 3;
1 2|5,00,a,;|16|row 1 3;
1 2|5,0,a,;6,1,b,;5,0,,;5;|16|row 3 4;
1 2|5,0,a b,;|16|row 1 4;
1 2|5,0,*65*,a;|16|row 1 4;
1 2|-,;|16|row 1 4;
1 2|-,a b;|16|row 1 4;
1 2|-,a,b;|16|row 1 4;
1 2|-,*65*;|16|row 1 4;
1 2|5,0,a,*257*;|16|row 1 5;
1 2|5,0,a,;6,1,b,;5,0,c,\u{7f};5;|16|row 3 5;
1 2|5,0,a,;6,1,b,;*512*;5;|16|row 3 6;
1 2|*512*|16|row 1 6;
1 2|5,0,a,;*600*|16|row 2 6;
1 2|5,0,a,;5,0,a,;|16|row 2 7;
1 2|5,0,a,;6,1,b,;-,nobody;5;|16|row 3 9;
1 2|5|4|
1 2|5,0,a,;3,1,b,rest|4|
1 2|5,0,a,;3,1,b,rest;-|4|
";

#[test]
fn refuses_the_first_line_with_a_fault(rt: HostRuntime) -> Result<(), Fail> {
    all_go(
        &rt,
        REFUSED,
        "|Norder0/Dir0/Npix3.tsv=old|Norder0/Dir0/Npix3.tsv=old",
    )
}

// Runs whose source, sink or shelf fails. The shelf's calls are the puts of the two files before; the list; a look at the tile that
// has other rows now, its removal, and its put.
static FAILING: &str = "\
1 1|5,0,a,;|5||Norder0/Dir0/Npix3.tsv=old|Norder0/Dir0/Npix3.tsv=old|0
1 1|5,0,a,;3,1,b,;4,0,c,;|5||Norder0/Dir0/Npix3.tsv=old|Norder0/Dir0/Npix3.tsv=old|2
1 1|5,0,a,;|6||Norder0/Dir0/Npix0.tsv=rank,npix,id,rest;5,0,a,;|||0
1 1|5,0,a,;|6|rows 1 tiles 1;|Norder0/Dir0/Npix0.tsv=rank,npix,id,rest;5,0,a,;|||1
1 1|5,0,a,;|0|rows 1 tiles 1;|Norder0/Dir0/Npix0.tsv=rank,npix,id,rest;5,0,a,;|||2
1 1|5,0,a,;|7||Norder0/Dir0/Npix0.tsv=old&note.txt=kept|Norder0/Dir0/Npix0.tsv=old&note.txt=kept|||2
1 1|5,0,a,;|7||Norder0/Dir0/Npix0.tsv=old&note.txt=kept|Norder0/Dir0/Npix0.tsv=old&note.txt=kept|||3
1 1|5,0,a,;|7||Norder0/Dir0/Npix0.tsv=old&note.txt=kept|Norder0/Dir0/Npix0.tsv=old&note.txt=kept|||4
1 1|5,0,a,;|7||note.txt=kept|Norder0/Dir0/Npix0.tsv=old&note.txt=kept|||5
1 1|5,0,a,;|0|rows 1 tiles 1;|Norder0/Dir0/Npix0.tsv=rank,npix,id,rest;5,0,a,;&note.txt=kept|Norder0/Dir0/Npix0.tsv=old&note.txt=kept|||99
";

#[test]
fn tells_failing_ends_by_the_status(rt: HostRuntime) -> Result<(), Fail> {
    all_go(&rt, FAILING, "")
}

// What is between two `|` of a row.
fn field(row: &str, at: usize) -> &str {
    row.split('|').nth(at).unwrap_or("")
}

// Appends a text that has no counts.
fn push_text(bytes: &mut Vec<u8>, text: &str) -> Result<(), AllocError> {
    for byte in text.as_bytes() {
        bytes.push(match *byte {
            b',' => b'\t',
            b';' => b'\n',
            other => other,
        })?;
    }
    Ok(())
}

// Appends what is between two `*`: so many `x`.
fn push_many(bytes: &mut Vec<u8>, count: &str) -> Result<(), AllocError> {
    for _ in 0..count.parse::<u32>().unwrap_or(0) {
        bytes.push(b'x')?;
    }
    Ok(())
}

// The bytes that a text stands for.
fn bytes_of(alloc: Global, text: &str) -> Result<Vec<u8>, AllocError> {
    let mut bytes = Vec::new(alloc);
    let mut is_count = false;
    for part in text.split('*') {
        if is_count {
            push_many(&mut bytes, part)?;
        } else {
            push_text(&mut bytes, part)?;
        }
        is_count = !is_count;
    }
    Ok(bytes)
}

// The number of the call that fails, in a field of a row, if there is one.
fn failing(alloc: Global, row: &str, at: usize) -> Result<Vec<u64>, AllocError> {
    let mut calls = Vec::new(alloc);
    if let Ok(call) = field(row, at).parse::<u64>() {
        calls.push(call)?;
    }
    Ok(calls)
}

// A shelf with the files that a row has before its run.
fn shelf_before(alloc: Global, row: &str) -> Result<MemShelf, Fail> {
    let mut shelf = MemShelf::new(alloc, failing(alloc, row, 8)?);
    for file in field(row, 5).split('&') {
        if let Some((path, text)) = file.split_once('=') {
            shelf.put(path, &bytes_of(alloc, text)?)?;
        }
    }
    Ok(shelf)
}

// Appends the file at a path, as a row has it.
fn push_file(
    alloc: Global,
    shelf: &mut MemShelf,
    path: &str,
    files: &mut Vec<u8>,
) -> Result<(), Fail> {
    if !files.is_empty() {
        files.push(b'&')?;
    }
    files.extend_from_slice(path.as_bytes())?;
    files.push(b'=')?;
    if let Some(file) = shelf.get(alloc, path)? {
        files.extend_from_slice(&file)?;
    }
    Ok(())
}

// All files of a shelf, as a row has them.
fn shown(alloc: Global, shelf: &mut MemShelf) -> Result<Vec<u8>, Fail> {
    let mut files = Vec::new(alloc);
    for path in &shelf.list(alloc)? {
        push_file(alloc, shelf, path.as_str(), &mut files)?;
    }
    Ok(files)
}

// Runs a row over these ends, and answers the status.
fn run<R: AllocGlobal + Clock + Log>(
    rt: &R,
    row: &str,
    source: &mut MemSource,
    sink: &mut MemSink,
    shelf: &mut MemShelf,
) -> u8 {
    let (top, per_tile) = field(row, 0).split_once(' ').unwrap_or(("", ""));
    let top = top.parse::<u8>().unwrap_or(0);
    let per_tile = per_tile.parse::<u32>().unwrap_or(0);
    if top > 11 || per_tile < 1 || per_tile > 4096 {
        return 255;
    }
    run_catalog(rt, top, per_tile, source, sink, shelf).number()
}

// Whether the run of a row over that sink and that shelf ends so, and writes that line.
fn ends<R: AllocGlobal + Clock + Log>(
    rt: &R,
    row: &str,
    sink: &mut MemSink,
    shelf: &mut MemShelf,
) -> Result<bool, AllocError> {
    let input = bytes_of(rt.alloc(), field(row, 1))?;
    let mut source = MemSource::new(input, 7, failing(rt.alloc(), row, 6)?);
    let status = run(rt, row, &mut source, sink, shelf);
    let line = bytes_of(rt.alloc(), field(row, 3))?;
    Ok(field(row, 2).parse::<u8>() == Ok(status) && sink.bytes() == line.as_slice())
}

// Whether the run of a row goes so.
fn goes<R: AllocGlobal + Clock + Log>(rt: &R, row: &str) -> Result<bool, Fail> {
    let alloc = rt.alloc();
    let mut shelf = shelf_before(alloc, row)?;
    let mut sink = MemSink::new(alloc, 100, failing(alloc, row, 7)?)?;
    let ended = ends(rt, row, &mut sink, &mut shelf)?;
    Ok(ended && shown(alloc, &mut shelf)? == bytes_of(alloc, field(row, 4))?)
}

// Each run goes so whose row is one of these with the text behind it.
fn all_go<R: AllocGlobal + Clock + Log + Abort>(
    rt: &R,
    rows: &str,
    behind: &str,
) -> Result<(), Fail> {
    for part in rows.lines() {
        let row = format!(in rt.alloc(); "{part}{behind}")?;
        assert!(rt; goes(rt, row.as_str())?, "{row}");
    }
    Ok(())
}
