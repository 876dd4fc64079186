//! Runs of `probe` over ends in memory.
ghost use Rattle.std.specs.Prelude.{IfSome};
ghost use Rattle.leaf_probe.specs.Probe.{IsProbe};

use leaf_probe::{Probe, probe};
use memory_link::{MemSink, MemSource};
use parent_rule::Steps;
use std::alloc::{AllocError, Global};
use std::test::Fail;

const LEAF_0: &str = "0000000000000000 0001 0002 0003 0005";

const TILE_0: &str = "8000 8000 0003 8000";

// The bytes that some words of hexadecimal digits stand for.
fn unhex(alloc: Global, text: &str) -> Result<Vec<u8>, Fail> {
    let mut bytes = Vec::new(alloc);
    for word in text.split_whitespace() {
        let number = u64::from_str_radix(word, 16)?;
        let skipped = 8usize.saturating_sub(word.len() / 2);
        bytes.extend_from_slice(&number.to_be_bytes()[skipped..])?;
    }
    Ok(bytes)
}

// A row is a run: the order of the leaves, n, the order and the number of the tile; the input, in pieces of how many bytes,
// and the read that fails; the room for the output, and the write that fails; the status of the fault, and the output in
// hexadecimal digits. A `|` separates them.
fn field(row: &str, at: usize) -> &str {
    row.split('|').nth(at).unwrap_or("")
}

fn number(text: &str) -> usize {
    text.parse::<usize>().unwrap_or(0)
}

// One of the four numbers.
fn small(text: &str, at: usize) -> u8 {
    let word = text.split_whitespace().nth(at).unwrap_or("");
    word.parse::<u8>().unwrap_or(0)
}

// The tile that four numbers ask for.
fn asked_of(text: &str) -> Option<Probe>
    ensures { IfSome result IsProbe }
{
    let (top, n, order) = (small(text, 0), small(text, 1), small(text, 2));
    let npix = text
        .split_whitespace()
        .nth(3)
        .unwrap_or("")
        .parse::<u64>()
        .unwrap_or(0);
    if 3 <= top && top <= 11 && 1 <= n && n <= 9 && order <= top {
        Some(Probe {
            top,
            n,
            order,
            npix,
        })
    } else {
        None
    }
}

// The status of a run over these ends.
fn status_over(
    alloc: Global,
    asked: &str,
    source: &mut MemSource,
    sink: &mut MemSink,
) -> Result<u8, Fail> {
    match asked_of(asked) {
        None => Err("no tile is asked for".into()),
        Some(asked) => match probe(alloc, &asked, source, sink, &mut Steps::new()) {
            Ok(()) => Ok(0),
            Err(fault) => Ok(fault.status().number()),
        },
    }
}

// The number of the call that fails, where one does.
fn fails(alloc: Global, text: &str) -> Result<Vec<u64>, AllocError> {
    let mut list = Vec::new(alloc);
    if let Ok(call) = text.parse::<u64>() {
        list.push(call)?;
    }
    Ok(list)
}

fn source_of(alloc: Global, row: &str) -> Result<MemSource, Fail> {
    let input = unhex(alloc, field(row, 1))?;
    let fails = fails(alloc, field(row, 3))?;
    Ok(MemSource::new(input, number(field(row, 2)).max(1), fails))
}

fn sink_of(alloc: Global, row: &str) -> Result<MemSink, AllocError> {
    MemSink::new(alloc, number(field(row, 4)), fails(alloc, field(row, 5))?)
}

// Whether the sink holds that output.
fn holds(alloc: Global, sink: &MemSink, output: &str) -> Result<bool, Fail> {
    Ok(sink.bytes() == unhex(alloc, output)?.as_slice())
}

// Whether the run of a row ends so.
fn goes(alloc: Global, row: &str) -> Result<bool, Fail> {
    let mut source = source_of(alloc, row)?;
    let mut sink = sink_of(alloc, row)?;
    let status = status_over(alloc, field(row, 0), &mut source, &mut sink)?;
    Ok(usize::from(status) == number(field(row, 6)) && holds(alloc, &sink, field(row, 7))?)
}

static PROBES: &str = "\
4 1 3 0|0000000000000000 0001 0002 0003 0005|100|-|100|-|0|8000 8000 0003 8000
4 1 4 0|0000000000000000 0001 0002 0003 0005|100|-|100|-|0|0001 0002 0003 0005
4 1 3 0||100|-|100|-|10|
4 1 3 0|0000000000000000 0001 0002 0003 00|100|-|100|-|4|
4 1 3 0|0000000000000C00 00|100|-|100|-|13|
4 1 3 768||100|-|100|-|13|
4 1 3 768|0000000000000000 0001 0002 0003 0005|100|-|100|-|13|
5 1 3 0|0000000000000000 0001 0001 0002 0002 0000000000000001 0001 0001 0002 0002 0000000000000002 0001 0001 0001 0002 0000000000000003 0001 0001 0001 0002|100|-|100|-|0|8000 8000 0002 8000
4 1 3 0|0000000000000001 0007 0007 0007 0007|100|-|100|-|0|0007 8000 8000 8000
4 1 3 0|0000000000000000 0001 0002 0003 0005 0000000000000000 0009 0009 0009 0009|100|-|100|-|0|8000 8000 0009 8000
4 1 3 0|0000000000000004 0007 0007 0007 0007 0000000000000000 0001 0002 0003 0005|100|-|100|-|0|8000 8000 0003 8000
4 1 3 0|0000000000000004 0007 0007 0007 0007|100|-|100|-|10|
4 1 3 0|0000000000000004 0007 0007 0007 00|100|-|100|-|4|
4 1 3 0|0000000000000000 FFFF FFFE 8000 8000|100|-|100|-|0|8000 8000 FFFF 8000
";

// In pieces of some bytes.
static PIECES: &str = "\
4 1 3 0|0000000000000000 0001 0002 0003 0005|1|-|100|-|0|8000 8000 0003 8000
4 1 3 0|0000000000000000 0001 0002 0003 0005|2|-|100|-|0|8000 8000 0003 8000
4 1 3 0|0000000000000000 0001 0002 0003 0005|3|-|100|-|0|8000 8000 0003 8000
4 1 3 0|0000000000000000 0001 0002 0003 0005|7|-|100|-|0|8000 8000 0003 8000
";

// With little room, and where a write or the flush after it fails.
static FULL: &str = "\
4 1 3 0|0000000000000000 0001 0002 0003 0005|100|-|100|0|6|
4 1 3 0|0000000000000000 0001 0002 0003 0005|100|-|100|1|6|8000 8000 0003 8000
4 1 3 0|0000000000000000 0001 0002 0003 0005|100|-|3|100|6|8000 80
4 1 3 0|0000000000000000 0001 0002 0003 0005|100|-|0|100|6|
";

// The source fails at its first read, so this reads nothing.
static UNREAD: &str = "\
4 1 3 768|0000000000000000 0001 0002 0003 0005|100|0|100|-|13|
";

#[test]
fn answers_probe(rt: HostRuntime) -> Result<(), Fail> {
    for table in [PROBES, PIECES, FULL, UNREAD] {
        for row in table.lines() {
            assert!(rt; goes(rt.alloc(), row)?, "{row}");
        }
    }
    Ok(())
}

// The status where that read fails of one of a leaf in pieces of three bytes, and whether the output is that of the status.
fn with_failing_read(alloc: Global, call: u64) -> Result<(u8, bool), Fail> {
    let failing = Vec::from_slice(alloc, &[call])?;
    let mut source = MemSource::new(unhex(alloc, LEAF_0)?, 3, failing);
    let mut sink = MemSink::new(alloc, 100, Vec::new(alloc))?;
    let status = status_over(alloc, "4 1 3 0", &mut source, &mut sink)?;
    let output = if status == 0 { TILE_0 } else { "" };
    Ok((status, holds(alloc, &sink, output)?))
}

#[test]
fn fails_where_the_source_does(rt: HostRuntime) -> Result<(), Fail> {
    let mut reads = 0;
    for call in 0..20 {
        let (status, is_output) = with_failing_read(rt.alloc(), call)?;
        assert!(rt; is_output, "where read {call} fails");
        if status == 0 {
            reads = call;
            break;
        }
        assert!(rt; status == 5, "where read {call} fails");
    }
    assert!(rt; reads > 3);
    Ok(())
}

// So many records of a leaf, and more behind them.
fn records(alloc: Global, count: u32, more: &[u8]) -> Result<Vec<u8>, Fail> {
    let record = unhex(alloc, LEAF_0)?;
    let mut input = Vec::new(alloc);
    for _record in 0..count {
        input.extend_from_slice(&record)?;
    }
    input.extend_from_slice(more)?;
    Ok(input)
}

// Whether a run over that input ends so.
fn probes(alloc: Global, input: Vec<u8>, status: u8, output: &str) -> Result<bool, Fail> {
    let mut source = MemSource::new(input, 100, Vec::new(alloc));
    let mut sink = MemSink::new(alloc, 100, Vec::new(alloc))?;
    let ended = status_over(alloc, "4 1 3 0", &mut source, &mut sink)?;
    Ok(ended == status && holds(alloc, &sink, output)?)
}

#[test]
fn reads_65_536_records_at_most(rt: HostRuntime) -> Result<(), Fail> {
    let alloc = rt.alloc();
    assert!(rt; probes(alloc, records(alloc, 65_536, b"")?, 0, TILE_0)?);
    assert!(rt; probes(alloc, records(alloc, 65_536, b"\0")?, 12, "")?);
    Ok(())
}
