//! Connections that break off: the input is cut, or a call of the source or the sink fails.
use crate::conversations::{EDIT, EDITED};
use crate::rows::{replies, requests};
use crate::surveys::{opened, serve};
use hips_http::SessionEnd;
use log::Log;
use memory_link::{MemSink, MemSource};
use parent_rule::Steps;
use small_files::SURVEY;
use std::alloc::Global;
use std::process::Abort;
use std::test::Fail;
use std::thread::Threads;
use std::time::Clock;

// Serves a connection over the survey without leaves, and answers how it ends.
fn breaks<R: Threads + Sync + Clock + Log>(
    rt: &R,
    alloc: Global,
    source: &mut MemSource,
    sink: &mut MemSink,
) -> Result<SessionEnd, Fail> {
    let mut board = opened(rt, alloc, SURVEY)?;
    let mut steps = Steps::new();
    Ok(serve(rt, alloc, &mut board, source, sink, &mut steps))
}

// Whether the connection of that source ends so with this output.
fn ends<R: Threads + Sync + Clock + Log>(
    rt: &R,
    alloc: Global,
    source: &mut MemSource,
    wanted: SessionEnd,
    output: &[u8],
) -> Result<bool, Fail> {
    let mut sink = MemSink::new(alloc, 65_536, Vec::new(alloc))?;
    let end = breaks(rt, alloc, source, &mut sink)?;
    Ok(end == wanted && sink.bytes() == output)
}

// Whether the output is all that is written where only the first bytes of the input come. `begun` bytes are whole requests.
fn is_cut<R: Threads + Sync + Clock + Log>(
    rt: &R,
    alloc: Global,
    input: &[u8],
    at: usize,
    begun: usize,
    output: &[u8],
) -> Result<bool, Fail> {
    let end = if at == begun {
        SessionEnd::Closed
    } else {
        SessionEnd::Cut
    };
    let first = Vec::from_slice(alloc, input.get(..at).unwrap_or(input))?;
    let mut source = MemSource::new(first, 65_536, Vec::new(alloc));
    ends(rt, alloc, &mut source, end, output)
}

// Whether it is all that is written where all bytes would come, one by one, but the read behind these fails.
fn is_failed<R: Threads + Sync + Clock + Log>(
    rt: &R,
    alloc: Global,
    input: &[u8],
    at: usize,
    output: &[u8],
) -> Result<bool, Fail> {
    let fails = Vec::from_slice(alloc, &[at as u64])?;
    let mut source = MemSource::new(Vec::from_slice(alloc, input)?, 1, fails);
    ends(rt, alloc, &mut source, SessionEnd::ReadFault, output)
}

// Whether a cut there is tried, of a request that begins there: at its first and its last byte, behind CR and LF, and at one place
// in 97.
fn is_tried(input: &[u8], begun: usize, at: usize) -> bool {
    let before = input.get(..at).unwrap_or(input);
    let is_edge = at.saturating_sub(begun) < 2 || input.len().saturating_sub(at) < 2;
    is_edge || at % 97 == 0 || before.ends_with(b"\r") || before.ends_with(b"\n")
}

// The cuts within the last request, which begins there.
fn all_are_cut<R: Threads + Sync + Clock + Log + Abort>(
    rt: &R,
    alloc: Global,
    asked: &str,
    input: &[u8],
    begun: usize,
    output: &[u8],
) -> Result<(), Fail> {
    for at in begun..input.len() {
        if is_tried(input, begun, at) {
            let ends = is_cut(rt, alloc, input, at, begun, output)?
                && is_failed(rt, alloc, input, at, output)?;
            assert!(rt; ends, "{asked}, cut at {at}");
        }
    }
    Ok(())
}

#[test]
fn a_cut_input_is_answered_up_to_its_last_whole_request(rt: HostRuntime) -> Result<(), Fail> {
    let alloc = rt.alloc();
    let mut input = Vec::new(alloc);
    let mut output = Vec::new(alloc);
    for (asked, answered) in EDIT.lines().zip(EDITED.lines()) {
        let begun = input.len();
        input.extend_from_slice(&requests(alloc, asked)?)?;
        all_are_cut(&rt, alloc, asked, &input, begun, &output)?;
        output.extend_from_slice(&replies(alloc, answered)?)?;
    }
    Ok(())
}

// Whether the connection that edits and publishes ends so where the write or flush with that number fails, with a first part
// of its output, or all of it.
fn fails<R: Threads + Sync + Clock + Log>(
    rt: &R,
    alloc: Global,
    call: u64,
    wanted: SessionEnd,
) -> Result<bool, Fail> {
    let output = replies(alloc, EDITED)?;
    let mut source = MemSource::new(requests(alloc, EDIT)?, 1, Vec::new(alloc));
    let mut sink = MemSink::new(alloc, 65_536, Vec::from_slice(alloc, &[call])?)?;
    let end = breaks(rt, alloc, &mut source, &mut sink)?;
    Ok(end == wanted && is_begun(sink.bytes(), &output, end))
}

// Whether these bytes begin the output, and are all of it where no write failed.
fn is_begun(bytes: &[u8], output: &[u8], end: SessionEnd) -> bool {
    output.starts_with(bytes) && (bytes.len() == output.len() || end == SessionEnd::WriteFault)
}

// Each reply is written by one call, with the file in it, and flushed by another.
#[test]
fn a_failing_write_ends_a_connection(rt: HostRuntime) -> Result<(), Fail> {
    for call in 0..8 {
        assert!(rt;
            fails(&rt, rt.alloc(), call, SessionEnd::WriteFault)?,
            "{call}"
        );
    }
    assert!(rt; fails(&rt, rt.alloc(), 8, SessionEnd::Closed)?);
    Ok(())
}
