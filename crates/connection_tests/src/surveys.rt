//! Connections to a survey without leaves.
use crate::rows::{replies, requests};
use hips_http::{SessionEnd, session};
use log::Log;
use memory_link::{MemSink, MemSource};
use parent_rule::Steps;
use reader_pin::{ChangedWith, Solo};
use small_survey::first_state;
use std::alloc::Global;
use std::test::Fail;
use std::thread::Threads;
use std::time::Clock;
use survey_link::OpenGate;

// The board of the survey with that description, without leaves.
pub(crate) fn opened<R: Threads + Sync>(rt: &R, alloc: Global, conf: &str) -> Result<Solo, Fail> {
    Ok(Solo::new(alloc, first_state(rt, alloc, conf)?)?)
}

// Serves a connection over the board, and answers how it ends: `OutOfMemory` also if a reply was 503.
pub(crate) fn serve<B: ChangedWith<R>, R: Threads + Sync + Clock + Log>(
    rt: &R,
    alloc: Global,
    board: &mut B,
    source: &mut MemSource,
    sink: &mut MemSink,
    steps: &mut Steps,
) -> SessionEnd {
    let gate = OpenGate::new();
    let served = session(rt, alloc, board, source, sink, &gate, steps);
    if served.memory_faults != 0 {
        return SessionEnd::OutOfMemory;
    }
    served.end
}

// How a connection with that input over the board ends, and what was written.
fn answers<B: ChangedWith<R>, R: Threads + Sync + Clock + Log>(
    rt: &R,
    alloc: Global,
    board: &mut B,
    input: Vec<u8>,
    steps: &mut Steps,
) -> Result<(SessionEnd, MemSink), Fail> {
    let mut sink = MemSink::new(alloc, 16_777_216, Vec::new(alloc))?;
    let mut source = MemSource::new(input, 65_536, Vec::new(alloc));
    let end = serve(rt, alloc, board, &mut source, &mut sink, steps);
    Ok((end, sink))
}

// Whether these requests have these replies, as one connection over the board that is closed at their end.
pub(crate) fn asks<B: ChangedWith<R>, R: Threads + Sync + Clock + Log>(
    rt: &R,
    alloc: Global,
    board: &mut B,
    asked: &str,
    answered: &str,
    steps: &mut Steps,
) -> Result<bool, Fail> {
    let output = replies(alloc, answered)?;
    let input = requests(alloc, asked)?;
    let (end, sink) = answers(rt, alloc, board, input, steps)?;
    Ok(end == SessionEnd::Closed && sink.bytes() == output.as_slice())
}

// Whether a connection with that input over the survey with that description ends so, and what was written is the output.
pub(crate) fn goes<R: Threads + Sync + Clock + Log>(
    rt: &R,
    alloc: Global,
    conf: &str,
    input: Vec<u8>,
    output: &[u8],
    wanted: SessionEnd,
) -> Result<bool, Fail> {
    let mut board = opened(rt, alloc, conf)?;
    let mut steps = Steps::new();
    let (end, sink) = answers(rt, alloc, &mut board, input, &mut steps)?;
    Ok(end == wanted && sink.bytes() == output)
}
