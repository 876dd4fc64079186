//! Whole sessions about past states, byte for byte: what is read as rows of text, what is answered, and how the session ends;
//! also such as break off, where the input is cut, or a call of the source or the sink fails.
ghost use Rattle.std.specs.Prelude.{◌≡◌, ◌<◌, ◌≤◌, [], IfOk};
ghost use Rattle.std.specs.Arc.{arc_value};
ghost use Rattle.edit_journal.specs.Leaves.{charge_of};
ghost use Rattle.edit_journal.specs.Faults.{most_charge};

use crate::bytes::bytes_of;
use crate::surveys::survey;
use edit_journal::Journal;
use generation::Generation;
use leaf_store::Store;
use log::Log;
use memory_link::{MemSink, MemSource};
use parent_rule::Steps;
use past_session::{PastEnd, past_session};
use std::alloc::{AllocError, Global};
use std::sync::Arc;
use std::test::Fail;
use std::thread::Threads;
use std::time::Clock;
use survey_link::OpenGate;

// What is read, what is written, and how the session ends, where a number is that of a record without a line; then the read that
// fails and the write or flush that does, if any. An answer is written by one call, with the file in it, and flushed by another.
static SESSIONS: &str = "||Done
read 0 x;read 0 x;||ReadFault|0
read 0 x;read 0 x;||WriteFault||0
read 0 x;read 0 x;|absent;|WriteFault||1
read 0 x;read 0 x;|absent;|WriteFault||2
read 0 x;read 0 x;|absent;absent;|WriteFault||3
read 0 x;read 0 x;|absent;absent;|Done||4
batch 2899;put 0 2888;%leaf 4 0 1 2 3 5%read 0 Norder3/Dir0/Npix0.fits;read 1 Norder3/Dir0/Npix0.fits;read 1 Norder3/Dir0/Npix0.fits;read 2 properties;|edits 1;absent;file 5760;%whole 3 0 -32768 -32768 3 -32768%file 5760;%whole 3 0 -32768 -32768 3 -32768%future 1;|Done
batch 2908;put 0 2888;%leaf 4 0 1 2 3 5%remove 0;read 1 properties;read 2 properties;|edits 2;split 1;file 380;%properties%0;|Done
look;||0
batch 8715;put 0 2888;%leaf 4 0 1 1 1 1%put 1 2888;%leaf 4 1 1 1 1 1%put 2 2888;%leaf 4 2 1 1 1 1%remove 1;remove 2;read 0 x;read 1 x;read 2 x;read 3 x;read 4 x;read 5 x;batch 5811;remove 0;add 0 2888;%leaf 4 0 1 1 1 1%replace 0 2888;%leaf 4 0 2 2 2 2%read 4 x;read 5 x;read 6 x;read 7 x;read 8 Norder4/Dir0/Npix0.fits;read 5 Norder4/Dir0/Npix0.fits;read 9 x;|edits 5;absent;split 1;split 2;split 3;split 4;absent;edits 8;split 4;absent;split 6;split 7;file 5760;%whole 4 0 2 2 2 2%file 5760;%whole 4 0 1 1 1 1%future 8;|Done
batch 0;batch 10;remove 07;batch 12;remove 3072;batch 17;put 0 2888;SIMPLEbatch 14;put 0 6;SIMPLEbatch 9225;%times 1025 remove 0;%batch 9;remove 5;batch 2903;replace 1 2888;%leaf 4 1 1 2 3 5%batch 5798;put 0 2888;%leaf 4 0 1 2 3 5%add 0 2888;%leaf 4 0 1 2 3 5%read 1 x;read 0 properties;batch 2902;put 3071 2888;%leaf 4 3071 1 2 3 5%read 1 Norder3/Dir0/Npix767.fits;|refused 0 line;refused 0 line;refused 0 line;refused 0 short;refused 0 1 header 1;refused 1024 many;refused 0 edit 2;refused 0 edit 2;refused 1 edit 1;future 0;file 380;%properties%0;edits 1;file 5760;%whole 3 767 -32768 3 -32768 -32768%|Done
read 0 x;look;|absent;|1
read 0 x;look|absent;|Cut
;||0
read 1;||0
read 01 x;||0
read +1 x;||0
read 4294967295 x;|future 0;|Done
read 4294967296 x;||0
read 0 ;|absent;|Done
read 0  properties;|absent;|Done
batch 437760;remove||Cut
batch 437761;remove||0
batch 9 ;remove 0;||0
batch 9;remove 0||Cut
read 0 %times 120 x%;|absent;|Done
read 0 %times 120 x%||Cut
read 0 %times 121 x%;||0
read 0 %times 121 x%||0
%times 65536 read 0 x;%|%times 65536 absent;%|Done
%times 65536 read 0 x;%look|%times 65536 absent;%|Spent";

// The field of a row with this number; a `|` separates two.
fn field(row: &str, at: usize) -> &str {
    row.split('|').nth(at).unwrap_or("")
}

// How a row says that a session ends.
fn end_of(text: &str) -> Result<PastEnd, Fail> {
    match text {
        "Done" => Ok(PastEnd::Done),
        "Cut" => Ok(PastEnd::Cut),
        "Spent" => Ok(PastEnd::Spent),
        "ReadFault" => Ok(PastEnd::ReadFault),
        "WriteFault" => Ok(PastEnd::WriteFault),
        _ => Ok(PastEnd::BadLine {
            at: text.parse::<u64>()?,
        }),
    }
}

// The first generation of the survey, without leaves.
fn opening<R: Threads + Sync>(rt: &R, alloc: Global) -> Result<Arc<Generation>, Fail>
    ensures first { IfOk result (λ made. (arc_value made).prefix ≡ 0) }
    ensures charge { IfOk result (λ made. charge_of (arc_value made).leaves [] ≤ most_charge) }
{
    let conf = survey(alloc)?;
    let leaves = Store::new(alloc);
    // For the prover: a journal takes these leaves.
    drop(Journal::start(alloc, conf.shape(), leaves.share()?)?);
    let made = Generation::start(rt, alloc, conf, leaves, &OpenGate::new(), &mut Steps::new())?;
    Ok(Arc::new(alloc, made)?)
}

// The number of the call that fails, in a field of a row, if there is one.
fn failing(alloc: Global, row: &str, at: usize) -> Result<Vec<u64>, AllocError> {
    let mut calls = Vec::new(alloc);
    if let Ok(call) = field(row, at).parse::<u64>() {
        calls.push(call)?;
    }
    Ok(calls)
}

// How the session of a row ends that holds two states, and what is written into the sink.
fn ended<R: Threads + Sync + Clock + Log>(
    rt: &R,
    alloc: Global,
    row: &str,
    piece: usize,
    sink: &mut MemSink,
) -> Result<PastEnd, Fail>
    requires { 0 < piece }
{
    let opening = opening(rt, alloc)?;
    let input = bytes_of(alloc, field(row, 0))?;
    let mut source = MemSource::new(input, piece, failing(alloc, row, 3)?);
    let gate = OpenGate::new();
    let mut steps = Steps::new();
    Ok(past_session(rt, alloc, opening, 2, &mut source, sink, &gate, &mut steps))
}

// Whether the session of a row does what it says, with the input in pieces of some size.
fn answers<R: Threads + Sync + Clock + Log>(
    rt: &R,
    alloc: Global,
    row: &str,
    piece: usize,
) -> Result<bool, Fail>
    requires { 0 < piece }
{
    let mut sink = MemSink::new(alloc, 1_048_576, failing(alloc, row, 4)?)?;
    let end = ended(rt, alloc, row, piece, &mut sink)?;
    let output = bytes_of(alloc, field(row, 1))?;
    Ok(end == end_of(field(row, 2))? && sink.bytes() == output.as_slice())
}

#[test]
fn records_are_answered(rt: HostRuntime) -> Result<(), Fail> {
    for row in SESSIONS.lines() {
        assert!(rt; answers(&rt, rt.alloc(), row, 65_536)?, "{row}");
        assert!(rt; answers(&rt, rt.alloc(), row, 7)?, "in pieces: {row}");
    }
    Ok(())
}
