//! A session, whole.
ghost use Rattle.std.specs.Prelude.{◌≡◌, ◌≢◌, ◌≤◌, ◌^◌, ℕ, List, [], Some, false, IfErr, OnOk, IfOk};
ghost use Rattle.std.specs.Arc.{arc_value};
ghost use Rattle.survey_link.specs.Link.{CountsFault};
ghost use Rattle.survey_link.specs.Inbox.{held};
ghost use Rattle.edit_journal.specs.Leaves.{charge_of};
ghost use Rattle.edit_journal.specs.Faults.{most_charge};
ghost use Rattle.past_frame.specs.Record.{PastRecord};
ghost use Rattle.past_frame.specs.Reading.{record_of};
ghost use Rattle.past_session.specs.Answers.{first_state};
ghost use Rattle.past_session.specs.Records.{room_of};
ghost use Rattle.command_output.specs.Output.{sink_bytes};
ghost use Rattle.past_session.specs.Run.{PastRun, RunsOver, FlushesAll, is_read_fault, is_write_fault};
ghost use Rattle.past_session.specs.Session.{SessionContent};
ghost use Rattle.past_session.specs.Order.{Moment, moment, first_moment, SameEnds, NeverFalls, Faults, IsAsked, IsAnswered, EndsAt, EndsBehindAll, InOrder};
ghost use Rattle.past_session.specs.declared.ending.PastEnd.TheVariants.{WriteFault};

use crate::ending::{PastEnd, end_of};
use crate::ends::{Ends, Input};
use crate::kept::Session;
use generation::Generation;
use log::Log;
use parent_rule::Steps;
use past_frame::laws::records_stand;
use past_frame::{MAX_LINE, Record, has_more, read_record};
use std::alloc::{AllocError, Global};
use std::sync::Arc;
use std::thread::Threads;
use std::time::Clock;
use survey_link::{Gate, Inbox, Means, Sink, Source};

// How many records are taken.
const MOST_RECORDS: u64 = 65_536;

/// Reads records from a source, and answers each to a sink, flushed before the next one is read. A record is a line
/// `batch LENGTH` with that many bytes of the body of a batch behind it, at most `batch_room`, or a line `read K PATH`, K below
/// 2^32; a line has at most 128 bytes with its line feed, numbers are in plain decimals.
///
/// A batch is accepted, and answered by the number of edits then, or refused as a whole. A read is answered with the file at
/// the path of the survey after its first K edits. At most `cache` generations are held, from 1 to 8; besides them and the
/// opening one nothing but the edits and one record. A read of as many edits as the last one takes no step, and none makes
/// the opening generation again.
///
/// It ends by the first of these in the input: `Done` between records, `Cut` within one, `BadLine` at one that has no line,
/// `Spent` where it goes on after 65,536 records. `ReadFault` and `WriteFault` come only where the source's, the sink's count
/// of faults rose, which no other end raises; `OutOfMemory` may come at any record, before anything of its answer is written.
pub fn past_session<R: Threads + Sync + Clock + Log, S: Source, K: Sink, G: Gate + Sync>(
    rt: &R,
    alloc: Global,
    opening: Arc<Generation>,
    cache: usize,
    src: &mut S,
    sink: &mut K,
    gate: &G,
    steps: &mut Steps,
) -> PastEnd
    requires first { (arc_value opening).prefix ≡ 0 }
    requires charge { charge_of (arc_value opening).leaves [] ≤ most_charge }
    requires least { 1 ≤ cache }
    requires most { cache ≤ 8 }
    // Where the proof can see the source's bytes, the session is a run of the definition, which knows no cache.
    ensures run { (input : List ℕ) → S.left src.old ≡ Some input → PastRun (arc_value opening).conf (arc_value opening).leaves input (S.left src.new)
        (sink_bytes K.Sink sink.old) (sink_bytes K.Sink sink.new) steps.old steps.new result }
    // In any case the session is one of the bytes that were read.
    ensures over { RunsOver (arc_value opening).conf (arc_value opening).leaves (S.left src.old) (S.left src.new)
        (sink_bytes K.Sink sink.old) (sink_bytes K.Sink sink.new) steps.old steps.new result }
    // Each record is answered, and the answer flushed, before the next is read; behind a bad line nothing is.
    ensures order { (session : SessionContent) × (held : List ℕ) × InOrder S.Source K.Sink (first_moment (arc_value opening).conf (arc_value opening).leaves src.old sink.old steps.old)
        (record { session = session; src = src.new; sink = sink.new; held = held; steps = steps.new }) result }
    ensures flushed { result ≢ WriteFault → FlushesAll (sink_bytes K.Sink sink.old) (sink_bytes K.Sink sink.new) }
    ensures read_fault { CountsFault (is_read_fault result) (S.faults src.old) (S.faults src.new) }
    ensures write_fault { CountsFault (is_write_fault result) (K.faults sink.old) (K.faults sink.new) }
    ensures source_never_falls { S.faults src.old ≤ S.faults src.new }
    ensures sink_never_falls { K.faults sink.old ≤ K.faults sink.new }
    ensures steps_never_fall { steps.old ≤ steps.new }
{
    records_stand();
    match begin(alloc, opening, cache) {
        Ok((mut session, mut input)) => {
            let mut ends = Ends { src, sink };
            let means = Means { rt, alloc, gate };
            answer_all(&mut session, &mut ends, &mut input, &means, steps)
        }
        Err(_) => PastEnd::OutOfMemory,
    }
}

// A session of the survey with this opening generation, of which nothing came.
fn begin(
    alloc: Global,
    opening: Arc<Generation>,
    cache: usize,
) -> Result<(Session, Input), AllocError>
    requires first { (arc_value opening).prefix ≡ 0 }
    requires charge { charge_of (arc_value opening).leaves [] ≤ most_charge }
    requires least { 1 ≤ cache }
    requires most { cache ≤ 8 }
    ensures session { IfOk result (λ begun. begun.0 ≡ record { conf = (arc_value opening).conf; opening = (arc_value opening).leaves; state = first_state }) }
    ensures empty { IfOk result (λ begun. held begun.1.inbox ≡ []) }
{
    let inbox = Inbox::new(alloc, MAX_LINE)?;
    let text = Vec::new(alloc);
    let session = Session::start(alloc, opening, cache)?;
    Ok((session, Input { inbox, text }))
}

// Answers the records of a session that has answered none.
fn answer_all<R: Threads + Sync + Clock + Log, S: Source, K: Sink, G: Gate + Sync>(
    session: &mut Session,
    ends: &mut Ends<'_, '_, S, K>,
    input: &mut Input,
    means: &Means<'_, R, G>,
    steps: &mut Steps,
) -> PastEnd
    ensures order { InOrder S.Source K.Sink (moment session.old ends.old input.old steps.old) (moment session.new ends.new input.new steps.new) result }
    ensures faults { Faults S.Source K.Sink (is_read_fault result) (is_write_fault result) (moment session.old ends.old input.old steps.old) (moment session.new ends.new input.new steps.new) }
    ensures never_falls { NeverFalls S.Source K.Sink (moment session.old ends.old input.old steps.old) (moment session.new ends.new input.new steps.new) }
    ensures same_ends { SameEnds ends.old ends.new }
{
    for at in 0..MOST_RECORDS {
        match answer_next(session, ends, input, means, at, steps) {
            Ok(()) => {}
            Err(end) => return end,
        }
    }
    end_behind_all(ends, input)
}

// Reads the next record, and answers it; `at` records come before it.
fn answer_next<R: Threads + Sync + Clock + Log, S: Source, K: Sink, G: Gate + Sync>(
    session: &mut Session,
    ends: &mut Ends<'_, '_, S, K>,
    input: &mut Input,
    means: &Means<'_, R, G>,
    at: u64,
    steps: &mut Steps,
) -> Result<(), PastEnd>
    ensures answers { OnOk result ((asked : PastRecord) × (mid : Moment S K) × IsAsked S.Source K.Sink asked (moment session.old ends.old input.old steps.old) mid
        × IsAnswered S.Source K.Sink asked mid (moment session.new ends.new input.new steps.new)) }
    ensures ends { IfErr result (EndsAt S.Source K.Sink at (moment session.old ends.old input.old steps.old) (moment session.new ends.new input.new steps.new)) }
    ensures no_fault { OnOk result (Faults S.Source K.Sink false false (moment session.old ends.old input.old steps.old) (moment session.new ends.new input.new steps.new)) }
    ensures faults { IfErr result (λ end. Faults S.Source K.Sink (is_read_fault end) (is_write_fault end) (moment session.old ends.old input.old steps.old) (moment session.new ends.new input.new steps.new)) }
    ensures never_falls { NeverFalls S.Source K.Sink (moment session.old ends.old input.old steps.old) (moment session.new ends.new input.new steps.new) }
    ensures same_ends { SameEnds ends.old ends.new }
{
    // For the prover: a count fits 64 bits.
    let _count = steps.count();
    let room = session.room();
    let asked = read_next(ends, input, room, at)?;
    session.answer(means, ends.sink, asked, &input.text, steps)?;
    Ok(())
}

// Reads the next record; `at` records come before it.
fn read_next<S: Source, K: Sink>(
    ends: &mut Ends<'_, '_, S, K>,
    input: &mut Input,
    room: usize,
    at: u64,
) -> Result<Record, PastEnd>
    requires { room ≤ 2 ^ 30 }
    ensures asked { IfOk result (λ asked. (session : SessionContent) (steps : ℕ) → room ≡ room_of session.conf
        → IsAsked S.Source K.Sink (record_of asked input.new.text.items) (moment session ends.old input.old steps) (moment session ends.new input.new steps)) }
    ensures ends { IfErr result (λ end. (session : SessionContent) (steps : ℕ) → room ≡ room_of session.conf
        → EndsAt S.Source K.Sink at (moment session ends.old input.old steps) (moment session ends.new input.new steps) end) }
    ensures no_fault { OnOk result (S.faults ends.new.src.now ≡ S.faults ends.old.src.now) }
    ensures faults { IfErr result (λ end. CountsFault (is_read_fault end) (S.faults ends.old.src.now) (S.faults ends.new.src.now)) }
    ensures not_written { IfErr result (λ end. is_write_fault end ≡ false) }
    ensures never_falls { S.faults ends.old.src.now ≤ S.faults ends.new.src.now }
    ensures sink { ends.new.sink.now ≡ ends.old.sink.now }
    ensures same { SameEnds ends.old ends.new }
{
    match read_record(&mut input.inbox, ends.src, &mut input.text, room) {
        Ok(asked) => Ok(asked),
        Err(stop) => Err(end_of(stop, at)),
    }
}

// How a session ends that has answered all records that are taken.
fn end_behind_all<S: Source, K: Sink>(ends: &mut Ends<'_, '_, S, K>, input: &mut Input) -> PastEnd
    ensures ends { (session : SessionContent) (steps : ℕ) → EndsBehindAll S.Source K.Sink (moment session ends.old input.old steps) (moment session ends.new input.new steps) result }
    ensures faults { CountsFault (is_read_fault result) (S.faults ends.old.src.now) (S.faults ends.new.src.now) }
    ensures not_written { is_write_fault result ≡ false }
    ensures never_falls { S.faults ends.old.src.now ≤ S.faults ends.new.src.now }
    ensures sink { ends.new.sink.now ≡ ends.old.sink.now }
    ensures same { SameEnds ends.old ends.new }
{
    match has_more(&mut input.inbox, ends.src) {
        Ok(true) => PastEnd::Spent,
        Ok(false) => PastEnd::Done,
        Err(_) => PastEnd::ReadFault,
    }
}
