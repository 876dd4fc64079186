//! One connection, whole.
ghost use Rattle.std.specs.Prelude.{◌≡◌, ◌≤◌, ◌↔◌, ℕ, List, [], None, IfSome, IsSome, IsNone};
ghost use Rattle.survey_link.specs.Link.{CountsFault};
ghost use Rattle.http_frame.specs.Readings.{ReadsWhile};
ghost use Rattle.survey_core.specs.History.{IsHistory};
ghost use Rattle.reader_pin.specs.Board.{IsOwned};
ghost use Rattle.http_frame.specs.declared.stop.Turn.TheVariants.{AtHead};
ghost use Rattle.hips_http.specs.SessionRun.{IsServed, Goes, FlushesAll, room_of, most_requests, is_read_fault, is_write_fault};
ghost use Rattle.hips_http.specs.Moment.{connection_of, moment_of, SameEnds, ReadsWhere};
ghost use Rattle.hips_http.specs.Progress.{ServesAll, IsServedTo};
ghost use Rattle.hips_http.specs.Readings.{NeedsNext, FollowsReplies};
ghost use Rattle.hips_http.specs.declared.served.SessionEnd.TheVariants.{WriteFault, OutOfMemory};

use crate::open_connection::OpenConnection;
use crate::served::{Served, SessionEnd};
use crate::step::{MOST_REQUESTS, answer_next};
use http_frame::Frame;
use log::Log;
use parent_rule::Steps;
use reader_pin::{Board, ChangedWith};
use std::alloc::Global;
use std::thread::Threads;
use std::time::Clock;
use survey_core::batch_room;
use survey_link::{Gate, Means, Sink, Source};

/// Serves one connection: reads its requests and answers each from the states that the board sees, until the input ends, a
/// request asked to close, 65,536 were answered, or the source or the sink failed. It releases the board's pin first. Each
/// reply is flushed before the next one is written.
///
/// It ends with `OutOfMemory` if there is no memory for its buffers, before anything is read or written. From then on only
/// PUT, DELETE, POST batch and POST publish may run out of memory, and they answer code 503; `memory_faults` is the number of
/// these replies. An event whose reply couldn't be written stays in the history.
///
/// The source's count of faults rises if and only if it ends with `ReadFault`, the sink's if and only if with `WriteFault`.
pub fn session<
    R: Threads + Sync + Clock + Log,
    B: ChangedWith<R>,
    S: Source,
    K: Sink,
    G: Gate + Sync,
>(
    rt: &R,
    alloc: Global,
    board: &mut B,
    src: &mut S,
    sink: &mut K,
    gate: &G,
    steps: &mut Steps,
) -> Served
    ensures goes { Goes (B.content board.old) (B.content board.new) }
    ensures memory_faults { result.memory_faults ≤ most_requests }
    ensures read_fault { CountsFault (is_read_fault result.end) (S.faults src.old) (S.faults src.new) }
    ensures write_fault { CountsFault (is_write_fault result.end) (K.faults sink.old) (K.faults sink.new) }
    // Unless writing failed all that is held was flushed, also what was held back before; or nothing was written.
    ensures flushed { ¬ (result.end ≡ WriteFault) → FlushesAll (K.held sink.old) (K.held sink.new) (K.flushed sink.old) (K.flushed sink.new) }
    ensures source_never_falls { S.faults src.old ≤ S.faults src.new }
    ensures sink_never_falls { K.faults sink.old ≤ K.faults sink.new }
    ensures steps_never_fall { steps.old ≤ steps.new }
    // Where the proof can see the source's bytes, the connection is a run of the definition, from the states seen before to
    // those seen then; where it can't see the sink's, with some bytes as those written.
    ensures served { IfSome (S.left src.old) (λ input. IsServed (B.content board.old) (B.content board.new) input
        (connection_of S.Source K.Sink src.old sink.old) (connection_of S.Source K.Sink src.new sink.new) steps.old steps.new result) }
    // There it is read only while what came ends before or within the next request: so not once a request asked to close.
    ensures reads { IsSome (S.left src.old) → (came : List ℕ) × ReadsWhile S.left S.readings (NeedsNext (room_of (B.content board.old).conf)) [] src.old src.new came }
    // And only after the replies to all requests before were flushed, as far as the proof can see the sink's bytes.
    ensures order { IfSome (S.left src.old) (λ input. (served : IsServed (B.content board.old) (B.content board.new) input
        (connection_of S.Source K.Sink src.old sink.old) (connection_of S.Source K.Sink src.new sink.new) steps.old steps.new result)
        × ReadsWhere S.Source (FollowsReplies (room_of (B.content board.old).conf) served.run.outputs served.passed) [] src.old src.new) }
{
    let mut frame = frame_for(alloc, board);
    session_in(rt, alloc, &mut frame, board, src, sink, gate, steps)
}

/// As `session`, over a given frame, which has room for the longest body of the board's survey; without one it ends out of
/// memory, before anything is read or written. What the frame held is dropped first.
pub fn session_in<
    R: Threads + Sync + Clock + Log,
    B: ChangedWith<R>,
    S: Source,
    K: Sink,
    G: Gate + Sync,
>(
    rt: &R,
    alloc: Global,
    frame: &mut Option<Frame>,
    board: &mut B,
    src: &mut S,
    sink: &mut K,
    gate: &G,
    steps: &mut Steps,
) -> Served
    requires room { IfSome frame.old (λ frame. frame.room ≡ room_of (B.content board.old).conf) }
    ensures goes { Goes (B.content board.old) (B.content board.new) }
    ensures memory_faults { result.memory_faults ≤ most_requests }
    ensures read_fault { CountsFault (is_read_fault result.end) (S.faults src.old) (S.faults src.new) }
    ensures write_fault { CountsFault (is_write_fault result.end) (K.faults sink.old) (K.faults sink.new) }
    // Unless writing failed all that is held was flushed, also what was held back before; or nothing was written.
    ensures flushed { ¬ (result.end ≡ WriteFault) → FlushesAll (K.held sink.old) (K.held sink.new) (K.flushed sink.old) (K.flushed sink.new) }
    ensures source_never_falls { S.faults src.old ≤ S.faults src.new }
    ensures sink_never_falls { K.faults sink.old ≤ K.faults sink.new }
    ensures steps_never_fall { steps.old ≤ steps.new }
    // Where the proof can see the source's bytes, the connection is a run of the definition, from the states seen before to
    // those seen then; where it can't see the sink's, with some bytes as those written.
    ensures served { IfSome (S.left src.old) (λ input. IsServed (B.content board.old) (B.content board.new) input
        (connection_of S.Source K.Sink src.old sink.old) (connection_of S.Source K.Sink src.new sink.new) steps.old steps.new result) }
    // There it is read only while what came ends before or within the next request: so not once a request asked to close.
    ensures reads { IsSome (S.left src.old) → (came : List ℕ) × ReadsWhile S.left S.readings (NeedsNext (room_of (B.content board.old).conf)) [] src.old src.new came }
    // And only after the replies to all requests before were flushed, as far as the proof can see the sink's bytes.
    ensures order { IfSome (S.left src.old) (λ input. (served : IsServed (B.content board.old) (B.content board.new) input
        (connection_of S.Source K.Sink src.old sink.old) (connection_of S.Source K.Sink src.new sink.new) steps.old steps.new result)
        × ReadsWhere S.Source (FollowsReplies (room_of (B.content board.old).conf) served.run.outputs served.passed) [] src.old src.new) }
    // It ends out of memory if and only if there is no frame.
    ensures begins { (result.end ≡ OutOfMemory) ↔ IsNone frame.old }
    ensures kept { IsSome frame.old → IsSome frame.new }
    ensures room { IfSome frame.new (λ frame. frame.room ≡ room_of (B.content board.new).conf) }
{
    board.release();
    match frame {
        Some(frame) => {
            frame.clear();
            let top = top_of(board);
            let means = Means { rt, alloc, gate };
            let mut connection = OpenConnection {
                frame,
                board,
                src,
                sink,
                steps,
                memory_faults: 0,
            };
            let end = answer_all(&means, &mut connection, top);
            return Served {
                end,
                memory_faults: connection.memory_faults,
            };
        }
        None => {
            // For the prover: what a board has seen is a history, and a count fits 64 bits.
            let _legal = board.last();
            let _count = steps.count();
            return Served {
                end: SessionEnd::OutOfMemory,
                memory_faults: 0,
            };
        }
    }
}

// Serves the requests of an open connection, one after another.
fn answer_all<
    R: Threads + Sync + Clock + Log,
    B: ChangedWith<R>,
    S: Source,
    K: Sink,
    G: Gate + Sync,
>(
    means: &Means<'_, R, G>,
    connection: &mut OpenConnection<'_, '_, '_, '_, '_, B, S, K>,
    top: u8,
) -> SessionEnd
    requires empty { connection.old.frame.now.held ≡ [] }
    requires turn { connection.old.frame.now.turn ≡ AtHead }
    requires room { connection.old.frame.now.room ≡ room_of (B.content connection.old.board.now).conf }
    requires top { top ≡ (B.content connection.old.board.now).conf.shape.top }
    requires small { top ≤ 11 }
    requires legal { IsHistory (B.content connection.old.board.now).opening (B.content connection.old.board.now).history }
    requires owned { IsOwned (B.content connection.old.board.now) }
    requires released { (B.content connection.old.board.now).held ≡ None }
    requires memory_faults { connection.old.memory_faults ≡ 0 }
    ensures serves { ServesAll (moment_of S.Source K.Sink B.content connection.old) (moment_of S.Source K.Sink B.content connection.new) result }
    ensures order { IfSome (S.left connection.old.src.now) (λ input. (served : IsServedTo (moment_of S.Source K.Sink B.content connection.old) (moment_of S.Source K.Sink B.content connection.new) result input)
        × ReadsWhere S.Source (FollowsReplies (room_of (B.content connection.old.board.now).conf) served.run.outputs served.passed) [] connection.old.src.now connection.new.src.now) }
    ensures same { SameEnds connection.old connection.new }
{
    for count in 0..MOST_REQUESTS {
        match answer_next(means, connection, top, count) {
            Ok(true) => return SessionEnd::Asked,
            Ok(false) => {}
            Err(end) => return end,
        }
    }
    SessionEnd::Spent
}

/// A frame with room for the longest body of the board's survey; `None` where there is no memory for it.
pub fn frame_for<B: Board>(alloc: Global, board: &B) -> Option<Frame>
    ensures { IfSome result (λ frame. frame.room ≡ room_of (B.content board.now).conf) }
{
    Frame::new(alloc, batch_room(board.last().conf())).ok()
}

// The order of the leaves of the board's survey.
fn top_of<B: Board>(board: &B) -> u8
    ensures top { result ≡ (B.content board.now).conf.shape.top }
    ensures small { result ≤ 11 }
    ensures legal { IsHistory (B.content board.now).opening (B.content board.now).history }
    ensures owned { IsOwned (B.content board.now) }
{
    board.last().conf().shape().top
}
