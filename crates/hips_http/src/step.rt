//! One request: its head, its body, and the reply.
ghost use Rattle.std.specs.Prelude.{◌≡◌, ◌≢◌, ◌||◌, ◌==◌, ◌≤◌, ◌+◌, ◌<◌, true, ℕ, List, Err, is_err, OnOk, OnErr, IfOk, IfErr, IsSome, ◌++◌};
ghost use Rattle.hips_http.specs.declared.call.Call.TheVariants as call;
ghost use Rattle.std.specs.Io.KnownBytes.{Appends};
ghost use Rattle.survey_link.specs.Link.{AppendsPrefix, CountsFault};
ghost use Rattle.http_frame.specs.Frame.{StopsHead, KeepsUnread, IsShort};
ghost use Rattle.http_frame.specs.Fill.{read_failed};
ghost use Rattle.http_frame.specs.Next.{NeedsMore, IsFound};
ghost use Rattle.http_frame.specs.Readings.{ReadsWhile};
ghost use Rattle.http_frame.specs.declared.stop.Turn.TheVariants.{AtHead, AtBody};
ghost use Rattle.http_frame.specs.Reply.{is_reply_code, continue_bytes};
ghost use Rattle.hips_http.specs.declared.served.SessionEnd.TheVariants.{WriteFault, OutOfMemory};
ghost use Rattle.hips_http.specs.Replies.{leave_bytes};
ghost use Rattle.hips_http.specs.Paths.{IsPathOf};
ghost use Rattle.hips_http.specs.Moment.{input_at, moment_of, SameEnds, ReadsWhere};
ghost use Rattle.hips_http.specs.Progress.{ReadsCall, HasLeaf, HasFile, EndsAt, is_text, body_end, memory_faults_after, ServesCall, ServesOne};
ghost use Rattle.hips_http.specs.SessionRun.{FlushesAll, room_of, most_requests, is_read_fault, is_write_fault};
ghost use Rattle.hips_http.specs.Readings.{NeedsRest, HoldsBehind};

use crate::answer::answer;
use crate::call::{Call, call_of, path_kind};
use crate::file::{file_reply, look, sent_parts, shown};
use crate::logging::{Stopwatch, say_reply};
use crate::open_connection::{Due, OpenConnection};
use crate::reply::TextReply;
use crate::send::{send_refusal, send_text};
use crate::served::SessionEnd;
use fits_header::BLOCK_LEN;
use http_frame::{Frame, FrameStop, Request, write_continue, write_reply_parts};
use log::Log;
use reader_pin::{Board, ChangedWith};
use std::thread::Threads;
use std::time::Clock;
use survey_link::{Failed, Gate, Means, Sink, Source};
use tile_path::Path;

/// The most requests of a connection.
pub(crate) const MOST_REQUESTS: u32 = 65_536;

/// The next head, and what it asks for.
pub(crate) fn next_call<S: Source>(
    frame: &mut Frame,
    src: &mut S,
    top: u8,
) -> Result<(Request, Call), FrameStop>
    requires turn { frame.old.turn ≡ AtHead }
    requires top { top ≤ 11 }
    ensures read { IfOk result (λ next. ReadsCall top (input_at S.Source frame.old src.old) (input_at S.Source frame.new src.new) next.0 next.1) }
    ensures stop { IfErr result (StopsHead frame.old frame.new (S.left src.old)) }
    ensures faults { CountsFault (read_failed result) (S.faults src.old) (S.faults src.new) }
    ensures kept { OnErr result (KeepsUnread frame.old frame.new (S.left src.old) (S.left src.new)) }
    ensures turn { IfOk result (λ next. frame.new.turn ≡ AtBody next.0.length) }
    ensures needed { (came : List ℕ) × ReadsWhile S.left S.readings NeedsMore frame.old.held src.old src.new came
        × IfOk result (λ next. IsFound frame.old.room (frame.old.held ++ came) next.0 frame.new.path frame.new.held) }
    ensures leaf { IfOk result (λ next. HasLeaf top next.1) }
    ensures file { IfOk result (λ next. HasFile frame.new.path next.1) }
    ensures never_falls { S.faults src.old ≤ S.faults src.new }
    ensures room { frame.new.room ≡ frame.old.room }
{
    match frame.head(src) {
        Ok(request) => {
            let kind = path_kind(frame.path(), top);
            return Ok((request, call_of(request.method, kind)));
        }
        Err(stop) => return Err(stop),
    }
}

/// Ends a connection where no request follows: a head that is refused is answered first.
pub(crate) fn end_at<R: Clock + Log, K: Sink>(rt: &R, sink: &mut K, stop: FrameStop) -> SessionEnd
    ensures ends { EndsAt stop (K.held sink.old) (K.held sink.new) result }
    ensures read_fault { is_read_fault result ≡ is_read_fault (body_end stop) }
    ensures flushed { ¬ (result ≡ WriteFault) → FlushesAll (K.held sink.old) (K.held sink.new) (K.flushed sink.old) (K.flushed sink.new) }
    ensures stays { result ≡ WriteFault → K.flushed sink.new ≡ K.flushed sink.old }
    ensures memory { result ≢ OutOfMemory }
    ensures faults { CountsFault (is_write_fault result) (K.faults sink.old) (K.faults sink.new) }
    ensures never_falls { K.faults sink.old ≤ K.faults sink.new }
{
    match stop {
        FrameStop::End => return SessionEnd::Closed,
        FrameStop::Cut => return SessionEnd::Cut,
        FrameStop::ReadFault => return SessionEnd::ReadFault,
        FrameStop::Refuse(code) => match send_refusal(rt, sink, reply_code(code)) {
            Ok(()) => return SessionEnd::Refused(code),
            Err(_) => return SessionEnd::WriteFault,
        },
    }
}

// The code of a reply; frames refuse by no other.
fn reply_code(code: u16) -> u16
    ensures known { is_reply_code result ≡ true }
    ensures same { is_reply_code code ≡ true → result ≡ code }
{
    match code {
        200 | 201 | 204 | 400 | 404 | 405 | 411 | 412 | 413 | 422 | 431 | 501 | 503 | 505 | 507 =>
            code,
        _ => 400,
    }
}

/// Sends 100 Continue, if the client waits for it.
///
/// # Errors
///
/// `Failed` only where the sink's count of faults rose; a prefix may have been written.
pub(crate) fn grant<K: Sink>(sink: &mut K, request: &Request) -> Result<(), Failed>
    ensures whole { OnOk result (Appends (K.held sink.old) (K.held sink.new) (leave_bytes request.now)) }
    ensures part { OnErr result (AppendsPrefix (K.held sink.old) (K.held sink.new) continue_bytes) }
    ensures flushed { OnOk result (FlushesAll (K.held sink.old) (K.held sink.new) (K.flushed sink.old) (K.flushed sink.new)) }
    ensures stays { OnErr result (K.flushed sink.new ≡ K.flushed sink.old) }
    ensures waits { OnErr result (request.now.expects ≡ true) }
    ensures faults { CountsFault (is_err result) (K.faults sink.old) (K.faults sink.new) }
    ensures never_falls { K.faults sink.old ≤ K.faults sink.new }
{
    if request.expects {
        return write_continue(sink);
    }
    Ok(())
}

// How a connection ends where a body isn't whole.
fn body_end(stop: FrameStop) -> SessionEnd
    ensures { result ≡ body_end stop }
{
    match stop {
        FrameStop::ReadFault => SessionEnd::ReadFault,
        _ => SessionEnd::Cut,
    }
}

/// Reads the body of a request for a file, and answers it.
///
/// # Errors
///
/// How the connection ends: `WriteFault` where the reply couldn't be written, else as the body isn't whole.
fn answer_file<R: Clock + Log, B: Board, S: Source, K: Sink>(
    rt: &R,
    connection: &mut OpenConnection<'_, '_, '_, '_, '_, B, S, K>,
    due: &Due,
    file: &Option<Path>,
) -> Result<(), SessionEnd>
    requires turn { connection.old.frame.now.turn ≡ AtBody due.now.request.length }
    requires file { IsPathOf connection.old.frame.now.path file.now }
    ensures serves { ServesCall due.now.request (call.File file.now) due.now.close (moment_of S.Source K.Sink B.content connection.old) (moment_of S.Source K.Sink B.content connection.new) result }
    ensures needed { ReadsWhere S.Source (IsShort due.now.request.length) connection.old.frame.now.held connection.old.src.now connection.new.src.now }
    ensures same { SameEnds connection.old connection.new }
{
    match connection.frame.body(connection.src) {
        Ok(_) => {}
        Err(stop) => return Err(body_end(stop)),
    }
    let path = connection.frame.path();
    look(connection.board);
    // For the prover: what a board has seen is a history.
    let _legal = connection.board.last();
    let mut front = [0u8; BLOCK_LEN];
    let reply = file_reply(due.close, shown(connection.board), file, &mut front);
    let body = sent_parts(due.request.method, &reply);
    let sent = write_reply_parts(connection.sink, &reply.head, body);
    say_reply(
        rt,
        due,
        path,
        reply.head.code,
        reply.head.length,
        reply.front,
    );
    match sent {
        Ok(()) => return Ok(()),
        Err(_) => return Err(SessionEnd::WriteFault),
    }
}

/// Reads the body of a request for anything else, and answers it.
///
/// # Errors
///
/// How the connection ends: `WriteFault` where the reply couldn't be written, else as the body isn't whole.
fn answer_text<
    R: Threads + Sync + Clock + Log,
    B: ChangedWith<R>,
    S: Source,
    K: Sink,
    G: Gate + Sync,
>(
    means: &Means<'_, R, G>,
    connection: &mut OpenConnection<'_, '_, '_, '_, '_, B, S, K>,
    due: &Due,
) -> Result<(), SessionEnd>
    requires turn { connection.old.frame.now.turn ≡ AtBody due.now.request.length }
    requires text { is_text due.now.call ≡ true }
    requires leaf { HasLeaf (B.content connection.old.board.now).conf.shape.top due.now.call }
    requires few { connection.old.memory_faults < 65536 }
    ensures serves { ServesCall due.now.request due.now.call due.now.close (moment_of S.Source K.Sink B.content connection.old) (moment_of S.Source K.Sink B.content connection.new) result }
    ensures needed { ReadsWhere S.Source (IsShort due.now.request.length) connection.old.frame.now.held connection.old.src.now connection.new.src.now }
    ensures same { SameEnds connection.old connection.new }
{
    let reply = match connection.frame.body(connection.src) {
        Ok(body) => answer(means, connection.board, connection.steps, due, body),
        Err(stop) => return Err(body_end(stop)),
    };
    connection.memory_faults = count_memory_fault(connection.memory_faults, &reply);
    match send_text(
        means.rt,
        connection.sink,
        due,
        connection.frame.path(),
        &reply,
    ) {
        Ok(()) => return Ok(()),
        Err(_) => return Err(SessionEnd::WriteFault),
    }
}

/// Reads one request and answers it: `top` is the order of the survey's leaves, `count` how many requests came before it. It
/// answers whether the request asked to close.
///
/// # Errors
///
/// How the connection ends instead.
pub(crate) fn answer_next<
    R: Threads + Sync + Clock + Log,
    B: ChangedWith<R>,
    S: Source,
    K: Sink,
    G: Gate + Sync,
>(
    means: &Means<'_, R, G>,
    connection: &mut OpenConnection<'_, '_, '_, '_, '_, B, S, K>,
    top: u8,
    count: u32,
) -> Result<bool, SessionEnd>
    requires turn { connection.old.frame.now.turn ≡ AtHead }
    requires room { connection.old.frame.now.room ≡ room_of (B.content connection.old.board.now).conf }
    requires top { top ≡ (B.content connection.old.board.now).conf.shape.top }
    requires small { top ≤ 11 }
    requires few { count < 65536 }
    requires memory_faults { connection.old.memory_faults ≤ count }
    ensures serves { ServesOne count (moment_of S.Source K.Sink B.content connection.old) (moment_of S.Source K.Sink B.content connection.new) result }
    ensures reads { IsSome (S.left connection.old.src.now) → (came : List ℕ) × ReadsWhile S.left S.readings (NeedsRest connection.old.frame.now.room) connection.old.frame.now.held connection.old.src.now connection.new.src.now came
        × HoldsBehind connection.old.frame.now.room (connection.old.frame.now.held ++ came) connection.new.frame.now.held result }
    ensures same { SameEnds connection.old connection.new }
{
    let (request, call) = match next_call(connection.frame, connection.src, top) {
        Ok(next) => next,
        Err(stop) => return Err(end_at(means.rt, connection.sink, stop)),
    };
    match grant(connection.sink, &request) {
        Ok(()) => {}
        Err(_) => return Err(SessionEnd::WriteFault),
    }
    let due = Due {
        watch: Stopwatch::start(means.rt),
        request,
        call,
        close: closes(request.close, count),
    };
    match &due.call {
        Call::File(file) => match answer_file(means.rt, connection, &due, file) {
            Ok(()) => return Ok(request.close),
            Err(end) => return Err(end),
        },
        _ => match answer_text(means, connection, &due) {
            Ok(()) => return Ok(request.close),
            Err(end) => return Err(end),
        },
    }
}

// Whether the connection is closed after a reply: the request asked for it, or it is the last that may be answered.
fn closes(asked: bool, count: u32) -> bool
    requires { count < 65536 }
    ensures { result ≡ (asked || (count + 1 == most_requests)) }
{
    asked || count + 1 == MOST_REQUESTS
}

// How many requests have found no memory after a reply.
fn count_memory_fault(memory_faults: u32, reply: &TextReply) -> u32
    requires { memory_faults < 65536 }
    ensures counted { result ≡ memory_faults_after memory_faults reply.now }
    ensures one { result ≤ memory_faults + 1 }
{
    if reply.code == 503 {
        memory_faults + 1
    } else {
        memory_faults
    }
}
