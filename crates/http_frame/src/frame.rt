//! A connection that is read request by request.
ghost use Rattle.std.specs.Prelude.{◌≡◌, ◌<◌, ◌≤◌, ◌^◌, ◌++◌, ℕ, List, [], None, Some, Err, length, take, if◌then◌else◌, option_copied, vec_capacity, IfOk, IfErr, OnOk, OnErr};
ghost use Rattle.std.specs.Borrow.{sem};
ghost use Rattle.std.specs.Io.BufRead.{Rests};
ghost use Rattle.survey_link.specs.Link.{CountsFault};
ghost use Rattle.percent_encoding.specs.Percent.{percent_decode};
ghost use Rattle.http_frame.specs.Target.{path_of};
ghost use Rattle.http_frame.specs.Next.{IsTaken, NeedsMore};
ghost use Rattle.http_frame.specs.Refusal.{IsRefused};
ghost use Rattle.http_frame.specs.Fill.{read_failed};

use crate::fill::{MAX_HEAD, fill_body, fill_head};
use crate::head::{Head, read_head};
use crate::request::Request;
use crate::stop::{FrameStop, Turn};
use crate::target::local_part;
use percent_encoding::percent_decode;
use std::alloc::{AllocError, Global};
use std::marker::Model;
use survey_link::{Inbox, Source};

/// One connection's input, read request by request: `head` and then `body`, again and again. All its memory is taken by
/// `new`.
#[derive(Drop)]
pub struct Frame {
    buffer: Inbox,
    path: Vec<u8>,
    has_path: bool,
    // How many bytes the body had that was given last.
    given: usize,
    turn: Turn,
    room: usize,
}

impl Model for Frame {
    ghost use Rattle.http_frame.specs.Frame.{FrameState};
    ghost use Rattle.http_frame.specs.FrameFields.{shown, KeepsPlaces};

    ghost Value = { FrameState };

    ghost view = { shown };

    ghost invariant = { KeepsPlaces };
}

impl Frame {
    ghost use Rattle.http_frame.specs.Frame.{FrameState, AwaitsHead, AwaitsBody, ReadsHead, StopsHead, IsStopped, KeepsUnread, HoldsRest, IsShort, GivesFront, LeavesBody, LeavesBodyOf, answered};
    ghost use Rattle.http_frame.specs.Readings.{ReadsWhile};
    ghost use Rattle.http_frame.specs.FrameFields.{with_bytes};
    ghost use Rattle.http_frame.specs.declared.stop.Turn.TheVariants.{AtHead, AtBody, Stopped};
    ghost use Rattle.http_frame.specs.contracts.frame.Frame.{the_row};

    /// A frame for bodies of at most `body_room` bytes.
    ///
    /// # Errors
    ///
    /// `AllocError` where there is no memory for the longest head and body.
    pub fn new(alloc: Global, body_room: usize) -> Result<Frame, AllocError>
        requires { body_room ≤ 2 ^ 30 }
        ensures { IfOk result (λ frame. frame ≡ record {
          held = [];
          path = None;
          body = [];
          turn = AtHead;
          room = body_room;
        }) }
    {
        let buffer = Inbox::new(alloc, MAX_HEAD + body_room)?;
        let path = Vec::with_capacity(alloc, MAX_HEAD)?;
        Ok(Frame {
            buffer,
            path,
            has_path: false,
            given: 0,
            turn: Turn::AtHead,
            room: body_room,
        })
    }

    /// Makes the frame as `new` makes it, with the same room. It takes no memory.
    pub fn clear(&mut self)
        ensures { self.new ≡ record {
          held = [];
          path = None;
          body = [];
          turn = AtHead;
          room = self.old.room;
        } }
    {
        self.buffer.clear();
        self.has_path = false;
        self.given = 0;
        self.turn = Turn::AtHead;
    }

    /// The next head. The source is read only while the bytes held don't decide what comes next, and not after a reading that
    /// failed.
    ///
    /// # Errors
    ///
    /// `End` if and only if the input ends before a head, `Cut` if and only if it ends within one, `Refuse` if and only if the
    /// next head is refused, by its status code (RFC 9110, section 15); `ReadFault` only where the source's count of faults
    /// rose. Nothing is lost; from then on the frame answers the same.
    pub fn head<S: Source>(&mut self, src: &mut S) -> Result<Request, FrameStop>
        requires { AwaitsHead self.old.turn }
        ensures read { self.old.turn ≡ AtHead → IfOk result (ReadsHead self.old self.new (S.left src.old) (S.left src.new)) }
        ensures stop { self.old.turn ≡ AtHead → IfErr result (StopsHead self.old self.new (S.left src.old)) }
        ensures faults { self.old.turn ≡ AtHead → CountsFault (read_failed result) (S.faults src.old) (S.faults src.new) }
        ensures turn { IfOk result (λ request. self.new.turn ≡ AtBody request.length) }
        ensures stopped { IfErr result (IsStopped self.old self.new (S.left src.old) (S.left src.new)) }
        ensures again { (stop : FrameStop) → self.old.turn ≡ Stopped stop → (result ≡ Err stop) × (self.new ≡ self.old) × (src.new ≡ src.old) }
        ensures needed { (came : List ℕ) × ReadsWhile S.left S.readings NeedsMore self.old.held src.old src.new came × HoldsRest self.old self.new came result }
        ensures untouched { (NeedsMore self.old.held → ⊥) → src.new ≡ src.old }
        ensures never_falls { S.faults src.old ≤ S.faults src.new }
        ensures room { self.new.room ≡ self.old.room }
    {
        if let Turn::Stopped(stop) = self.turn {
            return Err(stop);
        }
        match self.next_head(src) {
            Ok(request) => Ok(request),
            Err(stop) => {
                self.turn = Turn::Stopped(stop);
                Err(stop)
            }
        }
    }

    /// The percent-decoded path of the last head, without its leading `/`; `None` if and only if no head was read or its
    /// target has no path.
    pub fn path(&self) -> Option<&[u8]>
        ensures { option_copied result ≡ self.now.path }
    {
        if self.has_path {
            Some(self.path.as_slice())
        } else {
            None
        }
    }

    /// The body of the last head. The source is read only while fewer bytes are held than the body has,
    /// and not after a reading that failed.
    ///
    /// # Errors
    ///
    /// `Cut` if and only if the input ends within the body; `ReadFault` only where the source's count of faults rose. Nothing
    /// is lost; from then on the frame answers the same.
    pub fn body<S: Source>(&mut self, src: &mut S) -> Result<&[u8], FrameStop>
        requires { AwaitsBody self.old.turn }
        ensures length { (n : ℕ) → self.old.turn ≡ AtBody n → IfOk result (λ body. length body.now ≡ n) }
        ensures faults { (n : ℕ) → self.old.turn ≡ AtBody n → CountsFault (read_failed result) (S.faults src.old) (S.faults src.new) }
        ensures needed { (n : ℕ) → self.old.turn ≡ AtBody n
            → (came : List ℕ) × ReadsWhile S.left S.readings (IsShort n) self.old.held src.old src.new came × GivesFront n (self.old.held ++ came) result }
        ensures untouched { (n : ℕ) → self.old.turn ≡ AtBody n → n ≤ length self.old.held → src.new ≡ src.old }
        ensures again { (stop : FrameStop) → self.old.turn ≡ Stopped stop → (result ≡ Err stop) × (src.new ≡ src.old) }
        ensures never_falls { S.faults src.old ≤ S.faults src.new }
        ensures* after_borrow { sem 𝓛 (Rests the_row self.entry (λ new.
            LeavesBody self.old new (S.left src.old) (S.left src.new) (answered result))) }
    {
        self.take_body(src)?;
        Ok(self.buffer.given(self.given))
    }

    // Reads and takes the next head.
    fn next_head<S: Source>(&mut self, src: &mut S) -> Result<Request, FrameStop>
        requires { self.old.turn ≡ AtHead }
        ensures read { IfOk result (ReadsHead self.old self.new (S.left src.old) (S.left src.new)) }
        ensures stop { IfErr result (StopsHead self.old self.new (S.left src.old)) }
        ensures faults { CountsFault (read_failed result) (S.faults src.old) (S.faults src.new) }
        ensures kept { OnErr result (KeepsUnread self.old self.new (S.left src.old) (S.left src.new)) }
        ensures path { OnErr result (self.new.path ≡ self.old.path) }
        ensures needed { (came : List ℕ) × ReadsWhile S.left S.readings NeedsMore self.old.held src.old src.new came × HoldsRest self.old self.new came result }
        ensures untouched { (NeedsMore self.old.held → ⊥) → src.new ≡ src.old }
        ensures never_falls { S.faults src.old ≤ S.faults src.new }
        ensures room { self.new.room ≡ self.old.room }
    {
        self.given = 0;
        let length = match fill_head(&mut self.buffer, src) {
            Ok(length) => length,
            Err(stop) => return Err(stop),
        };
        let text = &self.buffer.held()[..length];
        match take_head(text, self.room, &mut self.path) {
            Ok((request, has_path)) => {
                self.has_path = has_path;
                self.buffer.give(length);
                self.turn = Turn::AtBody(request.length);
                Ok(request)
            }
            Err(code) => Err(FrameStop::Refuse(code)),
        }
    }

    // Reads and takes the next body.
    fn take_body<S: Source>(&mut self, src: &mut S) -> Result<(), FrameStop>
        requires { AwaitsBody self.old.turn }
        ensures leaves { LeavesBody self.old self.new (S.left src.old) (S.left src.new) (with_bytes result self.new.body) }
        ensures length { (n : ℕ) → self.old.turn ≡ AtBody n → OnOk result (length self.new.body ≡ n) }
        ensures faults { (n : ℕ) → self.old.turn ≡ AtBody n → CountsFault (read_failed result) (S.faults src.old) (S.faults src.new) }
        ensures needed { (n : ℕ) → self.old.turn ≡ AtBody n
            → (came : List ℕ) × ReadsWhile S.left S.readings (IsShort n) self.old.held src.old src.new came × OnOk result (self.new.body ≡ take n (self.old.held ++ came)) }
        ensures untouched { (n : ℕ) → self.old.turn ≡ AtBody n → n ≤ length self.old.held → src.new ≡ src.old }
        ensures again { (stop : FrameStop) → self.old.turn ≡ Stopped stop → (result ≡ Err stop) × (self.new ≡ self.old) × (src.new ≡ src.old) }
        ensures never_falls { S.faults src.old ≤ S.faults src.new }
    {
        match self.turn {
            Turn::AtHead => unreachable!(),
            Turn::AtBody(length) => self.read_body(src, length),
            Turn::Stopped(stop) => Err(stop),
        }
    }

    // Reads and takes the next body, which has so many bytes.
    fn read_body<S: Source>(&mut self, src: &mut S, count: u64) -> Result<(), FrameStop>
        requires { self.old.turn ≡ AtBody count }
        ensures leaves { LeavesBodyOf count self.old self.new (S.left src.old) (S.left src.new) (with_bytes result self.new.body) }
        ensures length { OnOk result (length self.new.body ≡ count) }
        ensures faults { CountsFault (read_failed result) (S.faults src.old) (S.faults src.new) }
        ensures needed { (came : List ℕ) × ReadsWhile S.left S.readings (IsShort count) self.old.held src.old src.new came
            × OnOk result (self.new.body ≡ take count (self.old.held ++ came)) }
        ensures untouched { count ≤ length self.old.held → src.new ≡ src.old }
        ensures never_falls { S.faults src.old ≤ S.faults src.new }
        ensures room { self.new.room ≡ self.old.room }
        ensures path { self.new.path ≡ self.old.path }
    {
        let count = count as usize;
        self.given = 0;
        match fill_body(&mut self.buffer, src, count) {
            Ok(()) => {
                self.buffer.give(count);
                self.given = count;
                self.turn = Turn::AtHead;
                Ok(())
            }
            Err(stop) => {
                self.turn = Turn::Stopped(stop);
                Err(stop)
            }
        }
    }
}

// What the text of a head asks for, and whether it has a path, which is then decoded into `path`; else the code that refuses
// it.
fn take_head(text: &[u8], room: usize, path: &mut Vec<u8>) -> Result<(Request, bool), u16>
    requires room { room ≤ 2 ^ 30 }
    requires path { length text.now ≤ vec_capacity path.old }
    ensures taken { IfOk result (λ found. IsTaken room text.now found.0 (if found.1 then Some path.new.items else None)) }
    ensures length { IfOk result (λ found. found.0.length ≤ room) }
    ensures refused { IfErr result (λ code. IsRefused room text.now code) }
    ensures same { OnErr result (path.new ≡ path.old) }
    ensures capacity { vec_capacity path.new ≡ vec_capacity path.old }
{
    let head = read_head(text, room)?;
    let has_path = decode_path(head.target.of(text), path);
    Ok((head.request, has_path))
}

// Whether the target has a path, which is then decoded into `path`.
fn decode_path(target: &[u8], path: &mut Vec<u8>) -> bool
    requires { length target.now ≤ vec_capacity path.old }
    ensures decoded { (if result then Some path.new.items else None) ≡ path_of target.now }
    ensures capacity { vec_capacity path.new ≡ vec_capacity path.old }
{
    match local_part(target) {
        [b'/', encoded @ ..] => {
            decode(encoded, path);
            true
        }
        _ => false,
    }
}

// Decodes into the room that the vector has.
fn decode(encoded: &[u8], path: &mut Vec<u8>)
    requires { length encoded.now ≤ vec_capacity path.old }
    ensures decoded { path.new.items ≡ percent_decode encoded.now }
    ensures capacity { vec_capacity path.new ≡ vec_capacity path.old }
{
    path.clear();
    for byte in percent_decode(encoded) {
        path.push_reserved(byte);
    }
}
