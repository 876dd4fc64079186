//! A copy from a session.
ghost use Rattle.std.specs.Prelude.{IfOk};
ghost use Rattle.survey_link.specs.Link.{CountsFault};
ghost use Rattle.hips_mirror.specs.Mirror.{is_read_fault, is_write_fault, is_shelf_fault, is_err_and};
ghost use Rattle.served_copy.specs.Served.{CopiesServed, CopiesJoined};

use crate::laws::{copies_are_of_seen_states, sessions_answer_copies};
use hips_mirror::laws::peers_are_copied;
use hips_mirror::{MirrorRefusal, mirror};
use log::Log;
use parent_rule::Steps;
use std::alloc::Global;
use std::thread::Threads;
use std::time::Clock;
use survey_link::{Gate, Shelf, Sink, Source};

/// Copies a survey onto the shelf as `mirror` does, from a peer that is a session. The source has what the session flushed.
///
/// Where the session was sent the requests for the state that it answered by, the copy is of that state, or it ends by an error
/// of its own ends or out of memory. Where the session was sent what this call wrote, a copy is of a state that it had seen.
///
/// # Errors
///
/// Those of `mirror`. `ReadFault`, `WriteFault` and `ShelfFault` if and only if that one's count of faults rose.
pub fn mirror_session<
    R: Threads + Sync + Clock + Log,
    S: Source,
    K: Sink,
    H: Shelf,
    G: Gate + Sync,
>(
    rt: &R,
    alloc: Global,
    src: &mut S,
    sink: &mut K,
    shelf: &mut H,
    gate: &G,
) -> Result<u64, MirrorRefusal>
    ensures served { CopiesServed (S.left src.old) (H.files shelf.old) (H.files shelf.new) result }
    ensures joined { IfOk result (CopiesJoined (S.left src.old) (K.held sink.old) (K.held sink.new) (H.files shelf.old) (H.files shelf.new)) }
    ensures read_fault { CountsFault (is_err_and is_read_fault result) (S.faults src.old) (S.faults src.new) }
    ensures write_fault { CountsFault (is_err_and is_write_fault result) (K.faults sink.old) (K.faults sink.new) }
    ensures shelf_fault { CountsFault (is_err_and is_shelf_fault result) (H.faults shelf.old) (H.faults shelf.new) }
{
    sessions_answer_copies();
    copies_are_of_seen_states();
    peers_are_copied();
    let mut steps = Steps::new();
    mirror(rt, alloc, src, sink, shelf, gate, &mut steps)
}
