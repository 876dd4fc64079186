//! One request and its reply.
ghost use Rattle.std.specs.Prelude.{◌≡◌, IfOk, IfErr, IfSome, IsSome, MatchResult};
ghost use Rattle.mirror_frame.specs.Requests.{HasOrder};
ghost use Rattle.mirror_frame.specs.Reply.{pinned_line};
ghost use Rattle.mirror_frame.specs.Exchange.{IsExchanged, BreaksOff};
ghost use Rattle.mirror_frame.specs.Peer.{talk, body_of, Goes};
ghost use Rattle.mirror_frame.specs.declared.due.Due.TheVariants.{Pinned};
ghost use Rattle.mirror_frame.specs.declared.reading.ReplyStop.{ReplyStop};
ghost use Rattle.hips_mirror.specs.Mirror.{RefusesReply, is_read_fault, is_write_fault, is_err_and};
ghost use Rattle.hips_mirror.specs.Stages.{TrueOfUnread, of_stop};

use crate::logging::say_stop;
use crate::refusal::MirrorRefusal;
use crate::request::Request;
use log::Log;
use mirror_frame::{Due, Peer, ReplyStop};
use survey_link::{Sink, Source};

/// Sends a request, and reads its reply: its body is then the peer's. It answers the reply's Survey-Prefix. What is wrong
/// with a reply is logged.
///
/// # Errors
///
/// `Reply` with the number of the request if and only if the reply is malformed; `Cut` if and only if the input ends within it;
/// `ReadFault` and `WriteFault` if and only if that end's count of faults rose; `OutOfMemory`.
pub(crate) fn ask<R: Log, S: Source, K: Sink>(
    rt: &R,
    peer: &mut Peer<'_, '_, '_, S, K>,
    request: &Request,
    due: Due,
) -> Result<Option<u32>, MirrorRefusal>
    requires { HasOrder request.now.ask }
    ensures asked { MatchResult result
        (λ _. IsExchanged S.Source K.Sink request.now.ask due (body_of peer.new) (talk peer.old) (talk peer.new))
        (λ refusal. (stop : ReplyStop) × (refusal ≡ of_stop stop request.now.number) × BreaksOff S.Source K.Sink request.now.ask due (talk peer.old) (talk peer.new) stop) }
    ensures pinned { due ≡ Pinned → IfOk result (λ prefix. IsSome prefix × IfSome prefix (λ k. body_of peer.new ≡ pinned_line k)) }
    ensures refused { IfErr result (λ refusal. TrueOfUnread S.Source K.Sink peer.old (λ bytes. RefusesReply due request.now.number bytes refusal)) }
    ensures goes { Goes S.Source K.Sink (is_err_and is_read_fault result) (is_err_and is_write_fault result) peer.old peer.new }
{
    match peer.ask(&request.ask, due) {
        Ok(prefix) => Ok(prefix),
        Err(stop) => {
            say_stop(rt, request, stop, peer.fault(due));
            Err(refusal_of(stop, request.number))
        }
    }
}

// Why this request has no reply.
fn refusal_of(stop: ReplyStop, request: u32) -> MirrorRefusal
    ensures { result ≡ of_stop stop request }
{
    match stop {
        ReplyStop::Wrong => MirrorRefusal::Reply { request },
        ReplyStop::Cut => MirrorRefusal::Cut,
        ReplyStop::ReadFault => MirrorRefusal::ReadFault,
        ReplyStop::WriteFault => MirrorRefusal::WriteFault,
        ReplyStop::OutOfMemory => MirrorRefusal::OutOfMemory,
    }
}
