//! Replies are written.
ghost use Rattle.std.specs.Prelude.{◌≡◌, true};
ghost use Rattle.http_frame.specs.Reply.{is_reply_code};
ghost use Rattle.hips_http.specs.Moment.{output_at};
ghost use Rattle.hips_http.specs.Progress.{FlushesReply, Sends, reply_of};
ghost use Rattle.hips_http.specs.Replies.{sent_body, refusal_bytes};

use crate::logging::{Stopwatch, say_refused, say_reply};
use crate::open_connection::Due;
use crate::reply::TextReply;
use http_frame::{Allow, Kind, Method, Number, Reply, write_reply};
use log::Log;
use std::time::Clock;
use survey_link::{Failed, Sink};

/// Writes a reply to a request, and logs it; to HEAD its head alone.
///
/// # Errors
///
/// `Failed` only where the sink's count of faults rose; a prefix may have been written.
pub(crate) fn send_text<R: Clock + Log, K: Sink>(
    rt: &R,
    sink: &mut K,
    due: &Due,
    path: Option<&[u8]>,
    reply: &TextReply,
) -> Result<(), Failed>
    ensures sends { Sends (output_at K.Sink sink.old) (output_at K.Sink sink.new) (reply_of due.now.close due.now.request reply.now) result }
    ensures hands { FlushesReply (output_at K.Sink sink.old) (output_at K.Sink sink.new) result }
{
    let text = reply.text.as_slice();
    let head = Reply {
        code: reply.code,
        allow: reply.allow,
        kind: reply.kind,
        number: reply.number,
        length: text.len() as u64,
        close: due.close,
    };
    let sent = write_reply(sink, &head, sent_part(due.request.method, text));
    say_reply(rt, due, path, reply.code, head.length, text);
    sent
}

/// What is sent of a part of a body: to HEAD nothing (RFC 9110, section 9.3.2).
pub(crate) fn sent_part(method: Method, part: &[u8]) -> &[u8]
    ensures { result.now ≡ sent_body method part.now }
{
    match method {
        Method::Head => &[],
        _ => part,
    }
}

/// Writes the reply to a head that is refused by its framing, and logs it. The code is one of those by which a frame refuses.
///
/// # Errors
///
/// `Failed` only where the sink's count of faults rose; a prefix may have been written.
pub(crate) fn send_refusal<R: Clock + Log, K: Sink>(
    rt: &R,
    sink: &mut K,
    code: u16,
) -> Result<(), Failed>
    requires known { is_reply_code code ≡ true }
    ensures sends { Sends (output_at K.Sink sink.old) (output_at K.Sink sink.new) (refusal_bytes code) result }
    ensures hands { FlushesReply (output_at K.Sink sink.old) (output_at K.Sink sink.new) result }
{
    let watch = Stopwatch::start(rt);
    let head = Reply {
        code,
        allow: Allow::Absent,
        kind: Kind::Absent,
        number: Number::Absent,
        length: 0,
        close: true,
    };
    let sent = write_reply(sink, &head, &[]);
    say_refused(rt, watch, code);
    sent
}
