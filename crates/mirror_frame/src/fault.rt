//! Which condition a refused reply fails, for the log.
use crate::due::Due;
use crate::head::{parse_head, stated_length, stated_prefix};
use http_frame::{Fields, MAX_FIELDS};
use httparse::spans::EMPTY_HEADER_SPAN;
use memchr::memmem;

/// The first condition that a refused reply fails.
#[derive(Clone, Copy, Debug, PartialEq, Eq)]
pub enum ReplyFault<'a> {
    /// It has no head of an HTTP reply.
    NoHead,
    /// The code isn't 200.
    Code {
        /// The code.
        code: u16,
        /// The reason phrase.
        reason: &'a [u8],
    },
    /// It isn't of HTTP/1.1.
    Version,
    /// It hasn't one Content-Length, of at most 67,108,864.
    Length,
    /// It hasn't one Survey-Prefix, or not the one that is due: the number that it has.
    Prefix(Option<u32>),
    /// The body isn't the one that is due.
    Body,
}

/// The first condition that a refused reply fails, by what is held of it: its head is no longer held where its body is refused.
pub(crate) fn fault_of(held: &[u8], due: Due) -> ReplyFault<'_> {
    if held.is_empty() {
        return ReplyFault::Body;
    }
    match memmem::find(held, b"\r\n\r\n") {
        Some(at) => match held.get(..at.saturating_add(4)) {
            Some(head) => head_fault(head, due),
            None => ReplyFault::NoHead,
        },
        None => ReplyFault::NoHead,
    }
}

// The first condition that a refused reply with this head fails.
fn head_fault(head: &[u8], due: Due) -> ReplyFault<'_> {
    let mut spans = [EMPTY_HEADER_SPAN; MAX_FIELDS];
    let parsed = match parse_head(head, &mut spans) {
        Some(parsed) => parsed,
        None => return ReplyFault::NoHead,
    };
    if parsed.code != 200 {
        return ReplyFault::Code {
            code: parsed.code,
            reason: head
                .get(parsed.reason.start..parsed.reason.end)
                .unwrap_or(b""),
        };
    }
    if parsed.version != 1 {
        return ReplyFault::Version;
    }
    let fields = Fields::new(head, &spans[..parsed.headers]);
    if stated_length(&fields).is_none() {
        return ReplyFault::Length;
    }
    let prefix = stated_prefix(&fields);
    if due.fits_prefix(prefix) {
        ReplyFault::Body
    } else {
        ReplyFault::Prefix(prefix)
    }
}
