//! Why there is no copy, in words for the log: which request, which path, and what is wrong with what came.
use crate::refusal::MirrorRefusal;
use crate::request::Request;
use log::{Log, error, info};
use mirror_frame::{ReplyFault, ReplyStop};
use survey_conf::{ConfFault, FaultWords};
use tile_path::Path;

// What is asked where a reply looks like that of another server.
const ITSELF: &str = "is this the address of hipsd itself?";

/// Logs why a request has no reply.
pub(crate) fn say_stop<R: Log>(rt: &R, request: &Request, stop: ReplyStop, fault: ReplyFault<'_>) {
    match stop {
        ReplyStop::Wrong => say_fault(rt, request, fault),
        ReplyStop::Cut => error!(rt; "{request}: the connection ended within the reply"),
        ReplyStop::ReadFault => error!(rt; "{request}: the reply didn't come, or not whole"),
        ReplyStop::WriteFault | ReplyStop::OutOfMemory => {}
    }
}

// Logs which condition a reply fails.
fn say_fault<R: Log>(rt: &R, request: &Request, fault: ReplyFault<'_>) {
    match fault {
        ReplyFault::NoHead => error!(rt; "{request}: what came is no HTTP reply: {ITSELF}"),
        ReplyFault::Code { code, reason } => {
            let (reason, advice) = (reason.escape_ascii(), advice(code));
            error!(rt; "{request} was answered {code} {reason}, and not 200: {advice}");
        }
        ReplyFault::Version =>
            error!(rt; "{request} was answered by HTTP/1.0, and not HTTP/1.1: {ITSELF}"),
        ReplyFault::Length =>
            error!(rt; "{request}: the reply must have one Content-Length, 67108864 at most: {ITSELF}"),
        ReplyFault::Prefix(None) =>
            error!(rt; "{request}: the reply must have one Survey-Prefix: {ITSELF}"),
        ReplyFault::Prefix(Some(prefix)) =>
            error!(rt; "{request}: the reply has Survey-Prefix {prefix}, which isn't pinned: {ITSELF}"),
        ReplyFault::Body =>
            error!(rt; "{request}: the body must be `pinned` and the Survey-Prefix: {ITSELF}"),
    }
}

// What to look at where a request was answered by a code that isn't 200.
fn advice(code: u16) -> &'static str {
    match code {
        404 => "hipsd has this path, so is this its address?",
        502 => "a proxy is there, and hipsd behind it doesn't answer; does it run?",
        503 => "the server there is starting or busy; try again later",
        _ => ITSELF,
    }
}

/// Logs why what came for a request was refused, where it was.
pub(crate) fn say_refused<R: Log, T>(rt: &R, request: &Request, answer: &Result<T, MirrorRefusal>) {
    if let Err(refusal) = answer {
        say_refusal(rt, request, refusal);
    }
}

// Logs why the body that came for a request is refused. The properties have lines of their own.
fn say_refusal<R: Log>(rt: &R, request: &Request, refusal: &MirrorRefusal) {
    match refusal {
        MirrorRefusal::Cover =>
            error!(rt; "{request}: the body isn't the coverage file of leaves of the survey's order"),
        MirrorRefusal::TooLarge { leaves } =>
            error!(rt; "{request}: {leaves} leaves are too many: at most 65000 are copied, of at most 2^29 bytes"),
        MirrorRefusal::Leaf { fault, .. } =>
            error!(rt; "{request}: the body is no tile of the survey: {fault}"),
        MirrorRefusal::Differs { path } => say_differs(rt, request, *path),
        _ => {}
    }
}

// Logs that one of the two files differs that are compared once the mosaic has come.
fn say_differs<R: Log>(rt: &R, request: &Request, path: Path) {
    match path {
        Path::Properties => {
            error!(rt; "{}: the body isn't the file that the leaves make", Request::properties())
        }
        _ => error!(rt; "{request}: the body isn't the file that the leaves make"),
    }
}

/// Logs that the last line of the properties has no number of leaves.
pub(crate) fn say_no_count<R: Log>(rt: &R) {
    let request = Request::properties();
    error!(rt; "{request}: the last line must be `survey_leaves = N`, with N in plain decimals");
}

/// Logs which fault the description in the properties has.
pub(crate) fn say_conf_fault<R: Log>(rt: &R, text: &[u8], fault: ConfFault) {
    let request = Request::properties();
    error!(rt; "{request}: {}", FaultWords::new(text, fault));
}

/// Logs that all leaves came, and what follows.
pub(crate) fn say_building<R: Log>(rt: &R, leaves: usize) {
    info!(rt; "leaves copied: all {leaves}; the tiles above them are built next");
}

/// Logs which state of the peer was copied.
pub(crate) fn say_copied<R: Log>(rt: &R, prefix: u32) {
    info!(rt; "copied: the peer's Survey-Prefix {prefix}; its mosaic and properties agree with its leaves");
}
