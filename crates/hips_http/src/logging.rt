//! What is logged of requests and publications.
use crate::open_connection::Due;
use http_frame::Method;
use log::{Level, Log, debug, info, log_enabled};
use std::fmt;
use std::time::{Clock, Instant};

/// What the log calls a request.
const REQUEST: &str = "request";

/// A stop-watch over one request. It reads the clock only if requests are logged.
#[derive(Clone, Copy)]
pub(crate) struct Stopwatch {
    begun: Option<Instant>,
}

impl Stopwatch {
    /// One that starts now.
    pub(crate) fn start<R: Clock + Log>(rt: &R) -> Stopwatch {
        let begun = if log_enabled!(rt; target: REQUEST, Level::Debug) {
            Instant::now(rt).ok()
        } else {
            None
        };
        Stopwatch { begun }
    }

    // The microseconds since the start.
    fn micros<R: Clock>(self, rt: &R) -> u128 {
        let took = self.begun.and_then(|begun| begun.elapsed(rt).ok());
        took.map_or(0, |took| took.as_micros())
    }
}

/// Logs that a request was answered, by a body of so many bytes; if it was refused, the text says why.
pub(crate) fn say_reply<R: Clock + Log>(
    rt: &R,
    due: &Due,
    path: Option<&[u8]>,
    code: u16,
    length: u64,
    text: &[u8],
) {
    let method = due.request.method;
    let refusal = if code < 400 {
        b""
    } else {
        text.strip_suffix(b"\n").unwrap_or(text)
    };
    let line = Line {
        method: name(method),
        path,
        code,
        length: sent(method, length),
        refusal,
    };
    say(rt, due.watch, line);
}

/// Logs that a head was refused by its framing. Nothing of it is known but the code.
pub(crate) fn say_refused<R: Clock + Log>(rt: &R, watch: Stopwatch, code: u16) {
    let line = Line {
        method: "-",
        path: None,
        code,
        length: 0,
        refusal: refusal(code),
    };
    say(rt, watch, line);
}

// What is logged of a request: the method, the path, the code, the bytes of the body, and why it was refused.
#[derive(Clone, Copy)]
struct Line<'p, 't> {
    method: &'static str,
    path: Option<&'p [u8]>,
    code: u16,
    length: u64,
    refusal: &'t [u8],
}

// Logs that a request was answered, in one line of words, whatever bytes its path has; the microseconds come before the last.
fn say<R: Clock + Log>(rt: &R, watch: Stopwatch, line: Line<'_, '_>) {
    let Line {
        method,
        path,
        code,
        length,
        refusal,
    } = line;
    debug!(
        rt; target: REQUEST,
        "{method} {} {code} {length} {} {}", PathWord(path), watch.micros(rt), RefusalWord(refusal)
    );
}

// How many bytes of a reply's body are sent: none to HEAD (RFC 9110, section 9.3.2).
fn sent(method: Method, length: u64) -> u64 {
    match method {
        Method::Head => 0,
        _ => length,
    }
}

// How a method is written (RFC 9110, section 9.3).
fn name(method: Method) -> &'static str {
    match method {
        Method::Get => "GET",
        Method::Head => "HEAD",
        Method::Put => "PUT",
        Method::Delete => "DELETE",
        Method::Post => "POST",
        Method::Other => "OTHER",
    }
}

// Why a head is refused by its framing: the reason phrase of the code (RFC 9110, section 15; RFC 6585).
fn refusal(code: u16) -> &'static [u8] {
    match code {
        411 => b"length required",
        413 => b"content too large",
        431 => b"request header fields too large",
        501 => b"not implemented",
        505 => b"http version not supported",
        _ => b"bad request",
    }
}

// A path as one word, with `/` before it; `-` where there is none.
#[derive(Clone, Copy)]
struct PathWord<'a>(Option<&'a [u8]>);

impl fmt::Display for PathWord<'_> {
    fn fmt<W: fmt::Write>(&self, f: &mut fmt::Formatter<W>) -> fmt::Result {
        match self.0 {
            Some(path) => {
                f.write_str("/")?;
                write_word(f, path, "\\x20")
            }
            None => f.write_str("-"),
        }
    }
}

// The line of text that refuses a request, as one word; `-` where there is none.
#[derive(Clone, Copy)]
struct RefusalWord<'a>(&'a [u8]);

impl fmt::Display for RefusalWord<'_> {
    fn fmt<W: fmt::Write>(&self, f: &mut fmt::Formatter<W>) -> fmt::Result {
        if self.0.is_empty() {
            return f.write_str("-");
        }
        write_word(f, self.0, "_")
    }
}

// Writes bytes as one word: printable ASCII as it is, `blank` for a space, all else escaped.
fn write_word<W: fmt::Write>(f: &mut fmt::Formatter<W>, bytes: &[u8], blank: &str) -> fmt::Result {
    for byte in bytes {
        match byte {
            b' ' => f.write_str(blank)?,
            _ => write!(f, "{}", byte.escape_ascii())?,
        }
    }
    Ok(())
}

/// A publication under way.
#[derive(Drop)]
pub(crate) struct Publishing {
    begun: Option<Instant>,
    prefix: u32,
    steps: u64,
}

impl Publishing {
    /// One that begins now, where the first `prefix` edits are published, at that count of steps.
    pub(crate) fn begin<R: Clock>(rt: &R, prefix: u32, steps: u64) -> Publishing {
        Publishing {
            begun: Instant::now(rt).ok(),
            prefix,
            steps,
        }
    }

    /// Logs that the first `prefix` of so many edits are published, at that count of steps, and how many weren't when it began.
    pub(crate) fn say_done<R: Clock + Log>(&self, rt: &R, prefix: u32, edits: u32, steps: u64) {
        let own = prefix.saturating_sub(self.prefix);
        let tiles = steps.saturating_sub(self.steps);
        let took = self.begun.and_then(|begun| begun.elapsed(rt).ok());
        let millis = took.map_or(0, |took| took.as_millis());
        info!(rt; "published {own} edits, {prefix} of {edits} in all: {tiles} tiles built in {millis} ms");
    }
}
