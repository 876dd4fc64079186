//! Replies as bytes.
ghost use Rattle.std.specs.Prelude.{◌≡◌, ◌+◌, ◌≤◌, ◌++◌, true, length, is_err, OnOk, OnErr, decimal};
ghost use Rattle.std.specs.Io.KnownBytes.{Appends};
ghost use Rattle.survey_link.specs.Link.{AppendsPrefix, CountsFault, parts_bytes};
ghost use Rattle.http_frame.specs.Reply.{is_reply_code, reason_of, reply_bytes, reply_head, FitsReply, continue_bytes, line, status_line, allow_line, type_line, length_line, number_line, close_line};
ghost use Rattle.arrayvec.specs.ArrayVec.{array_vec_len};

use crate::pushing::{push, push_number};
use arrayvec::ArrayVec;
use survey_link::{Failed, Sink, write_all_parts, write_whole};

/// The methods that a reply with code 405 allows.
#[derive(Clone, Copy, Debug, PartialEq, Eq)]
pub enum Allow {
    /// The reply lists no methods.
    Absent,
    /// Those of a control path: `POST`.
    Control,
    /// Those of a leaf tile: `GET, HEAD, PUT, DELETE`.
    Leaf,
    /// Those of any other path: `GET, HEAD`.
    Other,
}

/// What the body of a reply is.
#[derive(Clone, Copy, Debug, PartialEq, Eq)]
pub enum Kind {
    /// There is none.
    Absent,
    /// `text/plain`.
    Text,
    /// `application/fits`.
    Fits,
}

/// The state that a reply is of, by a number of edits.
#[derive(Clone, Copy, Debug, PartialEq, Eq)]
pub enum Number {
    /// The reply doesn't name it.
    Absent,
    /// The edits of the published generation: `Survey-Prefix`.
    Prefix(u32),
    /// The accepted edits: `Survey-Edits`.
    Edits(u32),
}

/// The head of a reply.
#[derive(Clone, Copy, Debug, PartialEq, Eq)]
pub struct Reply {
    /// The status code.
    pub code: u16,
    pub allow: Allow,
    pub kind: Kind,
    pub number: Number,
    /// How many bytes the body has; for a reply to HEAD, how many that to GET has.
    pub length: u64,
    /// The connection is closed after this reply.
    pub close: bool,
}

// A head has at most 200 bytes, and a body that fits beside it is written with it.
const ROOM: usize = 1024;

/// Writes the head and the body, and flushes. A body that fits beside the head goes out with it by one call of `write`,
/// a longer one by one call of `write_parts`, where the sink takes all.
///
/// Beyond the conditions the caller owes its clients a reply that isn't misread: with code 204 no body and no kind, since
/// such a reply states no length (RFC 9110, section 15.3.5), and a length with an empty body only in answer to HEAD
/// (section 9.3.2).
///
/// # Errors
///
/// `Failed` only where the sink's count of faults rose; a prefix may have been written, and none was flushed.
pub fn write_reply<K: Sink>(sink: &mut K, reply: &Reply, body: &[u8]) -> Result<(), Failed>
    requires code { is_reply_code reply.now.code ≡ true }
    requires body { FitsReply reply.now body.now }
    ensures whole { OnOk result (Appends (K.held sink.old) (K.held sink.new) (reply_bytes reply.now body.now)) }
    ensures flushed { OnOk result (K.flushed sink.new ≡ K.held sink.new) }
    ensures stays { OnErr result (K.flushed sink.new ≡ K.flushed sink.old) }
    ensures part { OnErr result (AppendsPrefix (K.held sink.old) (K.held sink.new) (reply_bytes reply.now body.now)) }
    ensures faults { CountsFault (is_err result) (K.faults sink.old) (K.faults sink.new) }
    ensures never_falls { K.faults sink.old ≤ K.faults sink.new }
{
    let mut text = ArrayVec::new();
    push_head(&mut text, reply);
    if text.try_extend_from_slice(body).is_ok() {
        write_whole(sink, text.as_slice())?;
    } else {
        write_all_parts(sink, [text.as_slice(), body, &[], &[]])?;
    }
    sink.flush()
}

/// As `write_reply` of the parts of the body one after another: the head and the parts go out by one call of `write_parts`
/// where the sink takes all. The caller owes what it owes `write_reply`.
///
/// # Errors
///
/// `Failed` only where the sink's count of faults rose; a prefix may have been written, and none was flushed.
pub fn write_reply_parts<K: Sink>(
    sink: &mut K,
    reply: &Reply,
    body: [&[u8]; 3],
) -> Result<(), Failed>
    requires code { is_reply_code reply.now.code ≡ true }
    requires body { FitsReply reply.now (parts_bytes body) }
    ensures whole { OnOk result (Appends (K.held sink.old) (K.held sink.new) (reply_bytes reply.now (parts_bytes body.entry))) }
    ensures flushed { OnOk result (K.flushed sink.new ≡ K.held sink.new) }
    ensures stays { OnErr result (K.flushed sink.new ≡ K.flushed sink.old) }
    ensures part { OnErr result (AppendsPrefix (K.held sink.old) (K.held sink.new) (reply_bytes reply.now (parts_bytes body.entry))) }
    ensures faults { CountsFault (is_err result) (K.faults sink.old) (K.faults sink.new) }
    ensures never_falls { K.faults sink.old ≤ K.faults sink.new }
{
    let mut text = ArrayVec::new();
    push_head(&mut text, reply);
    let [first, second, third] = body;
    write_all_parts(sink, [text.as_slice(), first, second, third])?;
    sink.flush()
}

/// Writes the reply that asks for the body that the client holds back, and flushes.
///
/// # Errors
///
/// `Failed` only where the sink's count of faults rose; a prefix may have been written, and none was flushed.
pub fn write_continue<K: Sink>(sink: &mut K) -> Result<(), Failed>
    ensures whole { OnOk result (Appends (K.held sink.old) (K.held sink.new) continue_bytes) }
    ensures flushed { OnOk result (K.flushed sink.new ≡ K.held sink.new) }
    ensures stays { OnErr result (K.flushed sink.new ≡ K.flushed sink.old) }
    ensures part { OnErr result (AppendsPrefix (K.held sink.old) (K.held sink.new) continue_bytes) }
    ensures faults { CountsFault (is_err result) (K.faults sink.old) (K.faults sink.new) }
    ensures never_falls { K.faults sink.old ≤ K.faults sink.new }
{
    write_whole(sink, b"HTTP/1.1 100 Continue\r\n\r\n")?;
    sink.flush()
}

// Appends the head of the reply.
fn push_head(text: &mut ArrayVec<u8, ROOM>, reply: &Reply)
    requires { array_vec_len text.old ≡ 0 }
    ensures { text.new.items ≡ reply_head reply.now }
{
    push_status(text, reply.code);
    push(text, allow_line(reply.allow));
    push(text, type_line(reply.kind));
    push_length(text, reply.code, reply.length);
    push_state(text, reply.number);
    push(text, close_line(reply.close));
    push(text, b"\r\n");
}

// Appends the status line.
fn push_status(text: &mut ArrayVec<u8, ROOM>, code: u16)
    requires { array_vec_len text.old ≤ 800 }
    ensures line { text.new.items ≡ text.old.items ++ status_line code }
    ensures short { array_vec_len text.new ≤ array_vec_len text.old + 64 }
{
    push(text, b"HTTP/1.1 ");
    push_number(text, u64::from(code));
    push(text, b" ");
    push(text, reason(code));
    push(text, b"\r\n");
}

// Appends the line of the body's length, which a reply with code 204 doesn't have.
fn push_length(text: &mut ArrayVec<u8, ROOM>, code: u16, length: u64)
    requires { array_vec_len text.old ≤ 800 }
    ensures line { text.new.items ≡ text.old.items ++ length_line code length }
    ensures short { array_vec_len text.new ≤ array_vec_len text.old + 38 }
{
    if code != 204 {
        push_line(text, b"Content-Length: ", length);
    }
}

// Appends the line of the state that the reply is of.
fn push_state(text: &mut ArrayVec<u8, ROOM>, number: Number)
    requires { array_vec_len text.old ≤ 800 }
    ensures line { text.new.items ≡ text.old.items ++ number_line number }
    ensures short { array_vec_len text.new ≤ array_vec_len text.old + 37 }
{
    match number {
        Number::Absent => {}
        Number::Prefix(k) => push_line(text, b"Survey-Prefix: ", u64::from(k)),
        Number::Edits(e) => push_line(text, b"Survey-Edits: ", u64::from(e)),
    }
}

// Appends a line of a name and a number.
fn push_line(text: &mut ArrayVec<u8, ROOM>, name: &[u8], number: u64)
    requires room { array_vec_len text.old ≤ 800 }
    requires name { length name.now ≤ 16 }
    ensures line { text.new.items ≡ text.old.items ++ line (name.now ++ decimal number) }
    ensures short { array_vec_len text.new ≤ array_vec_len text.old + length name.now + 22 }
{
    push(text, name);
    push_number(text, number);
    push(text, b"\r\n");
}

// The line that says that the connection is closed after the reply.
fn close_line(close: bool) -> &'static [u8]
    ensures line { result.now ≡ close_line close }
    ensures short { length result.now ≤ 19 }
{
    if close { b"Connection: close\r\n" } else { b"" }
}

// The line of the methods that are allowed.
fn allow_line(allow: Allow) -> &'static [u8]
    ensures line { result.now ≡ allow_line allow }
    ensures short { length result.now ≤ 32 }
{
    match allow {
        Allow::Absent => b"",
        Allow::Control => b"Allow: POST\r\n",
        Allow::Leaf => b"Allow: GET, HEAD, PUT, DELETE\r\n",
        Allow::Other => b"Allow: GET, HEAD\r\n",
    }
}

// The line of what the body is.
fn type_line(kind: Kind) -> &'static [u8]
    ensures line { result.now ≡ type_line kind }
    ensures short { length result.now ≤ 32 }
{
    match kind {
        Kind::Absent => b"",
        Kind::Text => b"Content-Type: text/plain\r\n",
        Kind::Fits => b"Content-Type: application/fits\r\n",
    }
}

// The reason phrase of a code (RFC 9110, section 15; RFC 6585; RFC 4918).
fn reason(code: u16) -> &'static [u8]
    ensures reason { result.now ≡ reason_of code }
    ensures short { length result.now ≤ 31 }
{
    match code {
        200 => b"OK",
        201 => b"Created",
        204 => b"No Content",
        400 => b"Bad Request",
        404 => b"Not Found",
        405 => b"Method Not Allowed",
        411 => b"Length Required",
        412 => b"Precondition Failed",
        413 => b"Content Too Large",
        422 => b"Unprocessable Content",
        431 => b"Request Header Fields Too Large",
        501 => b"Not Implemented",
        503 => b"Service Unavailable",
        505 => b"HTTP Version Not Supported",
        507 => b"Insufficient Storage",
        _ => b"",
    }
}
