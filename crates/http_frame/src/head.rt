//! Which heads are accepted, and what they ask for.
ghost use Rattle.std.specs.Prelude.{◌≡◌, ◌-◌, ◌^◌, ◌≤◌, min, IfOk, IfErr, OnOk, IfSome, IfNone, Some, None, true, false, is_some, length, codes};
ghost use Rattle.std.specs.List.{list_any};
ghost use Rattle.httparse.specs.Grammar.{RequestHead};
ghost use Rattle.httparse.specs.Spans.{span_bytes, IsRequestWithin, IsWithin};
ghost use Rattle.http_frame.specs.Fields.{values, has_field, has_item, same_text};
ghost use Rattle.http_frame.specs.Refusal.{names_other_version, ends_in_other_version, first_line, framing_refusal, has_wrong_hosts, has_wrong_length, is_known_version, is_put, is_version, IsOneHead, IsParsed, IsReadAs, IsRefused};
ghost use Rattle.http_frame.specs.Request.{asked_of, asks_to_close, body_length, expects_continue, is_star, tags_of};

use crate::fields::{Fields, MAX_FIELDS};
use crate::request::{Method, Request, Tags};
use crate::text::{digits, has_item, is_star, same_text};
use httparse::Status;
use httparse::spans::{EMPTY_HEADER_SPAN, HeaderSpan, RequestSpans, Span, parse_request};
use memchr::memmem;

/// What a head asks for, and where its target is in it.
#[derive(Drop)]
pub(crate) struct Head {
    pub request: Request,
    pub target: Span,
}

/// What the text of a whole head asks for, where a body may have `room` bytes; else the code that refuses it.
pub(crate) fn read_head(text: &[u8], room: usize) -> Result<Head, u16>
    requires { room ≤ 2 ^ 30 }
    ensures read { IfOk result (λ found. IsReadAs room text.now found.request (span_bytes text.now found.target)) }
    ensures within { IfOk result (λ found. IsWithin (length text.now) found.target) }
    ensures length { IfOk result (λ found. found.request.length ≤ room) }
    ensures refused { IfErr result (λ code. IsRefused room text.now code) }
{
    if names_other_version(text) {
        return Err(505);
    }
    let mut spans = [EMPTY_HEADER_SPAN; MAX_FIELDS];
    let Some(parsed) = parse_head(text, &mut spans) else {
        return Err(400);
    };
    let fields = Fields::new(text, &spans[..parsed.headers]);
    let method = Method::from_name(parsed.method.of(text));
    let length = framed_length(method, parsed.version, &fields, room)?;
    Ok(Head {
        request: asked(method, parsed.version, &fields, length),
        target: parsed.path,
    })
}

// Where the parts of the head are, if the text is exactly one head.
fn parse_head(text: &[u8], spans: &mut [HeaderSpan]) -> Option<RequestSpans>
    requires { length spans.old ≡ 64 }
    ensures parsed { IfSome result (λ parsed. IsParsed text.now spans.new parsed) }
    ensures within { IfSome result (λ parsed. IsRequestWithin text.now spans.new parsed) }
    ensures room { length spans.new ≡ 64 }
    ensures none { IfNone result ((head : RequestHead) → ¬ IsOneHead text.now head) }
{
    match parse_request(text, spans) {
        Ok(Status::Complete(parsed)) => {
            if parsed.len == text.len() {
                Some(parsed)
            } else {
                None
            }
        }
        _ => None,
    }
}

// The length of the body of a head with these parts; else the code that refuses it.
fn framed_length(method: Method, version: u8, fields: &Fields<'_>, room: usize) -> Result<u64, u16>
    requires { room ≤ 2 ^ 30 }
    ensures refused { IfErr result (λ code. framing_refusal room method version fields.now ≡ Some code) }
    ensures framed { OnOk result (framing_refusal room method version fields.now ≡ None) }
    ensures length { IfOk result (λ length. length ≡ body_length fields.now) }
    ensures fits { IfOk result (λ length. length ≤ room) }
{
    if has_wrong_hosts(version, fields) {
        return Err(400);
    }
    let stated = stated_length(fields)?;
    if fields.has(b"transfer-encoding") {
        return Err(501);
    }
    if is_put(method) && stated.is_none() {
        return Err(411);
    }
    let length = stated.unwrap_or(0);
    if length > room as u64 {
        return Err(413);
    }
    Ok(length)
}

// Whether there is no Host field in version 1.1, or more than one.
fn has_wrong_hosts(version: u8, fields: &Fields<'_>) -> bool
    ensures { result ≡ has_wrong_hosts version fields.now }
{
    let hosts = fields.values(b"host").len();
    hosts > 1 || (version == 1 && hosts == 0)
}

fn is_put(method: Method) -> bool
    ensures { result ≡ is_put method }
{
    matches!(method, Method::Put)
}

// The length that the Content-Length field states, at most `u64::MAX`; 400 where two do, or one that isn't digits.
fn stated_length(fields: &Fields<'_>) -> Result<Option<u64>, u16>
    ensures wrong { IfErr result (λ code. (code ≡ 400) × (has_wrong_length fields.now ≡ true)) }
    ensures right { OnOk result (has_wrong_length fields.now ≡ false) }
    ensures stated { IfOk result (λ stated. is_some stated ≡ has_field (codes "content-length") fields.now) }
    ensures number { IfOk result (λ stated. IfSome stated (λ n. n ≡ min (body_length fields.now) (2 ^ 64 - 1))) }
    ensures none { IfOk result (λ stated. IfNone stated (body_length fields.now ≡ 0)) }
{
    match fields.values(b"content-length").as_slice() {
        [] => Ok(None),
        [value] => match digits(value) {
            Some(length) => Ok(Some(length)),
            None => Err(400),
        },
        _ => Err(400),
    }
}

// What a head with these parts asks for.
fn asked(method: Method, version: u8, fields: &Fields<'_>, length: u64) -> Request
    requires { length ≡ body_length fields.now }
    ensures { result ≡ asked_of method version fields.now }
{
    Request {
        method,
        length,
        close: closes(version, fields),
        expects: expects(version, fields, length),
        if_match: tags(fields),
        if_none_any: is_none_any(fields),
    }
}

// Whether the connection must be closed after the reply.
fn closes(version: u8, fields: &Fields<'_>) -> bool
    ensures { result ≡ asks_to_close version fields.now }
{
    version == 0 || is_closing(fields)
}

// Whether the client waits for `100 Continue`.
fn expects(version: u8, fields: &Fields<'_>, length: u64) -> bool
    requires { length ≡ body_length fields.now }
    ensures { result ≡ expects_continue version fields.now }
{
    version == 1 && length > 0 && is_waiting(fields)
}

// Whether an If-None-Match value is `*`.
fn is_none_any(fields: &Fields<'_>) -> bool
    ensures { result ≡ list_any is_star (values (codes "if-none-match") fields.now) }
{
    fields
        .values(b"if-none-match")
        .iter()
        .any(|value| is_star(value))
}

// Whether a Connection field asks to close.
fn is_closing(fields: &Fields<'_>) -> bool
    ensures { result ≡ list_any (has_item (codes "close")) (values (codes "connection") fields.now) }
{
    fields
        .values(b"connection")
        .iter()
        .any(|value| has_item(value, b"close"))
}

// Whether an Expect field waits for `100 Continue`.
fn is_waiting(fields: &Fields<'_>) -> bool
    ensures { result ≡ list_any (λ value. same_text value (codes "100-continue")) (values (codes "expect") fields.now) }
{
    fields
        .values(b"expect")
        .iter()
        .any(|value| same_text(value, b"100-continue"))
}

// Which tags the If-Match fields list.
fn tags(fields: &Fields<'_>) -> Tags
    ensures { result ≡ tags_of (values (codes "if-match") fields.now) }
{
    let values = fields.values(b"if-match");
    if values.is_empty() {
        Tags::Absent
    } else if values.iter().all(|value| is_star(value)) {
        Tags::Any
    } else {
        Tags::Listed
    }
}

// Whether the first line ends in a version of HTTP that is neither 1.0 nor 1.1.
fn names_other_version(text: &[u8]) -> bool
    ensures { result ≡ names_other_version text.now }
{
    ends_in_other_version(first_line(text))
}

// What is before the first CR LF, or the whole text if there is none.
fn first_line(text: &[u8]) -> &[u8]
    ensures { result.now ≡ first_line text.now }
{
    match memmem::find(text, b"\r\n") {
        Some(end) => &text[..end],
        None => text,
    }
}

// Whether the line ends in a version of HTTP that is neither 1.0 nor 1.1.
fn ends_in_other_version(line: &[u8]) -> bool
    ensures { result ≡ ends_in_other_version line.now }
{
    let end = &line[line.len().saturating_sub(9)..];
    is_version(end) && !is_known_version(end)
}

// Whether the text is a space and a version of HTTP.
fn is_version(text: &[u8]) -> bool
    ensures { result ≡ is_version text.now }
{
    text.len() == 9
        && text.starts_with(b" HTTP/")
        && text[6].is_ascii_digit()
        && text[7] == b'.'
        && text[8].is_ascii_digit()
}

// Whether the text, a space and a version of HTTP, names 1.0 or 1.1.
fn is_known_version(text: &[u8]) -> bool
    requires { length text.now ≡ 9 }
    ensures { result ≡ is_known_version text.now }
{
    text[6] == b'1' && (text[8] == b'0' || text[8] == b'1')
}
