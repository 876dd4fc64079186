//! Heads, bodies and replies against the standards' own examples, and a source or a sink that fails.
ghost use Rattle.std.specs.Prelude.{◌≡◌, ◌<◌};
ghost use Rattle.http_frame.specs.Frame.{AwaitsHead, AwaitsBody};
ghost use Rattle.http_frame.specs.Reply.{is_reply_code};

use http_frame::*;
use memory_link::{MemSink, MemSource};
use std::alloc::{AllocError, Global};
use std::str;
use std::test::Fail;
use survey_link::Failed;

// The bytes of a row as text, which an assertion shows.
fn shown(bytes: &[u8]) -> &str {
    match str::from_utf8(bytes) {
        Ok(text) => text,
        Err(_) => "bytes that are no text",
    }
}

fn source(alloc: Global, bytes: &[u8], piece: usize, fails: &[u64]) -> Result<MemSource, AllocError>
    requires { 0 < piece }
{
    let bytes = Vec::from_slice(alloc, bytes)?;
    Ok(MemSource::new(bytes, piece, Vec::from_slice(alloc, fails)?))
}

// The answer to the first head of the bytes, where bodies have at most 100 bytes.
fn first_head(
    alloc: Global,
    bytes: &[u8],
    piece: usize,
) -> Result<Result<Request, FrameStop>, AllocError>
    requires { 0 < piece }
{
    let mut frame = Frame::new(alloc, 100)?;
    let mut src = source(alloc, bytes, piece, &[])?;
    Ok(frame.head(&mut src))
}

// Whether the first head of the bytes is answered by that.
fn stops(alloc: Global, bytes: &[u8], piece: usize, stop: FrameStop) -> Result<bool, AllocError>
    requires { 0 < piece }
{
    match first_head(alloc, bytes, piece)? {
        Ok(_) => Ok(false),
        Err(found) => Ok(found == stop),
    }
}

// Whether the first head of the bytes asks for that.
fn asks(alloc: Global, bytes: &[u8], piece: usize, request: &Request) -> Result<bool, AllocError>
    requires { 0 < piece }
{
    match first_head(alloc, bytes, piece)? {
        Ok(found) => Ok(found == *request),
        Err(_) => Ok(false),
    }
}

static STOPS: [(&[u8], FrameStop); 27] = [
    (b"", FrameStop::End),
    (b"GET /prop", FrameStop::Cut),
    (b"GET / HTTP/1.1\r\nHost: a\r\n\r", FrameStop::Cut),
    (b"GET / HTTP/2.0\r\n\r\n", FrameStop::Refuse(505)),
    (b"GET / HTTP/1.2\r\nHost: a\r\n\r\n", FrameStop::Refuse(505)),
    (b"what is this HTTP/0.9\r\n\r\n", FrameStop::Refuse(505)),
    (
        b"what is this\nGET / HTTP/3.1\r\n\r\n",
        FrameStop::Refuse(505),
    ),
    (
        b"GET / HTTP/11.1\r\nHost: a\r\n\r\n",
        FrameStop::Refuse(400),
    ),
    (b"GET /\r\nHost: a\r\n\r\n", FrameStop::Refuse(400)),
    (
        b"GET / HTTP/1.1\r\nHost: a\n\nX: HTTP/1.1\r\n\r\n",
        FrameStop::Refuse(400),
    ),
    (b"GET / HTTP/1.1\r\n\r\n", FrameStop::Refuse(400)),
    (
        b"GET / HTTP/1.1\r\nHost: a\r\nhOST: a\r\n\r\n",
        FrameStop::Refuse(400),
    ),
    (
        b"GET / HTTP/1.0\r\nHost: a\r\nHost: b\r\n\r\n",
        FrameStop::Refuse(400),
    ),
    (
        b"PUT / HTTP/1.0\r\nContent-Length: 5\r\nContent-Length: 5\r\n\r\nhello",
        FrameStop::Refuse(400),
    ),
    (
        b"PUT / HTTP/1.0\r\nContent-Length: +5\r\nTransfer-Encoding: chunked\r\n\r\nhello",
        FrameStop::Refuse(400),
    ),
    (
        b"PUT / HTTP/1.0\r\nContent-Length:\r\n\r\n",
        FrameStop::Refuse(400),
    ),
    (
        b"PUT / HTTP/1.0\r\nContent-Length: 5, 5\r\n\r\nhello",
        FrameStop::Refuse(400),
    ),
    (
        b"PUT / HTTP/1.0\r\nTransfer-Encoding: chunked\r\n\r\n",
        FrameStop::Refuse(501),
    ),
    (
        b"PUT / HTTP/1.0\r\nContent-Length: 101\r\nTransfer-Encoding: a\r\n\r\n",
        FrameStop::Refuse(501),
    ),
    (b"PUT / HTTP/1.0\r\n\r\n", FrameStop::Refuse(411)),
    (b"PUT / HTTP/1.1\r\nHost: a\r\n\r\n", FrameStop::Refuse(411)),
    (
        b"PUT / HTTP/1.0\r\nContent-Length: 101\r\n\r\n",
        FrameStop::Refuse(413),
    ),
    (
        b"GET / HTTP/1.0\r\nContent-Length: 99999999999\r\n\r\n",
        FrameStop::Refuse(413),
    ),
    (
        b"GET / HTTP/1.0\r\nContent-Length: 99999999999999999999999\r\n\r\n",
        FrameStop::Refuse(413),
    ),
    // Blank lines before a request (RFC 9112, section 2.2), and blanks before a colon (section 5.1).
    (b"\r\n\r\nGET / HTTP/1.0\r\n\r\n", FrameStop::Refuse(400)),
    (b"\r\nGET / HTTP/2.0\r\n\r\n", FrameStop::Refuse(400)),
    (
        b"PUT / HTTP/1.0\r\nContent-Length : 5\r\n\r\nhello",
        FrameStop::Refuse(400),
    ),
];

#[test]
fn refuses_what_no_server_may_read(rt: HostRuntime) -> Result<(), Fail> {
    for (bytes, stop) in &STOPS {
        let text = shown(*bytes);
        assert!(rt; stops(rt.alloc(), *bytes, 7, *stop)?, "{text}");
    }
    Ok(())
}

const GET: Request = Request {
    method: Method::Get,
    length: 0,
    close: false,
    expects: false,
    if_match: Tags::Absent,
    if_none_any: false,
};

const CLOSE: Request = Request { close: true, ..GET };

static REQUESTS: [(&[u8], Request); 18] = [
    (b"GET / HTTP/1.1\r\nHost:\r\n\r\n", GET),
    (b"GET / HTTP/1.0\r\n\r\n", CLOSE),
    (
        b"GET / HTTP/1.1\r\nHost: a\r\nConnection: keep-alive\r\n\r\n",
        GET,
    ),
    (
        b"GET / HTTP/1.1\r\nHost: a\r\nconnection:  keep-alive ,\tClose \r\n\r\n",
        CLOSE,
    ),
    (
        b"GET / HTTP/1.1\r\nHost: a\r\nConnection: closed\r\nConnection: close\r\n\r\n",
        CLOSE,
    ),
    (
        b"get / HTTP/1.1\r\nHost: a\r\n\r\n",
        Request {
            method: Method::Other,
            ..GET
        },
    ),
    (
        b"HEAD / HTTP/1.1\r\nHost: a\r\n\r\n",
        Request {
            method: Method::Head,
            ..GET
        },
    ),
    (
        b"DELETE / HTTP/1.1\r\nHost: a\r\nIf-Match: *\r\n\r\n",
        Request {
            method: Method::Delete,
            if_match: Tags::Any,
            ..GET
        },
    ),
    (
        b"PUT / HTTP/1.1\r\nHost: a\r\nContent-Length: 0\r\nIf-None-Match: *\r\n\r\n",
        Request {
            method: Method::Put,
            if_none_any: true,
            ..GET
        },
    ),
    (
        b"POST / HTTP/1.1\r\nHost: a\r\nContent-Length: 007\r\n\r\n",
        Request {
            method: Method::Post,
            length: 7,
            ..GET
        },
    ),
    (
        b"GET / HTTP/1.1\r\nHost: a\r\nIf-Match: \"x\"\r\n\r\n",
        Request {
            if_match: Tags::Listed,
            ..GET
        },
    ),
    (
        b"GET / HTTP/1.1\r\nHost: a\r\nIf-Match: *\r\nIf-Match: \"x\"\r\n\r\n",
        Request {
            if_match: Tags::Listed,
            ..GET
        },
    ),
    (
        b"GET / HTTP/1.1\r\nHost: a\r\nIf-None-Match: \"x\"\r\n\r\n",
        GET,
    ),
    (
        b"GET / HTTP/1.1\r\nHost: a\r\nContent-Length: 5\r\nExpect: 100-Continue\r\n\r\n",
        Request {
            length: 5,
            expects: true,
            ..GET
        },
    ),
    (
        b"GET / HTTP/1.1\r\nHost: a\r\nContent-Length: 0\r\nExpect: 100-continue\r\n\r\n",
        GET,
    ),
    (
        b"GET / HTTP/1.0\r\nContent-Length: 5\r\nExpect: 100-continue\r\n\r\n",
        Request { length: 5, ..CLOSE },
    ),
    (
        b"PUT / HTTP/1.1\r\nHost: a\r\nContent-Length: 100\r\n\r\n",
        Request {
            method: Method::Put,
            length: 100,
            ..GET
        },
    ),
    (b"\r\nGET / HTTP/1.0\r\n\r\n", CLOSE),
];

#[test]
fn reads_what_a_head_asks_for(rt: HostRuntime) -> Result<(), Fail> {
    for (bytes, request) in &REQUESTS {
        let text = shown(*bytes);
        assert!(rt; asks(rt.alloc(), *bytes, 1000, request)?, "{text}");
    }
    Ok(())
}

static PATHS: [(&[u8], Option<&[u8]>); 15] = [
    (b"/", Some(b"")),
    (b"/properties", Some(b"properties")),
    (b"/%4Doc.fits?x=1", Some(b"Moc.fits")),
    (b"http://a/Moc.fits", Some(b"Moc.fits")),
    (b"HtTp://a:80/Moc.fits?", Some(b"Moc.fits")),
    (b"http://a?x=/Moc.fits", Some(b"")),
    (b"http://", Some(b"")),
    (b"/a%2Fb%3Fc", Some(b"a/b?c")),
    (b"/%zz%4", Some(b"%zz%4")),
    (b"//Moc.fits", Some(b"/Moc.fits")),
    (b"/Moc.fits#x", Some(b"Moc.fits#x")),
    (b"/%FF\xc3\xa9", Some(b"\xff\xc3\xa9")),
    (b"*", None),
    (b"?/Moc.fits", None),
    (b"https://a/Moc.fits", None),
];

// Whether this is the path of a request with that target.
fn has_path(alloc: Global, target: &[u8], path: Option<&[u8]>) -> Result<bool, AllocError> {
    let mut bytes = Vec::from_slice(alloc, b"GET ")?;
    bytes.extend_from_slice(target)?;
    bytes.extend_from_slice(b" HTTP/1.0\r\n\r\n")?;
    let mut frame = Frame::new(alloc, 100)?;
    let mut src = source(alloc, bytes.as_slice(), 5, &[])?;
    if frame.head(&mut src).is_err() {
        return Ok(false);
    }
    Ok(match frame.path() {
        Some(found) => path.is_some_and(|path| path == found),
        None => path.is_none(),
    })
}

#[test]
fn decodes_the_path_of_a_target(rt: HostRuntime) -> Result<(), Fail> {
    for (target, path) in &PATHS {
        let text = shown(*target);
        assert!(rt; has_path(rt.alloc(), *target, *path)?, "{text}");
    }
    Ok(())
}

// Each row: the head's start, what is repeated in it how often, its end, and the code of its refusal, 0 where it is read.
static LIMITS: [(&[u8], &[u8], usize, &[u8], u16); 4] = [
    (b"GET / HTTP/1.0\r\nX: ", b"x", 8169, b"\r\n\r\n", 0),
    (b"GET / HTTP/1.0\r\nX: ", b"x", 8170, b"\r\n\r\n", 431),
    (b"GET / HTTP/1.0\r\n", b"X: y\r\n", 64, b"\r\n", 0),
    (b"GET / HTTP/1.0\r\n", b"X: y\r\n", 65, b"\r\n", 400),
];

fn repeated(
    alloc: Global,
    start: &[u8],
    piece: &[u8],
    count: usize,
    end: &[u8],
) -> Result<Vec<u8>, AllocError> {
    let mut bytes = Vec::from_slice(alloc, start)?;
    for _ in 0..count {
        bytes.extend_from_slice(piece)?;
    }
    bytes.extend_from_slice(end)?;
    Ok(bytes)
}

// Whether the head is refused by that code, or read where it is 0.
fn answers(alloc: Global, head: &[u8], piece: usize, code: u16) -> Result<bool, AllocError>
    requires { 0 < piece }
{
    if code == 0 {
        asks(alloc, head, piece, &CLOSE)
    } else {
        stops(alloc, head, piece, FrameStop::Refuse(code))
    }
}

#[test]
fn reads_up_to_the_limits(rt: HostRuntime) -> Result<(), Fail> {
    let alloc = rt.alloc();
    for (start, piece, count, end, code) in &LIMITS {
        let head = repeated(alloc, *start, *piece, *count, *end)?;
        assert!(rt; answers(alloc, head.as_slice(), 1000, *code)?, "{count}");
        assert!(rt; answers(alloc, head.as_slice(), 1, *code)?, "{count}");
    }
    Ok(())
}

const PIPELINE: &[u8] =
    b"PUT /a HTTP/1.1\r\nHost: a\r\nContent-Length: 5\r\n\r\nhelloPOST /b HTTP/1.1\r\nHost: a\r\n\r\nGET /c HTTP/1.0\r\n\r\n";

// Whether the next head of the frame has that method and that path.
fn has_head(frame: &mut Frame, src: &mut MemSource, method: Method, path: &[u8]) -> bool
    requires { AwaitsHead frame.old.turn }
    ensures { AwaitsBody frame.new.turn }
{
    match frame.head(src) {
        Ok(request) => return is_at(frame, path) && request.method == method,
        Err(_) => return false,
    }
}

fn is_at(frame: &Frame, path: &[u8]) -> bool {
    match frame.path() {
        Some(found) => found == path,
        None => false,
    }
}

// Whether its body is this one.
fn has_body(frame: &mut Frame, src: &mut MemSource, body: &[u8]) -> bool
    requires { AwaitsBody frame.old.turn }
    ensures { AwaitsHead frame.new.turn }
{
    match frame.body(src) {
        Ok(found) => return found == body,
        Err(_) => return false,
    }
}

// Whether the next request of the frame has that method, that path and that body.
fn gives(frame: &mut Frame, src: &mut MemSource, method: Method, path: &[u8], body: &[u8]) -> bool
    requires { AwaitsHead frame.old.turn }
    ensures { AwaitsHead frame.new.turn }
{
    let head = has_head(frame, src, method, path);
    let body = has_body(frame, src, body);
    head && body
}

// Whether so many of the three requests are given, and that is the answer after them, where the calls with these numbers fail.
fn pipes(
    alloc: Global,
    piece: usize,
    fails: &[u64],
    count: u32,
    end: FrameStop,
) -> Result<bool, AllocError>
    requires { 0 < piece }
{
    let mut frame = Frame::new(alloc, 5)?;
    let mut src = source(alloc, PIPELINE, piece, fails)?;
    let first = gives(&mut frame, &mut src, Method::Put, b"a", b"hello");
    let second = gives(&mut frame, &mut src, Method::Post, b"b", b"");
    let third = gives(&mut frame, &mut src, Method::Get, b"c", b"");
    let given = first == (count > 0) && second == (count > 1) && third == (count > 2);
    match frame.head(&mut src) {
        Ok(_) => return Ok(false),
        Err(stop) => return Ok(given && stop == end),
    }
}

// How many of the three requests are given where the call with that number fails: the first has 52 bytes, the second 29, the
// third 19.
fn given_before(call: u64) -> u32 {
    if call > 99 {
        3
    } else if call > 80 {
        2
    } else if call > 51 {
        1
    } else {
        0
    }
}

#[test]
fn reads_a_pipeline_in_any_pieces(rt: HostRuntime) -> Result<(), Fail> {
    let alloc = rt.alloc();
    for piece in [1, 2, 3, 7, 1000] {
        assert!(rt; pipes(alloc, piece, &[], 3, FrameStop::End)?, "{piece}");
    }
    for call in 0..101 {
        let went = pipes(alloc, 1, &[call], given_before(call), FrameStop::ReadFault)?;
        assert!(rt; went, "{call}");
    }
    Ok(())
}

// Whether the first request of the bytes has that body; `None`: whether it is cut.
fn first_body(
    alloc: Global,
    bytes: &[u8],
    piece: usize,
    body: Option<&[u8]>,
) -> Result<bool, AllocError>
    requires { 0 < piece }
{
    let mut frame = Frame::new(alloc, 600_000)?;
    let mut src = source(alloc, bytes, piece, &[])?;
    if frame.head(&mut src).is_err() {
        return Ok(false);
    }
    match frame.body(&mut src) {
        Ok(found) => return Ok(body == Some(found)),
        Err(stop) => return Ok(body.is_none() && stop == FrameStop::Cut),
    }
}

// The file of a tile of 512 by 512 numbers of 16 bits has 529,920 bytes.
#[test]
fn reads_bodies_as_large_as_a_tile(rt: HostRuntime) -> Result<(), Fail> {
    let alloc = rt.alloc();
    let head = b"PUT /a HTTP/1.0\r\nContent-Length: 529920\r\n\r\n";
    let body = repeated(alloc, b"", b"x", 529_920, b"")?;
    let whole = repeated(alloc, head, b"x", 529_920, b"GET")?;
    let short = repeated(alloc, head, b"x", 529_919, b"")?;
    for piece in [1, 8191, 1_000_000] {
        let reads = first_body(alloc, whole.as_slice(), piece, Some(body.as_slice()))?;
        assert!(rt; reads, "{piece}");
        assert!(rt;
            first_body(alloc, short.as_slice(), piece, None)?,
            "{piece}"
        );
    }
    Ok(())
}

// Whether the next connection, of these bytes, gives `PUT /a` with that body.
fn gives_first(
    frame: &mut Frame,
    alloc: Global,
    bytes: &[u8],
    body: &[u8],
) -> Result<bool, AllocError>
    requires { AwaitsHead frame.old.turn }
{
    let mut src = source(alloc, bytes, 99, &[])?;
    Ok(gives(frame, &mut src, Method::Put, b"a", body))
}

const CUT: &[u8] = b"PUT /a HTTP/1.0\r\nContent-Length: 5\r\n\r\nhell";

#[test]
fn serves_one_connection_after_another(rt: HostRuntime) -> Result<(), Fail> {
    let alloc = rt.alloc();
    let mut frame = Frame::new(alloc, 5)?;
    assert!(rt; !gives_first(&mut frame, alloc, CUT, b"hell")?);
    frame.clear();
    assert!(rt; frame.path().is_none());
    assert!(rt; gives_first(&mut frame, alloc, PIPELINE, b"hello")?);
    Ok(())
}

// Whether replies have the code.
fn is_known(code: u16) -> bool
    ensures { result ≡ is_reply_code code }
{
    [
        200, 201, 204, 400, 404, 405, 411, 412, 413, 422, 431, 501, 503, 505, 507,
    ]
    .contains(&code)
}

// Whether a reply with a known code and a body that fits it is written as these bytes, also by parts.
fn writes(alloc: Global, reply: &Reply, body: &[u8], bytes: &[u8]) -> Result<bool, AllocError> {
    if !is_known(reply.code) {
        return Ok(false);
    }
    if !body.is_empty() && body.len() as u64 != reply.length {
        return Ok(false);
    }
    let mut sink = MemSink::new(alloc, 1000, Vec::new(alloc))?;
    let mut parts = MemSink::new(alloc, 1000, Vec::new(alloc))?;
    let all = write_reply(&mut sink, reply, body).is_ok()
        && write_reply_parts(&mut parts, reply, [&[], body, &[]]).is_ok();
    Ok(all && sink.bytes() == bytes && parts.bytes() == bytes)
}

const PLAIN: Reply = Reply {
    code: 200,
    allow: Allow::Absent,
    kind: Kind::Absent,
    number: Number::Absent,
    length: 0,
    close: false,
};

const TEXT: Reply = Reply {
    kind: Kind::Text,
    ..PLAIN
};

static REPLIES: [(Reply, &[u8], &[u8]); 21] = [
    (
        Reply {
            kind: Kind::Fits,
            number: Number::Prefix(7),
            length: 3,
            ..PLAIN
        },
        b"abc",
        b"HTTP/1.1 200 OK\r\nContent-Type: application/fits\r\nContent-Length: 3\r\nSurvey-Prefix: 7\r\n\r\nabc",
    ),
    (
        Reply {
            kind: Kind::Fits,
            number: Number::Prefix(7),
            length: 18446744073709551615,
            ..PLAIN
        },
        b"",
        b"HTTP/1.1 200 OK\r\nContent-Type: application/fits\r\nContent-Length: 18446744073709551615\r\nSurvey-Prefix: 7\r\n\r\n",
    ),
    (
        Reply {
            code: 404,
            number: Number::Prefix(0),
            length: 10,
            ..TEXT
        },
        b"not found\n",
        b"HTTP/1.1 404 Not Found\r\nContent-Type: text/plain\r\nContent-Length: 10\r\nSurvey-Prefix: 0\r\n\r\nnot found\n",
    ),
    (
        Reply {
            number: Number::Prefix(1),
            length: 12,
            ..TEXT
        },
        b"published 1\n",
        b"HTTP/1.1 200 OK\r\nContent-Type: text/plain\r\nContent-Length: 12\r\nSurvey-Prefix: 1\r\n\r\npublished 1\n",
    ),
    (
        Reply {
            length: 9,
            close: true,
            ..TEXT
        },
        b"released\n",
        b"HTTP/1.1 200 OK\r\nContent-Type: text/plain\r\nContent-Length: 9\r\nConnection: close\r\n\r\nreleased\n",
    ),
    (
        Reply {
            code: 201,
            number: Number::Edits(1),
            ..PLAIN
        },
        b"",
        b"HTTP/1.1 201 Created\r\nContent-Length: 0\r\nSurvey-Edits: 1\r\n\r\n",
    ),
    (
        Reply {
            code: 204,
            number: Number::Edits(4294967295),
            ..PLAIN
        },
        b"",
        b"HTTP/1.1 204 No Content\r\nSurvey-Edits: 4294967295\r\n\r\n",
    ),
    (
        Reply {
            code: 412,
            number: Number::Edits(2),
            length: 20,
            ..TEXT
        },
        b"precondition failed\n",
        b"HTTP/1.1 412 Precondition Failed\r\nContent-Type: text/plain\r\nContent-Length: 20\r\nSurvey-Edits: 2\r\n\r\nprecondition failed\n",
    ),
    (
        Reply {
            code: 507,
            number: Number::Edits(65536),
            length: 8,
            ..TEXT
        },
        b"limit 3\n",
        b"HTTP/1.1 507 Insufficient Storage\r\nContent-Type: text/plain\r\nContent-Length: 8\r\nSurvey-Edits: 65536\r\n\r\nlimit 3\n",
    ),
    (
        Reply {
            code: 422,
            length: 27,
            ..TEXT
        },
        b"tile refused 9 truncated 1\n",
        b"HTTP/1.1 422 Unprocessable Content\r\nContent-Type: text/plain\r\nContent-Length: 27\r\n\r\ntile refused 9 truncated 1\n",
    ),
    (
        Reply {
            code: 405,
            allow: Allow::Control,
            length: 19,
            ..TEXT
        },
        b"method not allowed\n",
        b"HTTP/1.1 405 Method Not Allowed\r\nAllow: POST\r\nContent-Type: text/plain\r\nContent-Length: 19\r\n\r\nmethod not allowed\n",
    ),
    (
        Reply {
            code: 405,
            allow: Allow::Leaf,
            length: 19,
            ..TEXT
        },
        b"method not allowed\n",
        b"HTTP/1.1 405 Method Not Allowed\r\nAllow: GET, HEAD, PUT, DELETE\r\nContent-Type: text/plain\r\nContent-Length: 19\r\n\r\nmethod not allowed\n",
    ),
    (
        Reply {
            code: 405,
            allow: Allow::Other,
            length: 19,
            ..TEXT
        },
        b"",
        b"HTTP/1.1 405 Method Not Allowed\r\nAllow: GET, HEAD\r\nContent-Type: text/plain\r\nContent-Length: 19\r\n\r\n",
    ),
    (
        Reply {
            code: 503,
            length: 14,
            ..TEXT
        },
        b"out of memory\n",
        b"HTTP/1.1 503 Service Unavailable\r\nContent-Type: text/plain\r\nContent-Length: 14\r\n\r\nout of memory\n",
    ),
    (
        Reply {
            code: 400,
            close: true,
            ..PLAIN
        },
        b"",
        b"HTTP/1.1 400 Bad Request\r\nContent-Length: 0\r\nConnection: close\r\n\r\n",
    ),
    (
        Reply {
            code: 411,
            close: true,
            ..PLAIN
        },
        b"",
        b"HTTP/1.1 411 Length Required\r\nContent-Length: 0\r\nConnection: close\r\n\r\n",
    ),
    (
        Reply {
            code: 413,
            close: true,
            ..PLAIN
        },
        b"",
        b"HTTP/1.1 413 Content Too Large\r\nContent-Length: 0\r\nConnection: close\r\n\r\n",
    ),
    (
        Reply {
            code: 431,
            close: true,
            ..PLAIN
        },
        b"",
        b"HTTP/1.1 431 Request Header Fields Too Large\r\nContent-Length: 0\r\nConnection: close\r\n\r\n",
    ),
    (
        Reply {
            code: 501,
            close: true,
            ..PLAIN
        },
        b"",
        b"HTTP/1.1 501 Not Implemented\r\nContent-Length: 0\r\nConnection: close\r\n\r\n",
    ),
    (
        Reply {
            code: 505,
            close: true,
            ..PLAIN
        },
        b"",
        b"HTTP/1.1 505 HTTP Version Not Supported\r\nContent-Length: 0\r\nConnection: close\r\n\r\n",
    ),
    (PLAIN, b"", b"HTTP/1.1 200 OK\r\nContent-Length: 0\r\n\r\n"),
];

#[test]
fn writes_replies(rt: HostRuntime) -> Result<(), Fail> {
    for (reply, body, bytes) in &REPLIES {
        let text = shown(*bytes);
        assert!(rt; writes(rt.alloc(), reply, *body, *bytes)?, "{text}");
    }
    Ok(())
}

// Whether a reply whose body fits beside its head is written, one with a long body, one by parts, or what comes before a body.
fn write_by(way: &str, sink: &mut MemSink, long: &[u8]) -> bool {
    match way {
        "short" => write_reply(sink, &Reply { length: 3, ..TEXT }, b"abc").is_ok(),
        "long" => write_long(sink, long),
        "parts" => write_by_parts(sink),
        _ => write_continue(sink).is_ok(),
    }
}

fn write_long(sink: &mut MemSink, long: &[u8]) -> bool {
    let length = long.len() as u64;
    write_reply(sink, &Reply { length, ..TEXT }, long).is_ok()
}

fn write_by_parts(sink: &mut MemSink) -> bool {
    let reply = Reply { length: 6, ..TEXT };
    write_reply_parts(sink, &reply, [b"ab", b"c", b"def"]).is_ok()
}

// Whether a reply is written or not by a sink whose call with that number fails, and the sink then holds so many bytes.
fn written(
    alloc: Global,
    way: &str,
    call: u64,
    goes_well: bool,
    held: usize,
) -> Result<bool, AllocError> {
    let mut sink = MemSink::new(alloc, 3000, Vec::from_slice(alloc, &[call])?)?;
    let long = repeated(alloc, b"", b"x", 2000, b"")?;
    let went = write_by(way, &mut sink, long.as_slice());
    Ok(went == goes_well && sink.bytes().len() == held)
}

// How many bytes each way writes.
static WAYS: [(&str, usize); 4] = [
    ("short", 67),
    ("long", 2067),
    ("parts", 70),
    ("continue", 25),
];

// All goes out by the first call, and is flushed by the second.
#[test]
fn writes_by_one_call_and_flushes(rt: HostRuntime) -> Result<(), Fail> {
    let alloc = rt.alloc();
    for (way, length) in &WAYS {
        assert!(rt; written(alloc, *way, 0, false, 0)?, "{way}");
        assert!(rt; written(alloc, *way, 1, false, *length)?, "{way}");
        assert!(rt; written(alloc, *way, 2, true, *length)?, "{way}");
    }
    Ok(())
}
