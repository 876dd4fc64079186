//! Requests and replies, byte by byte: well-formed, malformed, cut at each byte, and over ends that fail.
ghost use Rattle.std.specs.Prelude.{◌≡◌, ◌<◌, ◌≤◌, length};
ghost use Rattle.mirror_frame.specs.Requests.{HasOrder};

use healpix_nested::Cell;
use memory_link::{MemSink, MemSource};
use mirror_frame::*;
use std::alloc::{AllocError, Global};
use std::str;
use std::test::Fail;
use survey_link::NullSink;
use tile_path::Path;

// The bytes of a row as text, which an assertion shows.
fn shown(bytes: &[u8]) -> &str {
    match str::from_utf8(bytes) {
        Ok(text) => text,
        Err(_) => "bytes that are no text",
    }
}

fn source(alloc: Global, bytes: &[u8], piece: usize, fails: &[u64]) -> Result<MemSource, AllocError>
    requires { 0 < piece }
{
    let bytes = Vec::from_slice(alloc, bytes)?;
    Ok(MemSource::new(bytes, piece, Vec::from_slice(alloc, fails)?))
}

// ---- requests

// Whether a sink with so much room takes the request whole, and holds these bytes then.
fn sends(
    alloc: Global,
    ask: &Ask,
    room: usize,
    whole: bool,
    bytes: &[u8],
) -> Result<bool, AllocError>
    requires { HasOrder ask.now }
{
    let mut src = source(alloc, b"", 1, &[])?;
    let mut sink = MemSink::new(alloc, room, Vec::new(alloc))?;
    let mut received = Received::new(alloc)?;
    let mut peer = Peer {
        src: &mut src,
        sink: &mut sink,
        received: &mut received,
    };
    let stop = if whole {
        ReplyStop::Cut
    } else {
        ReplyStop::WriteFault
    };
    let asked = peer.ask(ask, Due::Any);
    Ok(asked == Err(stop) && sink.bytes() == bytes)
}

#[test]
fn sends_each_request(rt: HostRuntime) -> Result<(), Fail> {
    let alloc = rt.alloc();
    let pin = Ask::Pin;
    assert!(rt;
        sends(
            alloc,
            &pin,
            100,
            true,
            b"POST /pin HTTP/1.1\r\nHost: mirror\r\n\r\n"
        )?
    );
    assert!(rt; sends(alloc, &pin, 5, false, b"POST ")?);
    let properties = Ask::File(Path::Properties);
    assert!(rt;
        sends(
            alloc,
            &properties,
            100,
            true,
            b"GET /properties HTTP/1.1\r\nHost: mirror\r\n\r\n"
        )?
    );
    let allsky = Ask::File(Path::Allsky);
    assert!(rt;
        sends(
            alloc,
            &allsky,
            100,
            true,
            b"GET /Norder3/Allsky.fits HTTP/1.1\r\nHost: mirror\r\n\r\n"
        )?
    );
    let unpin = Ask::Unpin;
    assert!(rt;
        sends(
            alloc,
            &unpin,
            100,
            true,
            b"POST /unpin HTTP/1.1\r\nHost: mirror\r\nConnection: close\r\n\r\n"
        )?
    );
    Ok(())
}

#[test]
fn asks_for_a_tile(rt: HostRuntime) -> Result<(), Fail> {
    let cell = Cell::new(11, 12_345_678).unwrap();
    let tile = Ask::File(Path::Tile(cell));
    assert!(rt;
        sends(
            rt.alloc(),
            &tile,
            100,
            true,
            b"GET /Norder11/Dir12340000/Npix12345678.fits HTTP/1.1\r\nHost: mirror\r\n\r\n"
        )?
    );
    Ok(())
}

// ---- replies

// What is read first of the bytes.
fn first(
    alloc: Global,
    bytes: &[u8],
    piece: usize,
    due: Due,
) -> Result<Result<Vec<u8>, ReplyStop>, AllocError>
    requires { 0 < piece }
{
    let mut src = source(alloc, bytes, piece, &[])?;
    let mut received = Received::new(alloc)?;
    let mut peer = Peer {
        src: &mut src,
        sink: &mut NullSink::new(),
        received: &mut received,
    };
    match peer.ask(&Ask::Pin, due) {
        Ok(_) => Ok(Ok(Vec::from_slice(alloc, peer.body())?)),
        Err(stop) => Ok(Err(stop)),
    }
}

// Whether the first reply has that body.
fn has_body(
    alloc: Global,
    bytes: &[u8],
    piece: usize,
    due: Due,
    body: &[u8],
) -> Result<bool, AllocError>
    requires { 0 < piece }
{
    match first(alloc, bytes, piece, due)? {
        Ok(found) => Ok(found.as_slice() == body),
        Err(_) => Ok(false),
    }
}

// Whether no reply is read for that reason.
fn stops(
    alloc: Global,
    bytes: &[u8],
    piece: usize,
    due: Due,
    stop: ReplyStop,
) -> Result<bool, AllocError>
    requires { 0 < piece }
{
    match first(alloc, bytes, piece, due)? {
        Ok(_) => Ok(false),
        Err(found) => Ok(found == stop),
    }
}

static REPLIES: [(&[u8], Due, &[u8]); 9] = [
    (
        b"HTTP/1.1 200 OK\r\nContent-Length: 9\r\nSurvey-Prefix: 7\r\n\r\npinned 7\n",
        Due::Pinned,
        b"pinned 7\n",
    ),
    (
        b"HTTP/1.1 200 OK\r\nContent-Length: 18\r\nSurvey-Prefix: 4294967295\r\n\r\npinned 4294967295\n",
        Due::Pinned,
        b"pinned 4294967295\n",
    ),
    (
        b"HTTP/1.1 200 OK\r\nContent-Length: 5\r\nSurvey-Prefix: 7\r\n\r\nhello",
        Due::Survey(7),
        b"hello",
    ),
    (
        b"HTTP/1.1 200\r\ncontent-length:00000005\r\nSURVEY-PREFIX: 7 \r\nX: y\r\n\r\nhello",
        Due::Survey(7),
        b"hello",
    ),
    (
        b"HTTP/1.1 200 Fine\r\nContent-Length: 0\r\nSurvey-Prefix: 0\r\n\r\nmore",
        Due::Survey(0),
        b"",
    ),
    (
        b"\r\nHTTP/1.1 200 OK\r\nContent-Length: 1\r\nSurvey-Prefix: 7\r\n\r\na",
        Due::Survey(7),
        b"a",
    ),
    (
        b"HTTP/1.1 200 OK\r\nContent-Length: 9\r\n\r\nreleased\n",
        Due::Any,
        b"released\n",
    ),
    (
        b"HTTP/1.1 200 OK\r\nContent-Length: 9\r\nSurvey-Prefix: x\r\n\r\nreleased\n",
        Due::Any,
        b"released\n",
    ),
    (
        b"HTTP/1.1 200 OK\nContent-Length: 1\nSurvey-Prefix: 7\r\n\r\na",
        Due::Survey(7),
        b"a",
    ),
];

#[test]
fn reads_replies_in_form(rt: HostRuntime) -> Result<(), Fail> {
    for (bytes, due, body) in &REPLIES {
        let text = shown(*bytes);
        assert!(rt; has_body(rt.alloc(), *bytes, 1, *due, *body)?, "{text}");
        assert!(rt; has_body(rt.alloc(), *bytes, 9000, *due, *body)?, "{text}");
    }
    Ok(())
}

static WRONG: [(&[u8], Due); 20] = [
    (
        b"HTTP/1.1 404 Not Found\r\nContent-Length: 0\r\nSurvey-Prefix: 7\r\n\r\n",
        Due::Survey(7),
    ),
    (
        b"HTTP/1.1 201 OK\r\nContent-Length: 0\r\nSurvey-Prefix: 7\r\n\r\n",
        Due::Survey(7),
    ),
    (
        b"HTTP/1.0 200 OK\r\nContent-Length: 0\r\nSurvey-Prefix: 7\r\n\r\n",
        Due::Survey(7),
    ),
    (
        b"HTTP/2.0 200 OK\r\nContent-Length: 0\r\nSurvey-Prefix: 7\r\n\r\n",
        Due::Survey(7),
    ),
    (
        b"HTTP/1.1 200 OK\r\nSurvey-Prefix: 7\r\n\r\n",
        Due::Survey(7),
    ),
    (
        b"HTTP/1.1 200 OK\r\nContent-Length: 0\r\nContent-Length: 0\r\nSurvey-Prefix: 7\r\n\r\n",
        Due::Survey(7),
    ),
    (
        b"HTTP/1.1 200 OK\r\nContent-Length: 000000005\r\nSurvey-Prefix: 7\r\n\r\nhello",
        Due::Survey(7),
    ),
    (
        b"HTTP/1.1 200 OK\r\nContent-Length: 67108865\r\nSurvey-Prefix: 7\r\n\r\n",
        Due::Survey(7),
    ),
    (
        b"HTTP/1.1 200 OK\r\nContent-Length: +5\r\nSurvey-Prefix: 7\r\n\r\nhello",
        Due::Survey(7),
    ),
    (
        b"HTTP/1.1 200 OK\r\nContent-Length:\r\nSurvey-Prefix: 7\r\n\r\n",
        Due::Survey(7),
    ),
    (
        b"HTTP/1.1 200 OK\r\nContent-Length: 0\r\n\r\n",
        Due::Survey(7),
    ),
    (
        b"HTTP/1.1 200 OK\r\nContent-Length: 0\r\nSurvey-Prefix: 8\r\n\r\n",
        Due::Survey(7),
    ),
    (
        b"HTTP/1.1 200 OK\r\nContent-Length: 0\r\nSurvey-Prefix: 07\r\n\r\n",
        Due::Survey(7),
    ),
    (
        b"HTTP/1.1 200 OK\r\nContent-Length: 0\r\nSurvey-Prefix: 4294967303\r\n\r\n",
        Due::Survey(7),
    ),
    (
        b"HTTP/1.1 200 OK\r\nContent-Length: 0\r\nSurvey-Prefix: 7\r\nSurvey-Prefix: 7\r\n\r\n",
        Due::Survey(7),
    ),
    (
        b"HTTP/1.1 200 OK\r\nContent-Length : 0\r\nSurvey-Prefix: 7\r\n\r\n",
        Due::Survey(7),
    ),
    (
        b"HTTP/1.1 200 OK\nContent-Length: 0\nSurvey-Prefix: 7\n\nmore\r\n\r\n",
        Due::Survey(7),
    ),
    (
        b"HTTP/1.1 200 OK\r\nContent-Length: 9\r\nSurvey-Prefix: 7\r\n\r\npinned 8\n",
        Due::Pinned,
    ),
    (
        b"HTTP/1.1 200 OK\r\nContent-Length: 10\r\nSurvey-Prefix: 7\r\n\r\npinned 07\n",
        Due::Pinned,
    ),
    (
        b"HTTP/1.1 200 OK\r\nContent-Length: 9\r\n\r\npinned 7\n",
        Due::Pinned,
    ),
];

#[test]
fn refuses_replies_that_are_not_in_form(rt: HostRuntime) -> Result<(), Fail> {
    for (bytes, due) in &WRONG {
        let text = shown(*bytes);
        assert!(rt;
            stops(rt.alloc(), *bytes, 1, *due, ReplyStop::Wrong)?,
            "{text}"
        );
        assert!(rt;
            stops(rt.alloc(), *bytes, 9000, *due, ReplyStop::Wrong)?,
            "{text}"
        );
    }
    Ok(())
}

static WHOLE: &[u8] = b"HTTP/1.1 200 OK\r\nContent-Length: 9\r\nSurvey-Prefix: 7\r\n\r\npinned 7\n";

#[test]
fn each_shorter_input_is_cut(rt: HostRuntime) -> Result<(), Fail> {
    for end in 0..WHOLE.len() {
        assert!(rt;
            stops(rt.alloc(), &WHOLE[..end], 7, Due::Pinned, ReplyStop::Cut)?,
            "{end}"
        );
    }
    Ok(())
}

// A head with a field of so many bytes, and a body of one byte.
fn long_head(alloc: Global, count: usize) -> Result<Vec<u8>, AllocError> {
    let mut bytes = Vec::from_slice(alloc, b"HTTP/1.1 200 OK\r\nContent-Length: 1\r\nX: ")?;
    for _ in 0..count {
        bytes.push(b'x')?;
    }
    bytes.extend_from_slice(b"\r\n\r\na")?;
    Ok(bytes)
}

#[test]
fn a_head_has_8192_bytes_at_most(rt: HostRuntime) -> Result<(), Fail> {
    // 39 bytes come before the field's value, and 4 end the head.
    let longest = long_head(rt.alloc(), 8149)?;
    assert!(rt; has_body(rt.alloc(), &longest, 1000, Due::Any, b"a")?);
    let mut longer = long_head(rt.alloc(), 8150)?;
    assert!(rt; stops(rt.alloc(), &longer, 1000, Due::Any, ReplyStop::Wrong)?);
    longer.truncate(8192);
    assert!(rt; stops(rt.alloc(), &longer, 1000, Due::Any, ReplyStop::Wrong)?);
    longer.truncate(8191);
    assert!(rt; stops(rt.alloc(), &longer, 1000, Due::Any, ReplyStop::Cut)?);
    Ok(())
}

#[test]
fn a_head_has_64_fields_at_most(rt: HostRuntime) -> Result<(), Fail> {
    let alloc = rt.alloc();
    let mut bytes = Vec::from_slice(alloc, b"HTTP/1.1 200 OK\r\nContent-Length: 1\r\n")?;
    for _ in 0..63 {
        bytes.extend_from_slice(b"X: y\r\n")?;
    }
    let mut longer = Vec::from_slice(alloc, &bytes)?;
    bytes.extend_from_slice(b"\r\na")?;
    longer.extend_from_slice(b"X: y\r\n\r\na")?;
    assert!(rt; has_body(alloc, &bytes, 1000, Due::Any, b"a")?);
    assert!(rt; stops(alloc, &longer, 1000, Due::Any, ReplyStop::Wrong)?);
    Ok(())
}

static TWO: &[u8] =
    b"HTTP/1.1 200 OK\r\nContent-Length: 5\r\nSurvey-Prefix: 7\r\n\r\nhelloHTTP/1.1 200 OK\r\nContent-Length: 2\r\nSurvey-Prefix: 7\r\n\r\nabrest";

#[test]
fn what_comes_behind_a_reply_stays(rt: HostRuntime) -> Result<(), Fail> {
    let alloc = rt.alloc();
    let mut src = source(alloc, TWO, 9000, &[])?;
    let mut received = Received::new(alloc)?;
    let mut peer = Peer {
        src: &mut src,
        sink: &mut NullSink::new(),
        received: &mut received,
    };
    assert!(rt; peer.ask(&Ask::Pin, Due::Survey(7)) == Ok(Some(7)));
    assert!(rt; peer.body() == b"hello".as_slice());
    assert!(rt; peer.ask(&Ask::Pin, Due::Survey(7)) == Ok(Some(7)));
    assert!(rt; peer.body() == b"ab".as_slice());
    assert!(rt; peer.ask(&Ask::Pin, Due::Survey(7)) == Err(ReplyStop::Cut));
    Ok(())
}

// What is read first, where the reading with that number fails.
fn first_over(alloc: Global, fails: u64) -> Result<Result<Option<u32>, ReplyStop>, AllocError> {
    let mut src = source(alloc, WHOLE, 20, &[fails])?;
    let mut received = Received::new(alloc)?;
    let mut peer = Peer {
        src: &mut src,
        sink: &mut NullSink::new(),
        received: &mut received,
    };
    Ok(peer.ask(&Ask::Pin, Due::Pinned))
}

#[test]
fn a_reading_that_fails_is_a_fault(rt: HostRuntime) -> Result<(), Fail> {
    // The reply has 65 bytes: three readings of 20 bytes and one of the rest.
    for reading in 0..4 {
        assert!(rt;
            first_over(rt.alloc(), reading)? == Err(ReplyStop::ReadFault),
            "{reading}"
        );
    }
    assert!(rt; first_over(rt.alloc(), 4)? == Ok(Some(7)));
    Ok(())
}
