//! Connections in full: what is asked, and what is answered.
use crate::rows::{replies, requests};
use crate::surveys::goes;
use hips_http::SessionEnd;
use log::Log;
use small_files::{SURVEY, survey_with};
use std::alloc::Global;
use std::test::Fail;
use std::thread::Threads;
use std::time::Clock;

// The survey with a rule of its own, or without one.
const MEDIANS: &str = survey_with!("survey_version = 2\nsurvey_rule = median\n");

const MEANS: &str = survey_with!("survey_version = 2\nsurvey_rule = mean\n");

const NO_RULE: &str = survey_with!("survey_version = 2\n");

// An edit and a publication, and the tile above.
pub(crate) static EDIT: &str =
    "PUT /Norder4/Dir0/Npix0.fits;Content-Length: 2888|tile 4 0&short 1 2 3 5
GET /Norder3/Dir0/Npix0.fits
POST /publish
GET /Norder3/Dir0/Npix0.fits
";

pub(crate) static EDITED: &str = "201 Created;Content-Length: 0;Survey-Edits: 1
404 Not Found;Content-Type: text/plain;Content-Length: 10;Survey-Prefix: 0|line not found
200 OK;Content-Type: text/plain;Content-Length: 12;Survey-Prefix: 1|line published 1
200 OK;Content-Type: application/fits;Content-Length: 5760;Survey-Prefix: 1|tile 3 0&short -32768 -32768 3 -32768&pad
";

// Connections, with an empty line between two. A row begins with its description, how it ends, and what is to be seen; then
// come the requests and, behind a line with `=`, the replies.
static CONVERSATIONS: &str = "\
survey closed
GET /properties
HEAD /properties
=
200 OK;Content-Type: text/plain;Content-Length: 380;Survey-Prefix: 0|properties&line survey_leaves = 0
200 OK;Content-Type: text/plain;Content-Length: 380;Survey-Prefix: 0

survey closed
PUT /Norder4/Dir0/Npix0.fits;Content-Length: 2888|tile 4 0&short 1 2 3 5
GET /Norder3/Dir0/Npix0.fits
POST /publish
GET /Norder3/Dir0/Npix0.fits
=
201 Created;Content-Length: 0;Survey-Edits: 1
404 Not Found;Content-Type: text/plain;Content-Length: 10;Survey-Prefix: 0|line not found
200 OK;Content-Type: text/plain;Content-Length: 12;Survey-Prefix: 1|line published 1
200 OK;Content-Type: application/fits;Content-Length: 5760;Survey-Prefix: 1|tile 3 0&short -32768 -32768 3 -32768&pad

survey closed
PUT /Norder4/Dir0/Npix0.fits;Content-Length: 2888|tile 4 0&short 1 2 3 5
GET /Norder3/Dir0/Npix0.fits
POST /publish
GET /Norder3/Dir0/Npix0.fits
DELETE /Norder4/Dir0/Npix0.fits
POST /publish
GET /Norder3/Dir0/Npix0.fits
GET /Norder3/Allsky.fits
GET /Moc.fits
GET /properties
=
201 Created;Content-Length: 0;Survey-Edits: 1
404 Not Found;Content-Type: text/plain;Content-Length: 10;Survey-Prefix: 0|line not found
200 OK;Content-Type: text/plain;Content-Length: 12;Survey-Prefix: 1|line published 1
200 OK;Content-Type: application/fits;Content-Length: 5760;Survey-Prefix: 1|tile 3 0&short -32768 -32768 3 -32768&pad
204 No Content;Survey-Edits: 2
200 OK;Content-Type: text/plain;Content-Length: 12;Survey-Prefix: 2|line published 2
404 Not Found;Content-Type: text/plain;Content-Length: 10;Survey-Prefix: 2|line not found
404 Not Found;Content-Type: text/plain;Content-Length: 10;Survey-Prefix: 2|line not found
200 OK;Content-Type: application/fits;Content-Length: 5760;Survey-Prefix: 2|coverage 4 0
200 OK;Content-Type: text/plain;Content-Length: 380;Survey-Prefix: 2|properties&line survey_leaves = 0

survey closed # Four siblings are one cell of the coverage, three are three.
PUT /Norder4/Dir0/Npix0.fits;Content-Length: 2888|tile 4 0&short 1 2 3 5
PUT /Norder4/Dir0/Npix1.fits;Content-Length: 2888|tile 4 1&short 1 2 3 5
PUT /Norder4/Dir0/Npix2.fits;Content-Length: 2888|tile 4 2&short 1 2 3 5
PUT /Norder4/Dir0/Npix3.fits;Content-Length: 2888|tile 4 3&short 1 2 3 5
POST /publish
GET /Moc.fits
DELETE /Norder4/Dir0/Npix3.fits
POST /publish
GET /Moc.fits
=
201 Created;Content-Length: 0;Survey-Edits: 1
201 Created;Content-Length: 0;Survey-Edits: 2
201 Created;Content-Length: 0;Survey-Edits: 3
201 Created;Content-Length: 0;Survey-Edits: 4
200 OK;Content-Type: text/plain;Content-Length: 12;Survey-Prefix: 4|line published 4
200 OK;Content-Type: application/fits;Content-Length: 8640;Survey-Prefix: 4|coverage 4 1&long 256&pad
204 No Content;Survey-Edits: 5
200 OK;Content-Type: text/plain;Content-Length: 12;Survey-Prefix: 5|line published 5
200 OK;Content-Type: application/fits;Content-Length: 8640;Survey-Prefix: 5|coverage 4 3&long 1024 1025 1026&pad

survey closed # A held state answers until it is given up.
PUT /Norder4/Dir0/Npix0.fits;Content-Length: 2888|tile 4 0&short 1 2 3 5
GET /Norder3/Dir0/Npix0.fits
POST /publish
GET /Norder3/Dir0/Npix0.fits
POST /pin
PUT /Norder4/Dir0/Npix0.fits;Content-Length: 2888|tile 4 0&short 9 9 9 9
POST /publish
GET /Norder3/Dir0/Npix0.fits
POST /unpin
GET /Norder3/Dir0/Npix0.fits
=
201 Created;Content-Length: 0;Survey-Edits: 1
404 Not Found;Content-Type: text/plain;Content-Length: 10;Survey-Prefix: 0|line not found
200 OK;Content-Type: text/plain;Content-Length: 12;Survey-Prefix: 1|line published 1
200 OK;Content-Type: application/fits;Content-Length: 5760;Survey-Prefix: 1|tile 3 0&short -32768 -32768 3 -32768&pad
200 OK;Content-Type: text/plain;Content-Length: 9;Survey-Prefix: 1|line pinned 1
204 No Content;Survey-Edits: 2
200 OK;Content-Type: text/plain;Content-Length: 12;Survey-Prefix: 2|line published 2
200 OK;Content-Type: application/fits;Content-Length: 5760;Survey-Prefix: 1|tile 3 0&short -32768 -32768 3 -32768&pad
200 OK;Content-Type: text/plain;Content-Length: 9|line released
200 OK;Content-Type: application/fits;Content-Length: 5760;Survey-Prefix: 2|tile 3 0&short -32768 -32768 9 -32768&pad

survey closed
POST /publish
=
200 OK;Content-Type: text/plain;Content-Length: 10;Survey-Prefix: 0|line already 0

survey closed
PUT /Norder4/Dir0/Npix0.fits;Content-Length: 2888|tile 4 0&short 1 2 3 5
GET /Norder3/Dir0/Npix0.fits
POST /publish
GET /Norder3/Dir0/Npix0.fits
POST /publish
POST /publish
=
201 Created;Content-Length: 0;Survey-Edits: 1
404 Not Found;Content-Type: text/plain;Content-Length: 10;Survey-Prefix: 0|line not found
200 OK;Content-Type: text/plain;Content-Length: 12;Survey-Prefix: 1|line published 1
200 OK;Content-Type: application/fits;Content-Length: 5760;Survey-Prefix: 1|tile 3 0&short -32768 -32768 3 -32768&pad
200 OK;Content-Type: text/plain;Content-Length: 10;Survey-Prefix: 1|line already 1
200 OK;Content-Type: text/plain;Content-Length: 10;Survey-Prefix: 1|line already 1

survey closed # A tile without its last byte, and whole.
PUT /Norder4/Dir0/Npix0.fits;Content-Length: 2887|tile 4 0&short 1 2 3 5&cut
PUT /Norder4/Dir0/Npix0.fits;Content-Length: 2888|tile 4 0&short 1 2 3 5
=
422 Unprocessable Content;Content-Type: text/plain;Content-Length: 27|line tile refused 9 truncated 1
201 Created;Content-Length: 0;Survey-Edits: 1

survey closed # A tile as an outside tool writes it is served with the survey's own cards.
PUT /Norder4/Dir0/Npix0.fits;Content-Length: 8640|outside&short 1 2 3 5&pad
POST /publish
GET /Norder4/Dir0/Npix0.fits
=
201 Created;Content-Length: 0;Survey-Edits: 1
200 OK;Content-Type: text/plain;Content-Length: 12;Survey-Prefix: 1|line published 1
200 OK;Content-Type: application/fits;Content-Length: 5760;Survey-Prefix: 1|tile 4 0&short 1 2 3 5&pad

survey closed # Preconditions that are false change nothing; then each holds.
PUT /Norder4/Dir0/Npix0.fits;Content-Length: 2888|tile 4 0&short 1 2 3 5
GET /Norder3/Dir0/Npix0.fits
POST /publish
GET /Norder3/Dir0/Npix0.fits
PUT /Norder4/Dir0/Npix0.fits;If-None-Match: *;Content-Length: 2888|tile 4 0&short 1 2 3 5
PUT /Norder4/Dir0/Npix1.fits;If-Match: *;Content-Length: 2888|tile 4 1&short 1 2 3 5
PUT /Norder4/Dir0/Npix0.fits;If-Match: \"x\";Content-Length: 2888|tile 4 0&short 1 2 3 5
PUT /Norder4/Dir0/Npix0.fits;If-Match: *;If-None-Match: *;Content-Length: 2888|tile 4 0&short 1 2 3 5
DELETE /Norder4/Dir0/Npix1.fits
DELETE /Norder4/Dir0/Npix1.fits;If-Match: \"x\"
DELETE /Norder4/Dir0/Npix0.fits;If-Match: \"x\"
DELETE /Norder4/Dir0/Npix0.fits;If-None-Match: *
POST /publish
PUT /Norder4/Dir0/Npix0.fits;If-Match: *;Content-Length: 2888|tile 4 0&short 1 2 3 5
PUT /Norder4/Dir0/Npix1.fits;If-None-Match: *;Content-Length: 2888|tile 4 1&short 1 2 3 5
DELETE /Norder4/Dir0/Npix1.fits;If-Match: *
=
201 Created;Content-Length: 0;Survey-Edits: 1
404 Not Found;Content-Type: text/plain;Content-Length: 10;Survey-Prefix: 0|line not found
200 OK;Content-Type: text/plain;Content-Length: 12;Survey-Prefix: 1|line published 1
200 OK;Content-Type: application/fits;Content-Length: 5760;Survey-Prefix: 1|tile 3 0&short -32768 -32768 3 -32768&pad
412 Precondition Failed;Content-Type: text/plain;Content-Length: 20;Survey-Edits: 1|line precondition failed
412 Precondition Failed;Content-Type: text/plain;Content-Length: 20;Survey-Edits: 1|line precondition failed
412 Precondition Failed;Content-Type: text/plain;Content-Length: 20;Survey-Edits: 1|line precondition failed
412 Precondition Failed;Content-Type: text/plain;Content-Length: 20;Survey-Edits: 1|line precondition failed
404 Not Found;Content-Type: text/plain;Content-Length: 7;Survey-Edits: 1|line absent
404 Not Found;Content-Type: text/plain;Content-Length: 7;Survey-Edits: 1|line absent
412 Precondition Failed;Content-Type: text/plain;Content-Length: 20;Survey-Edits: 1|line precondition failed
412 Precondition Failed;Content-Type: text/plain;Content-Length: 20;Survey-Edits: 1|line precondition failed
200 OK;Content-Type: text/plain;Content-Length: 10;Survey-Prefix: 1|line already 1
204 No Content;Survey-Edits: 2
201 Created;Content-Length: 0;Survey-Edits: 3
204 No Content;Survey-Edits: 4

survey closed # Paths and methods.
GET /Norder11/Dir50330000/Npix50331648.fits
GET /Norder7/Dir0/Npix10302.fits
GET /Norder3/Dir0/Npix007.fits
PUT /Norder3/Dir0/Npix0.fits;Content-Length: 0
POST /Norder4/Dir0/Npix0.fits
GET /publish
HEAD /publish
BREW /Moc.fits
GET /%4Doc.fits?x=1
GET http://a/Moc.fits
GET http://a?x=/Moc.fits
=
404 Not Found;Content-Type: text/plain;Content-Length: 10;Survey-Prefix: 0|line not found
404 Not Found;Content-Type: text/plain;Content-Length: 10;Survey-Prefix: 0|line not found
404 Not Found;Content-Type: text/plain;Content-Length: 10;Survey-Prefix: 0|line not found
405 Method Not Allowed;Allow: GET, HEAD;Content-Type: text/plain;Content-Length: 19|line method not allowed
405 Method Not Allowed;Allow: GET, HEAD, PUT, DELETE;Content-Type: text/plain;Content-Length: 19|line method not allowed
405 Method Not Allowed;Allow: POST;Content-Type: text/plain;Content-Length: 19|line method not allowed
405 Method Not Allowed;Allow: POST;Content-Type: text/plain;Content-Length: 19
405 Method Not Allowed;Allow: GET, HEAD;Content-Type: text/plain;Content-Length: 19|line method not allowed
200 OK;Content-Type: application/fits;Content-Length: 5760;Survey-Prefix: 0|coverage 4 0
200 OK;Content-Type: application/fits;Content-Length: 5760;Survey-Prefix: 0|coverage 4 0
404 Not Found;Content-Type: text/plain;Content-Length: 10;Survey-Prefix: 0|line not found

survey closed # The mosaic of one leaf under the last cell of order 3: all but one stored number are blank.
PUT /Norder4/Dir0/Npix3068.fits;Content-Length: 2888|tile 4 3068&short 9 9 9 9
POST /publish
GET /Norder3/Allsky.fits
=
201 Created;Content-Length: 0;Survey-Edits: 1
200 OK;Content-Type: text/plain;Content-Length: 12;Survey-Prefix: 1|line published 1
200 OK;Content-Type: application/fits;Content-Length: 11520;Survey-Prefix: 1|mosaic&blanks 76&short 9&blanks 3055&pad

medians closed # The median of the same pixels, and the properties that say so.
GET /properties
PUT /Norder4/Dir0/Npix0.fits;Content-Length: 2888|tile 4 0&short 1 2 3 5
POST /publish
GET /Norder3/Dir0/Npix0.fits
=
200 OK;Content-Type: text/plain;Content-Length: 420;Survey-Prefix: 0|properties&line survey_version = 2&line survey_rule = median&line survey_leaves = 0
201 Created;Content-Length: 0;Survey-Edits: 1
200 OK;Content-Type: text/plain;Content-Length: 12;Survey-Prefix: 1|line published 1
200 OK;Content-Type: application/fits;Content-Length: 5760;Survey-Prefix: 1|tile 3 0&short -32768 -32768 2 -32768&pad

means closed
GET /properties
=
200 OK;Content-Type: text/plain;Content-Length: 418;Survey-Prefix: 0|properties&line survey_version = 2&line survey_rule = mean&line survey_leaves = 0

no_rule closed
GET /properties
=
200 OK;Content-Type: text/plain;Content-Length: 418;Survey-Prefix: 0|properties&line survey_version = 2&line survey_rule = mean&line survey_leaves = 0

survey closed # A batch is accepted whole.
POST /batch;Content-Length: 2908|line put 0 2888&tile 4 0&short 1 2 3 5&line remove 0
POST /publish
GET /Norder3/Dir0/Npix0.fits
=
200 OK;Content-Type: text/plain;Content-Length: 11;Survey-Edits: 2|line accepted 2
200 OK;Content-Type: text/plain;Content-Length: 12;Survey-Prefix: 2|line published 2
404 Not Found;Content-Type: text/plain;Content-Length: 10;Survey-Prefix: 2|line not found

survey closed # Or not at all: its second edit is refused.
POST /batch;Content-Length: 5798|line add 0 2888&tile 4 0&short 1 2 3 5&line add 0 2888&tile 4 0&short 1 2 3 5
POST /publish
=
412 Precondition Failed;Content-Type: text/plain;Content-Length: 28;Survey-Edits: 0|line batch 1 precondition failed
200 OK;Content-Type: text/plain;Content-Length: 10;Survey-Prefix: 0|line already 0

survey closed
POST /batch;Content-Length: 0
POST /batch;Content-Length: 2898|line put 0 2888&tile 4 0&short 1 2 3 5&cut
POST /batch;Content-Length: 2898|line put 0 2887&tile 4 0&short 1 2 3 5&cut
POST /batch;Content-Length: 9225|removals 1025
=
422 Unprocessable Content;Content-Type: text/plain;Content-Length: 21|line batch refused 0 line
422 Unprocessable Content;Content-Type: text/plain;Content-Length: 22|line batch refused 0 short
422 Unprocessable Content;Content-Type: text/plain;Content-Length: 30|line batch refused 0 9 truncated 1
422 Unprocessable Content;Content-Type: text/plain;Content-Length: 24|line batch refused 1024 many

survey cut # A client that waits for leave to send its body; where the body is cut, it had leave.
PUT /Norder4/Dir0/Npix0.fits;Content-Length: 2888;Expect: 100-continue|tile 4 0&short 1 2 3 5
PUT /Norder4/Dir0/Npix0.fits;Content-Length: 2888;Expect: 100-continue|tile 4 0&short 1 2 3 5&cut
=
100 Continue
201 Created;Content-Length: 0;Survey-Edits: 1
100 Continue

survey asked # A request that asks to close is the last.
HEAD /Moc.fits;Connection: keep-alive, Close
GET /properties
=
200 OK;Content-Type: application/fits;Content-Length: 5760;Survey-Prefix: 0;Connection: close

survey asked
 GET /properties HTTP/1.0
=
200 OK;Content-Type: text/plain;Content-Length: 380;Survey-Prefix: 0;Connection: close|properties&line survey_leaves = 0

survey cut
|text GET /prop

survey closed # Hostile tiles.
PUT /Norder4/Dir0/Npix0.fits;Content-Length: 0|
PUT /Norder4/Dir0/Npix0.fits;Content-Length: 2888|tile 4 0&short 1 2 3 5&card 1 \x07IMPLE  =                    T
PUT /Norder4/Dir0/Npix0.fits;Content-Length: 103680|spaces 103680
PUT /Norder4/Dir0/Npix0.fits;Content-Length: 2888|tile 4 0&short 1 2 3 5&card 2 BITPIX  =                 16.0
PUT /Norder4/Dir0/Npix0.fits;Content-Length: 2888|tile 4 0&short 1 2 3 5&behind 2 BITPIX  =                   16
PUT /Norder4/Dir0/Npix0.fits;Content-Length: 2888|tile 4 0&short 1 2 3 5&card 1 SIMPLE  =                    F
PUT /Norder4/Dir0/Npix0.fits;Content-Length: 2888|tile 4 0&short 1 2 3 5&card 2 BITPIX  =                    8
PUT /Norder4/Dir0/Npix0.fits;Content-Length: 2888|tile 4 0&short 1 2 3 5&card 3 NAXIS   =                    3
PUT /Norder4/Dir0/Npix0.fits;Content-Length: 2888|tile 4 0&short 1 2 3 5&card 4 NAXIS1  =                    4
PUT /Norder4/Dir0/Npix0.fits;Content-Length: 2888|tile 4 0&short 1 2 3 5&card 6 BSCALE  =                  2.0
PUT /Norder4/Dir0/Npix0.fits;Content-Length: 2888|tile 4 0&short 1 2 3 5&card 7 BZERO   =                  1.0
PUT /Norder4/Dir0/Npix0.fits;Content-Length: 2888|tile 4 0&short 1 2 3 5&card 8 BLANK   =                    0
PUT /Norder4/Dir0/Npix0.fits;Content-Length: 5761|tile 4 0&short 1 2 3 5&spaces 2873
=
422 Unprocessable Content;Content-Type: text/plain;Content-Length: 24|line tile refused 1 header 1
422 Unprocessable Content;Content-Type: text/plain;Content-Length: 26|line tile refused 1 header 2 0
422 Unprocessable Content;Content-Type: text/plain;Content-Length: 24|line tile refused 1 header 3
422 Unprocessable Content;Content-Type: text/plain;Content-Length: 26|line tile refused 1 header 4 2
422 Unprocessable Content;Content-Type: text/plain;Content-Length: 26|line tile refused 1 header 5 3
422 Unprocessable Content;Content-Type: text/plain;Content-Length: 22|line tile refused 2 simple
422 Unprocessable Content;Content-Type: text/plain;Content-Length: 24|line tile refused 3 bitpix 8
422 Unprocessable Content;Content-Type: text/plain;Content-Length: 23|line tile refused 4 naxis 3
422 Unprocessable Content;Content-Type: text/plain;Content-Length: 25|line tile refused 5 width 1 4
422 Unprocessable Content;Content-Type: text/plain;Content-Length: 21|line tile refused 6 scale
422 Unprocessable Content;Content-Type: text/plain;Content-Length: 20|line tile refused 7 zero
422 Unprocessable Content;Content-Type: text/plain;Content-Length: 23|line tile refused 8 blank 0
422 Unprocessable Content;Content-Type: text/plain;Content-Length: 27|line tile refused 10 trailing 1

survey 400 # Heads that are refused.
PUT /Norder4/Dir0/Npix0.fits;Content-Length: 5;Content-Length: 5|text hello
=
400 Bad Request;Content-Length: 0;Connection: close

survey 400
PUT /Norder4/Dir0/Npix0.fits;Content-Length: +5;Transfer-Encoding: chunked|text hello
=
400 Bad Request;Content-Length: 0;Connection: close

survey 501
PUT /Norder4/Dir0/Npix0.fits;Transfer-Encoding: chunked
=
501 Not Implemented;Content-Length: 0;Connection: close

survey 413
PUT /Norder4/Dir0/Npix0.fits;Content-Length: 99999999999
=
413 Content Too Large;Content-Length: 0;Connection: close

survey 413
PUT /Norder4/Dir0/Npix0.fits;Content-Length: 437761
=
413 Content Too Large;Content-Length: 0;Connection: close

survey 400
GET /properties;Host: b
=
400 Bad Request;Content-Length: 0;Connection: close

survey 400
 GET /properties HTTP/1.0;Host: a;Host: b
=
400 Bad Request;Content-Length: 0;Connection: close

survey 505
 GET /properties HTTP/1.2;Host: a
=
505 HTTP Version Not Supported;Content-Length: 0;Connection: close

survey 505
 GET / HTTP/2.0
=
505 HTTP Version Not Supported;Content-Length: 0;Connection: close

survey 400
 GET / HTTP/1.1
=
400 Bad Request;Content-Length: 0;Connection: close

survey 411
PUT /Norder4/Dir0/Npix0.fits
=
411 Length Required;Content-Length: 0;Connection: close

survey 431
|spaces 8192
=
431 Request Header Fields Too Large;Content-Length: 0;Connection: close";

// The description with that name.
fn conf_of(name: &str) -> &str {
    match name {
        "medians" => MEDIANS,
        "means" => MEANS,
        "no_rule" => NO_RULE,
        _ => SURVEY,
    }
}

// The end with that name; a number is the code by which a head is refused.
fn end_of(name: &str) -> Result<SessionEnd, Fail> {
    match name {
        "closed" => Ok(SessionEnd::Closed),
        "cut" => Ok(SessionEnd::Cut),
        "asked" => Ok(SessionEnd::Asked),
        code => Ok(SessionEnd::Refused(code.parse::<u16>()?)),
    }
}

// The word of a line with this number.
fn word(line: &str, at: usize) -> &str {
    line.split(' ').nth(at).unwrap_or("")
}

// Whether the connection of a row goes so: its requests are answered by these replies, and it ends so.
fn row_goes<R: Threads + Sync + Clock + Log>(
    rt: &R,
    alloc: Global,
    row: &str,
) -> Result<bool, Fail> {
    let (head, rows) = row.split_once('\n').unwrap_or((row, ""));
    let (asked, answered) = rows.split_once("\n=\n").unwrap_or((rows, ""));
    let wanted = end_of(word(head, 1))?;
    let output = replies(alloc, answered)?;
    let input = requests(alloc, asked)?;
    goes(rt, alloc, conf_of(word(head, 0)), input, &output, wanted)
}

#[test]
fn conversations_are_answered(rt: HostRuntime) -> Result<(), Fail> {
    for row in CONVERSATIONS.split("\n\n") {
        assert!(rt; row_goes(&rt, rt.alloc(), row)?, "{row}");
    }
    Ok(())
}
