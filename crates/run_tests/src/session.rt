//! Runs of `session`: requests and replies, byte for byte.
use crate::runs::all_go;
use std::test::Fail;

// The requests of a connection, the status, and all that is written.
static SESSIONS: &str = "\
|0|
GET /properties HTTP/1.1~Host: a~~|0|HTTP/1.1 200 OK~Content-Type: text/plain~Content-Length: 380~Survey-Prefix: 0~~%properties%0^
HEAD /properties HTTP/1.1~Host: a~~|0|HTTP/1.1 200 OK~Content-Type: text/plain~Content-Length: 380~Survey-Prefix: 0~~
PUT /Norder4/Dir0/Npix0.fits HTTP/1.1~Host: a~Content-Length: 2888~~%tile 4 0 1 2 3 5%GET /Norder3/Dir0/Npix0.fits HTTP/1.1~Host: a~~POST /publish HTTP/1.1~Host: a~~GET /Norder3/Dir0/Npix0.fits HTTP/1.1~Host: a~~|0|HTTP/1.1 201 Created~Content-Length: 0~Survey-Edits: 1~~HTTP/1.1 404 Not Found~Content-Type: text/plain~Content-Length: 10~Survey-Prefix: 0~~not found^HTTP/1.1 200 OK~Content-Type: text/plain~Content-Length: 12~Survey-Prefix: 1~~published 1^HTTP/1.1 200 OK~Content-Type: application/fits~Content-Length: 5760~Survey-Prefix: 1~~%file 3 0 -32768 -32768 3 -32768%
PUT /Norder4/Dir0/Npix0.fits HTTP/1.1~Host: a~~|14|HTTP/1.1 411 Length Required~Content-Length: 0~Connection: close~~
GET / HTTP/2.0~Host: a~~|14|HTTP/1.1 505 HTTP Version Not Supported~Content-Length: 0~Connection: close~~
GET /Moc.fits HTTP/1.1~~|14|HTTP/1.1 400 Bad Request~Content-Length: 0~Connection: close~~
GET /prop|4|
PUT /Norder4/Dir0/Npix0.fits HTTP/1.1~Host: a~Content-Length: 2888~~SIMPLE|4|
POST /unpin HTTP/1.1~Host: a~Connection: close~~GET /prop|0|HTTP/1.1 200 OK~Content-Type: text/plain~Content-Length: 9~Connection: close~~released^
POST /batch HTTP/1.1~Host: a~Content-Length: 11609~~put 0 2888^%tile 4 0 1 2 3 5%add 1 2888^%tile 4 1 7 7 7 7%replace 0 2888^%tile 4 0 9 9 9 9%add 4 2888^%tile 4 4 5 5 5 5%remove 4^GET /Norder4/Dir0/Npix0.fits HTTP/1.1~Host: a~~POST /publish HTTP/1.1~Host: a~~GET /Norder3/Dir0/Npix0.fits HTTP/1.1~Host: a~~GET /Norder4/Dir0/Npix0.fits HTTP/1.1~Host: a~~GET /Norder4/Dir0/Npix4.fits HTTP/1.1~Host: a~~GET /properties HTTP/1.1~Host: a~~|0|HTTP/1.1 200 OK~Content-Type: text/plain~Content-Length: 11~Survey-Edits: 5~~accepted 5^HTTP/1.1 404 Not Found~Content-Type: text/plain~Content-Length: 10~Survey-Prefix: 0~~not found^HTTP/1.1 200 OK~Content-Type: text/plain~Content-Length: 12~Survey-Prefix: 5~~published 5^HTTP/1.1 200 OK~Content-Type: application/fits~Content-Length: 5760~Survey-Prefix: 5~~%file 3 0 7 -32768 9 -32768%HTTP/1.1 200 OK~Content-Type: application/fits~Content-Length: 5760~Survey-Prefix: 5~~%file 4 0 9 9 9 9%HTTP/1.1 404 Not Found~Content-Type: text/plain~Content-Length: 10~Survey-Prefix: 5~~not found^HTTP/1.1 200 OK~Content-Type: text/plain~Content-Length: 380~Survey-Prefix: 5~~%properties%2^
POST /batch HTTP/1.1~Host: a~Content-Length: 5798~~put 0 2888^%tile 4 0 1 2 3 5%add 0 2888^%tile 4 0 9 9 9 9%POST /publish HTTP/1.1~Host: a~~GET /Norder4/Dir0/Npix0.fits HTTP/1.1~Host: a~~|0|HTTP/1.1 412 Precondition Failed~Content-Type: text/plain~Content-Length: 28~Survey-Edits: 0~~batch 1 precondition failed^HTTP/1.1 200 OK~Content-Type: text/plain~Content-Length: 10~Survey-Prefix: 0~~already 0^HTTP/1.1 404 Not Found~Content-Type: text/plain~Content-Length: 10~Survey-Prefix: 0~~not found^
POST /batch HTTP/1.1~Host: a~Content-Length: 2911~~put 0 2888^%tile 4 0 1 2 3 5%remove 3072^POST /publish HTTP/1.1~Host: a~~GET /Norder4/Dir0/Npix0.fits HTTP/1.1~Host: a~~|0|HTTP/1.1 422 Unprocessable Content~Content-Type: text/plain~Content-Length: 21~~batch refused 1 line^HTTP/1.1 200 OK~Content-Type: text/plain~Content-Length: 10~Survey-Prefix: 0~~already 0^HTTP/1.1 404 Not Found~Content-Type: text/plain~Content-Length: 10~Survey-Prefix: 0~~not found^
";

#[test]
fn serves_one_connection(rt: HostRuntime) -> Result<(), Fail> {
    all_go(&rt, "session|", SESSIONS, "||65536")?;
    all_go(&rt, "session|", SESSIONS, "||1000")
}
