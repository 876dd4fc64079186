//! Ends over readers and writers of the standard library.
use std::alloc::Global;
use std::io;
use std::io::{ErrorKind, Read, Write};
use std_link::{StreamSink, StreamSource};
use survey_link::{Failed, Sink, Source, write_all_parts, write_whole};

// A stream that fails, or takes nothing.
#[derive(Drop)]
struct Broken;

impl Read for Broken {
    fn read(&mut self, _buf: &mut [u8]) -> io::Result<usize> {
        Err(ErrorKind::ConnectionReset.into())
    }
}

impl Write for Broken {
    fn write(&mut self, _buf: &[u8]) -> io::Result<usize> {
        Ok(0)
    }

    fn flush(&mut self) -> io::Result<()> {
        Err(ErrorKind::ConnectionReset.into())
    }
}

// A stream whose first call is interrupted, whose reads then give one byte and whose writes take one. It counts what is
// flushed.
#[derive(Drop)]
struct Bumpy {
    bumped: bool,
    taken: Vec<u8>,
    flushes: u32,
}

impl Bumpy {
    fn new(alloc: Global) -> Bumpy {
        Bumpy {
            bumped: false,
            taken: Vec::new(alloc),
            flushes: 0,
        }
    }
}

impl Write for Bumpy {
    fn write(&mut self, buf: &[u8]) -> io::Result<usize> {
        if !self.bumped {
            self.bumped = true;
            return Err(ErrorKind::Interrupted.into());
        }
        match buf.first() {
            None => Ok(0),
            Some(first) => {
                self.taken.push(*first)?;
                Ok(1)
            }
        }
    }

    fn flush(&mut self) -> io::Result<()> {
        self.flushes = self.flushes.saturating_add(1);
        Ok(())
    }
}

impl Read for Bumpy {
    fn read(&mut self, buf: &mut [u8]) -> io::Result<usize> {
        if !self.bumped {
            self.bumped = true;
            return Err(ErrorKind::Interrupted.into());
        }
        match buf.first_mut() {
            None => Ok(0),
            Some(first) => {
                *first = b'x';
                Ok(1)
            }
        }
    }
}

// Whether there is an error of this kind.
fn is_of_kind(error: Option<io::Error>, kind: ErrorKind) -> bool {
    match error {
        Some(error) => error.kind() == kind,
        None => false,
    }
}

#[test]
fn streams_of_the_outside(rt: HostRuntime) {
    let mut broken = StreamSource::new(Broken);
    assert!(rt; broken.last_error().is_none());
    assert!(rt; broken.read(&mut [0; 2]).is_err());
    assert!(rt; is_of_kind(broken.last_error(), ErrorKind::ConnectionReset));
    let mut buf = [0; 2];
    let mut bumpy = StreamSource::new(Bumpy::new(rt.alloc()));
    assert!(rt; bumpy.read(&mut buf).is_ok_and(|count| count == 1));
    assert!(rt; buf[0] == b'x' && buf[1] == 0);
}

// Writes both ways and flushes.
fn greet_world<K: Sink>(sink: &mut K) -> Result<(), Failed> {
    write_whole(sink, b"hello")?;
    write_all_parts(sink, [b", ", b"", b"world", b"!"])?;
    sink.flush()
}

#[test]
fn streams_to_the_outside(rt: HostRuntime) {
    let mut bumpy = Bumpy::new(rt.alloc());
    assert!(rt; greet_world(&mut StreamSink::new(&mut bumpy)).is_ok());
    assert!(rt; bumpy.taken.as_slice() == b"hello, world!".as_slice());
    assert!(rt; bumpy.flushes == 1);
    let mut broken = StreamSink::new(Broken);
    assert!(rt; broken.last_error().is_none());
    assert!(rt; write_whole(&mut broken, b"hello").is_err());
    assert!(rt; is_of_kind(broken.last_error(), ErrorKind::WriteZero));
    assert!(rt; broken.write_parts([b"", b"h", b"", b""]).is_err());
    assert!(rt; broken.flush().is_err());
    assert!(rt; is_of_kind(broken.last_error(), ErrorKind::ConnectionReset));
}
