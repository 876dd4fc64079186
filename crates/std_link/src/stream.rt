//! The forms over std's readers and writers.
ghost use Rattle.std.specs.Prelude.{◌≡◌, ◌<◌, ◌≤◌, ◌↔◌, IsNone, IsErr, None, length, take, IfOk, OnOk, OnErr, Ok};
ghost use Rattle.std.specs.Io.KnownBytes.{Appends, Consumes, IsAtEnd, Keeps};
ghost use Rattle.std.specs.Io.Slices.{io_slices_bytes};
ghost use Rattle.survey_link.specs.Link.{next_count, parts_bytes};

use std::io;
use std::io::{ErrorKind, IoSlice, Read, Write};
use std::marker::Model;
use survey_link::{Failed, Sink, Source};

/// A reader or a writer of std, as a source or as a sink. Its bytes and its readings are opaque to the proof.
///
/// A call answered by `Failed` counts as a fault, also a write that takes nothing; an interrupted call is made again and
/// counts as none.
#[derive(Drop)]
pub struct StdStream<S> {
    stream: S,
    faults: u64,
    last: Option<io::Error>,
}

/// A reader of std, as a source.
pub type StreamSource<R> = StdStream<R>;

/// A writer of std, as a sink.
pub type StreamSink<W> = StdStream<W>;

impl<S> Model for StdStream<S> {
    ghost use Rattle.std.specs.Prelude.{◌≡◌, ◌↔◌, IsNone};
    ghost use Rattle.std_link.specs.Stream.{StreamState, stream_code};

    ghost Value = { StreamState S };

    ghost coded = { stream_code S.code };

    ghost view = { λ a. record { stream = a.stream; faults = a.faults } };

    ghost invariant = { λ a. IsNone a.last ↔ (a.faults ≡ 0) };
}

impl<S> StdStream<S> {
    /// A source over the reader, or a sink over the writer.
    pub fn new(stream: S) -> StdStream<S>
        ensures { result ≡ record { stream = stream; faults = 0 } }
    {
        StdStream {
            stream,
            faults: 0,
            last: None,
        }
    }

    /// What was answered by the last call that failed; `None` if and only if none did.
    pub fn last_error(&self) -> Option<io::Error>
        ensures { IsNone result ↔ (self.now.faults ≡ 0) }
    {
        self.last
    }

    // Counts a call that failed.
    fn fail<T>(&mut self, error: io::Error) -> Result<T, Failed>
        ensures failed { IsErr result }
        ensures kept { self.new.stream ≡ self.old.stream }
        ensures counted { self.new.faults ≡ next_count self.old.faults }
        ensures never_falls { self.old.faults ≤ self.new.faults }
    {
        self.faults = self.faults.saturating_add(1);
        self.last = Some(error);
        Err(Failed)
    }
}

impl<R: Read> Source for StdStream<R> {
    ghost left = { λ _. None };

    ghost readings = { λ _. None };

    ghost faults = { λ s. s.faults };

    ghost number = { λ _. None };

    fn read(&mut self, buf: &mut [u8]) -> Result<usize, Failed>
        requires { 0 < length buf.old }
        ensures count { IfOk result (λ m. m ≤ length buf.old) }
        ensures given { IfOk result (λ m. Consumes (R.remaining self.old.stream) (R.remaining self.new.stream) (take m buf.new)) }
        ensures end { result ≡ Ok 0 → IsAtEnd (R.remaining self.new.stream) }
        ensures kept { OnErr result (Keeps (R.remaining self.old.stream) (R.remaining self.new.stream)) }
        ensures sound { OnOk result (self.new.faults ≡ self.old.faults) }
        ensures failed { OnErr result (self.new.faults ≡ next_count self.old.faults) }
        ensures never_falls { self.old.faults ≤ self.new.faults }
    {
        for _ in 0..u64::MAX {
            match self.stream.read(buf) {
                Ok(count) => return Ok(count),
                Err(error) => {
                    if error.kind() != ErrorKind::Interrupted {
                        return self.fail(error);
                    }
                }
            }
        }
        self.fail(io::Error::from(ErrorKind::Interrupted))
    }
}

impl<W: Write> Sink for StdStream<W> {
    ghost held = { λ _. None };

    ghost flushed = { λ _. None };

    ghost faults = { λ s. s.faults };

    ghost number = { λ _. None };

    fn write(&mut self, buf: &[u8]) -> Result<usize, Failed>
        requires { 0 < length buf.now }
        ensures some { IfOk result (λ m. 0 < m) }
        ensures count { IfOk result (λ m. m ≤ length buf.now) }
        ensures given { IfOk result (λ m. Appends (W.contents self.old.stream) (W.contents self.new.stream) (take m buf.now)) }
        ensures kept { OnErr result (Keeps (W.contents self.old.stream) (W.contents self.new.stream)) }
        ensures sound { OnOk result (self.new.faults ≡ self.old.faults) }
        ensures failed { OnErr result (self.new.faults ≡ next_count self.old.faults) }
        ensures never_falls { self.old.faults ≤ self.new.faults }
    {
        for _ in 0..u64::MAX {
            match self.stream.write(buf) {
                Ok(0) => return self.fail(io::Error::from(ErrorKind::WriteZero)),
                Ok(count) => return Ok(count),
                Err(error) => {
                    if error.kind() != ErrorKind::Interrupted {
                        return self.fail(error);
                    }
                }
            }
        }
        self.fail(io::Error::from(ErrorKind::Interrupted))
    }

    // By one call of the writer's `write_vectored`.
    fn write_parts(&mut self, parts: [&[u8]; 4]) -> Result<usize, Failed>
        requires { 0 < length (parts_bytes parts) }
        ensures some { IfOk result (λ m. 0 < m) }
        ensures count { IfOk result (λ m. m ≤ length (parts_bytes parts.entry)) }
        ensures given { IfOk result (λ m. Appends (W.contents self.old.stream) (W.contents self.new.stream) (take m (parts_bytes parts.entry))) }
        ensures kept { OnErr result (Keeps (W.contents self.old.stream) (W.contents self.new.stream)) }
        ensures sound { OnOk result (self.new.faults ≡ self.old.faults) }
        ensures failed { OnErr result (self.new.faults ≡ next_count self.old.faults) }
        ensures never_falls { self.old.faults ≤ self.new.faults }
    {
        let slices = io_slices(parts);
        for _ in 0..u64::MAX {
            match self.stream.write_vectored(&slices) {
                Ok(0) => return self.fail(io::Error::from(ErrorKind::WriteZero)),
                Ok(count) => return Ok(count),
                Err(error) => {
                    if error.kind() != ErrorKind::Interrupted {
                        return self.fail(error);
                    }
                }
            }
        }
        self.fail(io::Error::from(ErrorKind::Interrupted))
    }

    fn flush(&mut self) -> Result<(), Failed>
        ensures kept { Keeps (W.contents self.old.stream) (W.contents self.new.stream) }
        ensures sound { OnOk result (self.new.faults ≡ self.old.faults) }
        ensures failed { OnErr result (self.new.faults ≡ next_count self.old.faults) }
        ensures never_falls { self.old.faults ≤ self.new.faults }
    {
        for _ in 0..u64::MAX {
            match self.stream.flush() {
                Ok(()) => return Ok(()),
                Err(error) => {
                    if error.kind() != ErrorKind::Interrupted {
                        return self.fail(error);
                    }
                }
            }
        }
        self.fail(io::Error::from(ErrorKind::Interrupted))
    }
}

// The parts, as std's vectored writes take them.
fn io_slices(parts: [&[u8]; 4]) -> [IoSlice<'_>; 4]
    ensures { io_slices_bytes result ≡ parts_bytes parts.entry }
{
    let [first, second, third, fourth] = parts;
    [
        IoSlice::new(first),
        IoSlice::new(second),
        IoSlice::new(third),
        IoSlice::new(fourth),
    ]
}
