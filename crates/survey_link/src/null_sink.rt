//! A sink that drops what it takes.
ghost use Rattle.std.specs.Prelude.{◌≡◌, ◌<◌, ◌-◌, ◌^◌, None, length, min};
ghost use Rattle.survey_link.specs.Link.{parts_bytes};

use crate::faults::Failed;
use crate::parts::total;
use crate::sink::Sink;

/// A sink that drops what it takes, and never fails.
#[derive(Drop)]
pub struct NullSink;

impl NullSink {
    /// A sink.
    pub fn new() -> NullSink {
        NullSink
    }
}

impl Sink for NullSink {
    ghost held = { λ _. None };

    ghost flushed = { λ _. None };

    ghost faults = { λ _. 0 };

    ghost number = { λ _. None };

    fn write(&mut self, buf: &[u8]) -> Result<usize, Failed>
        requires { 0 < length buf.now }
        ensures whole { result ≡ Ok (length buf.now) }
    {
        Ok(buf.len())
    }

    fn write_parts(&mut self, parts: [&[u8]; 4]) -> Result<usize, Failed>
        requires { 0 < length (parts_bytes parts) }
        ensures whole { result ≡ Ok (min (length (parts_bytes parts.entry)) (2 ^ 64 - 1)) }
    {
        Ok(total(parts))
    }

    fn flush(&mut self) -> Result<(), Failed>
        ensures sure { result ≡ Ok (record {}) }
    {
        Ok(())
    }
}
