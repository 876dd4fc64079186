//! A source in memory that never fails.
ghost use Rattle.std.specs.Prelude.{◌≡◌, ◌<◌, ◌≤◌, None, Some, length, take, min, IfOk, IsOk};
ghost use Rattle.std.specs.Io.KnownBytes.{Consumes};
ghost use Rattle.survey_link.specs.Link.{visible_count, readings_after};
ghost use Rattle.memory_link.specs.Memory.{after_sure_read};

use std::marker::Model;
use survey_link::{Failed, Source};

/// A source of given bytes that never fails.
#[derive(Drop)]
pub struct SureSource {
    bytes: Vec<u8>,
    at: usize,
    calls: u64,
}

impl Model for SureSource {
    ghost use Rattle.std.specs.Prelude.{◌≤◌, drop, length};
    ghost use Rattle.memory_link.specs.Memory.{SureState};

    ghost Value = { SureState };

    ghost view = { λ a. record { unread = drop a.at a.bytes.items; calls = a.calls } };

    ghost invariant = { λ a. a.at ≤ length a.bytes.items };
}

impl SureSource {
    /// A source of these bytes.
    pub fn new(bytes: Vec<u8>) -> SureSource
        ensures { result ≡ record { unread = bytes.items; calls = 0 } }
    {
        SureSource {
            bytes,
            at: 0,
            calls: 0,
        }
    }
}

impl Source for SureSource {
    ghost left = { λ s. Some s.unread };

    ghost readings = { λ s. visible_count s.calls };

    ghost faults = { λ _. 0 };

    ghost number = { λ _. None };

    fn read(&mut self, buf: &mut [u8]) -> Result<usize, Failed>
        requires { 0 < length buf.old }
        ensures sure { IsOk result }
        ensures all { IfOk result (λ m. m ≡ min (length self.old.unread) (length buf.old)) }
        ensures given { IfOk result (λ m. self.new ≡ after_sure_read m self.old) }
        ensures count { IfOk result (λ m. m ≤ length buf.old) }
        ensures taken { IfOk result (λ m. Consumes (Some self.old.unread) (Some self.new.unread) (take m buf.new)) }
        ensures counted { visible_count self.new.calls ≡ readings_after 1 (visible_count self.old.calls) }
    {
        self.calls = self.calls.saturating_add(1);
        let rest = &self.bytes[self.at..];
        let count = rest.len().min(buf.len());
        buf[..count].copy_from_slice(&rest[..count]);
        self.at += count;
        Ok(count)
    }
}
