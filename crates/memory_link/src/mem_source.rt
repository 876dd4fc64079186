//! A source in memory that fails at given calls.
ghost use Rattle.std.specs.Prelude.{◌≡◌, ◌<◌, ◌≤◌, ◌↔◌, None, Some, Contains, length, take, IfOk, OnErr, IsErr};
ghost use Rattle.std.specs.Io.KnownBytes.{Consumes, IsAtEnd};
ghost use Rattle.survey_link.specs.Link.{visible_count, readings_after};
ghost use Rattle.memory_link.specs.Memory.{piece_of, after_read, after_failed_read};

use crate::calls::Calls;
use std::alloc::{AllocError, Global};
use std::marker::Model;
use survey_link::{Failed, Source};

/// A source of given bytes, which it gives in pieces, and which fails at given calls.
#[derive(Drop)]
pub struct MemSource {
    bytes: Vec<u8>,
    at: usize,
    piece: usize,
    calls: Calls,
    // Of its connection, where it came through a door.
    number: Option<usize>,
}

impl Model for MemSource {
    ghost use Rattle.std.specs.Prelude.{◌≤◌, ◌<◌, drop, length};
    ghost use Rattle.memory_link.specs.Memory.{SourceState};

    ghost Value = { SourceState };

    ghost view = { λ a. record {
      number = a.number;
      unread = drop a.at a.bytes.items;
      piece = a.piece;
      fails = a.calls.fails.items;
      calls = a.calls.made;
      faults = a.calls.faults;
    } };

    ghost invariant = { λ a. (a.at ≤ length a.bytes.items) × (0 < a.piece) };
}

impl MemSource {
    /// A source of these bytes. A read gives at most `piece` of them; the reads numbered in `fails`, from 0, fail.
    pub fn new(bytes: Vec<u8>, piece: usize, fails: Vec<u64>) -> MemSource
        requires { 0 < piece }
        ensures { result ≡ record {
          number = None;
          unread = bytes.items;
          piece = piece;
          fails = fails.items;
          calls = 0;
          faults = 0;
        } }
    {
        MemSource {
            bytes,
            at: 0,
            piece,
            calls: Calls::new(fails),
            number: None,
        }
    }

    /// A source in the same state, of the connection with that number.
    pub(crate) fn numbered(&self, alloc: Global, number: usize) -> Result<MemSource, AllocError>
        ensures { IfOk result (λ copy. copy ≡ record self.now { number = Some number }) }
    {
        let bytes = Vec::from_slice(alloc, self.bytes.as_slice())?;
        let calls = self.calls.copy(alloc)?;
        Ok(MemSource {
            bytes,
            at: self.at,
            piece: self.piece,
            calls,
            number: Some(number),
        })
    }
}

impl Source for MemSource {
    ghost left = { λ s. Some s.unread };

    ghost readings = { λ s. visible_count s.calls };

    ghost faults = { λ s. s.faults };

    ghost number = { λ s. s.number };

    fn read(&mut self, buf: &mut [u8]) -> Result<usize, Failed>
        requires { 0 < length buf.old }
        ensures fails { IsErr result ↔ Contains self.old.fails self.old.calls }
        ensures piece { IfOk result (λ m. m ≡ piece_of self.old (length buf.old)) }
        ensures given { IfOk result (λ m. self.new ≡ after_read m self.old) }
        ensures refused { OnErr result (self.new ≡ after_failed_read self.old) }
        ensures count { IfOk result (λ m. m ≤ length buf.old) }
        ensures taken { IfOk result (λ m. Consumes (Some self.old.unread) (Some self.new.unread) (take m buf.new)) }
        ensures end { result ≡ Ok 0 → IsAtEnd (Some self.new.unread) }
        ensures counted { visible_count self.new.calls ≡ readings_after 1 (visible_count self.old.calls) }
        ensures never_falls { self.old.faults ≤ self.new.faults }
    {
        self.calls.make()?;
        let rest = &self.bytes[self.at..];
        let count = rest.len().min(self.piece).min(buf.len());
        buf[..count].copy_from_slice(&rest[..count]);
        self.at += count;
        Ok(count)
    }
}
