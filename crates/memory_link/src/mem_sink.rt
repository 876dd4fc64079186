//! A sink in memory that fails at given calls.
ghost use Rattle.std.specs.Prelude.{◌≡◌, ◌<◌, ◌≤◌, ◌↔◌, ◌++◌, [], None, Some, Contains, length, take, vec_len, vec_capacity, IfOk, OnOk, OnErr, IsErr};
ghost use Rattle.survey_link.specs.Link.{parts_bytes};
ghost use Rattle.memory_link.specs.Memory.{WriteFails, taken_of, after_write, after_flush, after_failed_write};

use crate::calls::Calls;
use std::alloc::{AllocError, Global};
use std::marker::Model;
use survey_link::{Failed, Sink};

/// A sink that holds what it takes, up to a given room, and which fails at given calls.
#[derive(Drop)]
pub struct MemSink {
    bytes: Vec<u8>,
    room: usize,
    // How many of the bytes were flushed.
    flush_end: usize,
    calls: Calls,
    // Of its connection, where it came through a door.
    number: Option<usize>,
}

impl Model for MemSink {
    ghost use Rattle.std.specs.Prelude.{◌≤◌, take, vec_len, vec_capacity};
    ghost use Rattle.memory_link.specs.Memory.{SinkState};

    ghost Value = { SinkState };

    ghost view = { λ a. record {
      number = a.number;
      written = a.bytes.items;
      flushed = take a.flush_end a.bytes.items;
      room = a.room;
      fails = a.calls.fails.items;
      calls = a.calls.made;
      faults = a.calls.faults;
    } };

    ghost invariant = { λ a. (vec_len a.bytes ≤ a.room) × (a.room ≤ vec_capacity a.bytes) × (a.flush_end ≤ vec_len a.bytes) };
}

impl MemSink {
    /// A sink with room for so many bytes, all reserved here, so that no write allocates. The calls numbered in `fails`,
    /// writes, by parts or not, and flushes counted together from 0, fail; so does a write where no room is left.
    ///
    /// # Errors
    ///
    /// `AllocError` where there is no memory for the room.
    pub fn new(alloc: Global, room: usize, fails: Vec<u64>) -> Result<MemSink, AllocError>
        ensures { IfOk result (λ sink. sink ≡ record {
          number = None;
          written = [];
          flushed = [];
          room = room;
          fails = fails.items;
          calls = 0;
          faults = 0;
        }) }
    {
        let bytes = Vec::with_capacity(alloc, room)?;
        Ok(MemSink {
            bytes,
            room,
            flush_end: 0,
            calls: Calls::new(fails),
            number: None,
        })
    }

    /// The bytes written.
    pub fn bytes(&self) -> &[u8]
        ensures { result.now ≡ self.now.written }
    {
        &self.bytes
    }

    /// A sink in the same state, with room of its own, of the connection with that number.
    pub(crate) fn numbered(&self, alloc: Global, number: usize) -> Result<MemSink, AllocError>
        ensures { IfOk result (λ copy. copy ≡ record self.now { number = Some number }) }
    {
        let mut bytes = Vec::with_capacity(alloc, self.room)?;
        bytes.extend_from_slice(self.bytes.as_slice())?;
        let calls = self.calls.copy(alloc)?;
        Ok(MemSink {
            bytes,
            room: self.room,
            flush_end: self.flush_end,
            calls,
            number: Some(number),
        })
    }
}

impl Sink for MemSink {
    ghost held = { λ s. Some s.written };

    ghost flushed = { λ s. Some s.flushed };

    ghost faults = { λ s. s.faults };

    ghost number = { λ s. s.number };

    fn write(&mut self, buf: &[u8]) -> Result<usize, Failed>
        requires { 0 < length buf.now }
        ensures fails { IsErr result ↔ WriteFails self.old }
        ensures count { IfOk result (λ m. m ≡ taken_of self.old (length buf.now)) }
        ensures given { IfOk result (λ m. self.new ≡ after_write (take m buf.now) self.old) }
        ensures refused { OnErr result (self.new ≡ after_failed_write self.old) }
        ensures some { IfOk result (λ m. 0 < m) }
        ensures never_falls { self.old.faults ≤ self.new.faults }
    {
        let left = self.room - self.bytes.len();
        self.calls.make_if(left > 0)?;
        let count = buf.len().min(left);
        self.bytes.extend_from_slice(&buf[..count]).unwrap();
        Ok(count)
    }

    fn write_parts(&mut self, parts: [&[u8]; 4]) -> Result<usize, Failed>
        requires { 0 < length (parts_bytes parts) }
        ensures fails { IsErr result ↔ WriteFails self.old }
        ensures count { IfOk result (λ m. m ≡ taken_of self.old (length (parts_bytes parts.entry))) }
        ensures given { IfOk result (λ m. self.new ≡ after_write (take m (parts_bytes parts.entry)) self.old) }
        ensures refused { OnErr result (self.new ≡ after_failed_write self.old) }
        ensures some { IfOk result (λ m. 0 < m) }
        ensures never_falls { self.old.faults ≤ self.new.faults }
    {
        let held = self.bytes.len();
        self.calls.make_if(held < self.room)?;
        extend_within(&mut self.bytes, self.room, parts);
        Ok(self.bytes.len() - held)
    }

    fn flush(&mut self) -> Result<(), Failed>
        ensures fails { IsErr result ↔ Contains self.old.fails self.old.calls }
        ensures flushed { OnOk result (self.new ≡ after_flush self.old) }
        ensures refused { OnErr result (self.new ≡ after_failed_write self.old) }
        ensures never_falls { self.old.faults ≤ self.new.faults }
    {
        self.calls.make()?;
        self.flush_end = self.bytes.len();
        Ok(())
    }
}

// Appends the bytes of the parts for which there is room.
fn extend_within(bytes: &mut Vec<u8>, room: usize, parts: [&[u8]; 4])
    requires held { vec_len bytes.old ≤ room }
    requires reserved { room ≤ vec_capacity bytes.old }
    ensures bytes { bytes.new.items ≡ take room (bytes.old.items ++ parts_bytes parts.entry) }
    ensures capacity { vec_capacity bytes.old ≤ vec_capacity bytes.new }
{
    for part in parts {
        let count = part.len().min(room - bytes.len());
        bytes.extend_from_slice(&part[..count]).unwrap();
    }
}
