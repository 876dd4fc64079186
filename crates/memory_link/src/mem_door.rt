//! A door in memory that fails at given calls.
ghost use Rattle.std.specs.Prelude.{◌≡◌, ◌≤◌, ◌↔◌, [], Some, Contains, length, slice_get, IfOk, IsErrOf, MatchOption, option_copied, option_map};
ghost use Rattle.survey_link.specs.Door.{Takes, NoneWaits, given_back};
ghost use Rattle.memory_link.specs.Memory.{connection_of, connections_of, numbered, after_accept, after_none, after_failed_accept, after_memory_fault, after_done};

use crate::calls::Calls;
use crate::mem_sink::MemSink;
use crate::mem_source::MemSource;
use std::alloc::{AllocError, Global};
use std::marker::Model;
use survey_link::{Door, DoorFault};

/// A door through which given connections come, in order, and which fails at given accepts.
#[derive(Drop)]
pub struct MemDoor {
    alloc: Global,
    connections: Vec<(MemSource, MemSink)>,
    next: usize,
    returned: Vec<(MemSource, MemSink)>,
    calls: Calls,
    // How many accepts found no memory.
    memory_faults: u64,
}

impl Model for MemDoor {
    ghost use Rattle.std.specs.Prelude.{◌≤◌, length, vec_len, vec_capacity};
    ghost use Rattle.memory_link.specs.Memory.{DoorState};

    ghost Value = { DoorState };

    ghost view = { λ a. record {
      all = a.connections.items;
      next = a.next;
      returned = a.returned.items;
      fails = a.calls.fails.items;
      calls = a.calls.made;
      faults = a.calls.faults;
      memory_faults = a.memory_faults;
    } };

    ghost invariant = { λ a. (a.next ≤ length a.connections.items) × (vec_len a.returned ≤ a.next) × (length a.connections.items ≤ vec_capacity a.returned) };
}

impl MemDoor {
    /// A door through which these connections come from the front, and then none. The accepts numbered in `fails`, from 0,
    /// fail. Room for those given back is reserved here.
    ///
    /// # Errors
    ///
    /// `AllocError` where there is no memory for that room.
    pub fn new(
        alloc: Global,
        connections: Vec<(MemSource, MemSink)>,
        fails: Vec<u64>,
    ) -> Result<MemDoor, AllocError>
        ensures { IfOk result (λ door. door ≡ record {
          all = connections.items;
          next = 0;
          returned = [];
          fails = fails.items;
          calls = 0;
          faults = 0;
          memory_faults = 0;
        }) }
    {
        let returned = Vec::with_capacity(alloc, connections.len())?;
        Ok(MemDoor {
            alloc,
            connections,
            next: 0,
            returned,
            calls: Calls::new(fails),
            memory_faults: 0,
        })
    }

    /// The connection that was given back as the `i`-th, from 0; `None` if and only if `i` is past the last.
    pub fn given(&self, i: usize) -> Option<&(MemSource, MemSink)>
        ensures { option_copied result ≡ slice_get self.now.returned i }
    {
        ends_at(&self.returned, i)
    }
}

impl Door for MemDoor {
    type In = MemSource;

    type Out = MemSink;

    ghost connections = { λ s. Some (connections_of s) };

    ghost faults = { λ s. s.faults };

    ghost memory_faults = { λ s. s.memory_faults };

    fn accept(&mut self) -> Result<Option<(MemSource, MemSink)>, DoorFault>
        ensures fails { IsErrOf result DoorFault.Failed ↔ Contains self.old.fails self.old.calls }
        ensures next { IfOk result (λ next. next ≡ option_map (numbered self.old.next) (slice_get self.old.all self.old.next)) }
        ensures given { IfOk result (λ next. MatchOption next (self.new ≡ after_none self.old) (λ _. self.new ≡ after_accept self.old)) }
        ensures told { IfOk result (λ next. MatchOption next
            (NoneWaits (Some (connections_of self.old)) × (Some (connections_of self.new) ≡ Some (connections_of self.old)))
            (λ ends. Takes (Some (connections_of self.old)) (Some (connections_of self.new)) (connection_of ends))) }
        ensures refused { IsErrOf result DoorFault.Failed → self.new ≡ after_failed_accept self.old }
        ensures out_of_memory { IsErrOf result DoorFault.OutOfMemory → (self.new ≡ after_memory_fault self.old) × (self.old.memory_faults ≤ self.new.memory_faults) }
        ensures never_falls { self.old.faults ≤ self.new.faults }
    {
        if self.calls.fails_next() {
            self.calls.fail();
            return Err(DoorFault::Failed);
        }
        match ends_at(&self.connections, self.next) {
            None => {
                self.calls.count();
                Ok(None)
            }
            Some(ends) => match numbered(self.alloc, self.next, ends) {
                Ok(numbered) => {
                    self.calls.count();
                    self.next += 1;
                    Ok(Some(numbered))
                }
                Err(_) => {
                    self.memory_faults = self.memory_faults.saturating_add(1);
                    Err(DoorFault::OutOfMemory)
                }
            },
        }
    }

    fn faults(&self) -> u64 {
        self.calls.faults
    }

    fn done(&mut self, input: MemSource, output: MemSink)
        ensures done { self.new ≡ after_done (input, output) self.old }
        ensures told { connections_of self.new ≡ given_back (connection_of (input, output)) (connections_of self.old) }
    {
        if self.returned.len() < self.next {
            self.returned.push_reserved((input, output));
        }
    }
}

/// The `i`-th connection, from 0.
fn ends_at(connections: &[(MemSource, MemSink)], i: usize) -> Option<&(MemSource, MemSink)>
    ensures { option_copied result ≡ slice_get connections.now i }
{
    connections.get(i)
}

/// A connection in the same state, with that number.
fn numbered(
    alloc: Global,
    number: usize,
    ends: &(MemSource, MemSink),
) -> Result<(MemSource, MemSink), AllocError>
    ensures { IfOk result (λ copy. copy ≡ numbered number ends.now) }
{
    let source = ends.0.numbered(alloc, number)?;
    let sink = ends.1.numbered(alloc, number)?;
    Ok((source, sink))
}
