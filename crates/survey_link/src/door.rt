//! Where connections come through.
ghost use Rattle.std.specs.Prelude.{◌≡◌, ℕ, ◌≤◌, Option, IfOk, OnOk, OnErr, IsErrOf, MatchOption, option_map};
ghost use Rattle.survey_link.specs.Link.{Rises};
ghost use Rattle.survey_link.specs.Door.{Connections, Takes, NoneWaits, given_back};

use crate::faults::DoorFault;
use crate::sink::Sink;
use crate::source::Source;

/// Where connections come through, each a source and a sink.
pub trait Door {
    /// What a connection's peer sends.
    type In: Source + Drop;

    /// What a connection's peer is sent.
    type Out: Sink + Drop;

    /// The connections to come, taken and given back, where the proof can see them.
    ghost connections: { Self → Option Connections };

    /// How often it has failed. The count never falls.
    ghost faults: { Self → ℕ };

    /// How often there was no memory to accept a connection. The count never falls.
    ghost memory_faults: { Self → ℕ };

    /// The next connection; `None` if and only if none is left. Its ends have the same number, which no other connection of
    /// the door has. Both where the proof can see the connections.
    ///
    /// # Errors
    ///
    /// `DoorFault::Failed` if and only if the count of faults rose, `DoorFault::OutOfMemory` if and only if that of memory
    /// faults did, except for a count that is already at its type's maximum. The connections stay.
    fn accept(&mut self) -> Result<Option<(Self::In, Self::Out)>, DoorFault>
        ensures next { IfOk result (λ next. MatchOption next
            (NoneWaits (connections self.old) × (connections self.new ≡ connections self.old))
            (λ taken. Takes (connections self.old) (connections self.new) (record {
              source = Self.In.number taken.0;
              sink = Self.Out.number taken.1;
              told = record {
                unread = Self.In.left taken.0;
                written = Self.Out.held taken.1;
                flushed = Self.Out.flushed taken.1;
                source_faults = Self.In.faults taken.0;
                sink_faults = Self.Out.faults taken.1;
              };
            }))) }
        ensures kept { OnErr result (connections self.new ≡ connections self.old) }
        ensures sound { OnOk result ((faults self.new ≡ faults self.old) × (memory_faults self.new ≡ memory_faults self.old)) }
        ensures failed { IsErrOf result DoorFault.Failed → Rises (faults self.old) (faults self.new) × (memory_faults self.new ≡ memory_faults self.old) }
        ensures wanted { IsErrOf result DoorFault.OutOfMemory → Rises (memory_faults self.old) (memory_faults self.new) × (faults self.new ≡ faults self.old) }
        ensures never_falls { faults self.old ≤ faults self.new };

    /// How often the door has failed.
    fn faults(&self) -> u64
        ensures { result ≡ faults self.now };

    /// Takes a connection back. A door whose connections the proof can see keeps it if fewer were given back than taken,
    /// and else drops it.
    fn done(&mut self, input: Self::In, output: Self::Out)
        ensures returned { connections self.new ≡ option_map (given_back (record {
          source = Self.In.number input;
          sink = Self.Out.number output;
          told = record {
            unread = Self.In.left input;
            written = Self.Out.held output;
            flushed = Self.Out.flushed output;
            source_faults = Self.In.faults input;
            sink_faults = Self.Out.faults output;
          };
        })) (connections self.old) }
        ensures faults { faults self.new ≡ faults self.old }
        ensures memory_faults { memory_faults self.new ≡ memory_faults self.old };
}
