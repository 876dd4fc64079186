//! How a command ends.
ghost use Rattle.std.specs.Prelude.{◌≡◌};
ghost use Rattle.command_output.specs.Status.{number_of};

/// How a command ends. A fault of an end of the program says that the end's count of faults rose.
#[derive(Clone, Copy, Debug, PartialEq, Eq)]
pub enum Status {
    /// The command is done.
    Done,
    /// The words ask for no command.
    Usage,
    /// The survey's description is absent, or has a fault.
    BadConf,
    /// The file of a leaf is refused, or there are too many leaves.
    BadLeaves,
    /// The input ends too early.
    Cut,
    /// The source failed.
    ReadFault,
    /// The sink failed.
    WriteFault,
    /// The shelf failed.
    ShelfFault,
    /// A door failed.
    DoorFault,
    /// The shelf differs from the survey.
    Differs,
    /// No leaf lies at or under the asked tile.
    NoLeaf,
    /// There was no memory.
    OutOfMemory,
    /// The input goes on after all that one run takes.
    Spent,
    /// The asked tile is no cell of its order, or a record's number is no leaf's.
    OutOfRange,
    /// The framing of a request is refused.
    Refused,
    /// A line of a catalogue has a fault.
    BadRow,
    /// A record about past states is malformed.
    BadRecord,
    /// A peer's reply is malformed.
    BadReply,
    /// What a peer sent as the properties is refused.
    BadProperties,
    /// What a peer sent as the coverage is refused.
    BadCover,
    /// A peer has too many leaves.
    TooLarge,
    /// What a peer sent as a leaf is refused.
    BadLeaf,
    /// The properties or the mosaic that a peer sent aren't those of its leaves.
    OtherFiles,
}

impl Status {
    /// The number that the program ends with.
    pub fn number(self) -> u8
        ensures { result ≡ number_of self }
    {
        match self {
            Status::Done => 0,
            Status::Usage => 1,
            Status::BadConf => 2,
            Status::BadLeaves => 3,
            Status::Cut => 4,
            Status::ReadFault => 5,
            Status::WriteFault => 6,
            Status::ShelfFault => 7,
            Status::DoorFault => 8,
            Status::Differs => 9,
            Status::NoLeaf => 10,
            Status::OutOfMemory => 11,
            Status::Spent => 12,
            Status::OutOfRange => 13,
            Status::Refused => 14,
            Status::BadRow => 16,
            Status::BadRecord => 17,
            Status::BadReply => 21,
            Status::BadProperties => 22,
            Status::BadCover => 23,
            Status::TooLarge => 24,
            Status::BadLeaf => 25,
            Status::OtherFiles => 26,
        }
    }
}
