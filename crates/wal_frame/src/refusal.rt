//! Why a write-ahead log is refused.
ghost use Rattle.std.specs.Prelude.{◌≡◌};
ghost use Rattle.wal_frame.specs.Refusal.{reason_number};

/// Why a write-ahead log is refused. The first four are told by its bytes alone, the last two by whoever replays it.
#[derive(Clone, Copy, Debug, PartialEq, Eq)]
pub enum Reason {
    /// Its header isn't one.
    NoHeader,
    /// It is of another version.
    OtherVersion,
    /// It belongs to another survey.
    OtherSurvey,
    /// A record that is there whole has a kind, lengths or a payload that no record has.
    Malformed,
    /// An edit of a batch can't be accepted after those before it.
    BatchFault,
    /// A publication is of no batch's end above the one before.
    NoTip,
}

impl Reason {
    /// The number by which a message names it.
    pub fn number(self) -> u8
        ensures { result ≡ reason_number self }
    {
        match self {
            Reason::NoHeader => 1,
            Reason::OtherVersion => 2,
            Reason::OtherSurvey => 3,
            Reason::Malformed => 4,
            Reason::BatchFault => 5,
            Reason::NoTip => 6,
        }
    }
}

/// Why a write-ahead log is refused, and where.
#[derive(Clone, Copy, Debug, PartialEq, Eq)]
pub struct WalRefusal {
    pub reason: Reason,
    /// The offset in the WAL of the header's field, or of the record's gate.
    pub offset: u64,
}

/// Why no record was read.
#[derive(Clone, Copy, Debug, PartialEq, Eq)]
pub enum ReadStop {
    /// The WAL is refused.
    Refused(WalRefusal),
    /// There was no memory.
    OutOfMemory,
}
