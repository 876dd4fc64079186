//! Why a record isn't kept.

/// Why bytes weren't staged.
#[derive(Clone, Copy, Debug, PartialEq, Eq)]
pub enum StageStop {
    /// The WAL would have 2^62 bytes or more.
    Full,
    /// The disk failed.
    Failed,
}

/// Why a record wasn't committed. The disk failed.
#[derive(Clone, Copy, Debug, PartialEq, Eq)]
pub enum CommitStop {
    /// The WAL has no more records than it had.
    NotKept,
    /// After a crash it may have the record or not.
    Unsure,
}

/// The disk failed.
#[derive(Clone, Copy, Debug, PartialEq, Eq)]
pub struct DiskFailed;
