//! Records.
use edit_journal::Edit;

/// A record of a write-ahead log.
#[derive(Drop)]
pub enum Record {
    /// A batch of edits that was accepted.
    Batch(Vec<Edit>),
    /// A publication of the first `tip` edits.
    Publication {
        /// How many edits there were.
        tip: u32,
    },
}
