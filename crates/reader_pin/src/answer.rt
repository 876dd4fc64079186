//! What a board answers.
use edit_journal::EditFault;
use std::alloc::AllocError;
use thiserror::Error;

/// An edit was accepted.
#[derive(Clone, Copy, Debug, PartialEq, Eq)]
pub struct Accepted {
    /// How many edits there are then.
    pub number: u32,
    /// Whether the leaf was absent before it.
    pub created: bool,
}

/// Why an edit wasn't accepted.
#[derive(Clone, Copy, Debug, PartialEq, Eq, Error)]
pub enum BoardRefusal {
    /// The edit has a fault.
    #[error("after {edits} edits: {fault}")]
    Fault {
        /// The fault of the edit.
        fault: EditFault,
        /// How many edits the state that judged it has.
        edits: u32,
    },
    /// There was no memory for the next state.
    #[error("out of memory")]
    OutOfMemory,
}

impl From<AllocError> for BoardRefusal {
    ghost use Rattle.std.specs.Prelude.{◌≡◌};
    ghost use Rattle.reader_pin.specs.declared.answer.BoardRefusal.TheVariants.{OutOfMemory};

    ghost from_gives = { λ _ refusal. refusal ≡ OutOfMemory };

    fn from(_: AllocError) -> BoardRefusal {
        BoardRefusal::OutOfMemory
    }
}

/// Why a batch wasn't accepted.
#[derive(Clone, Copy, Debug, PartialEq, Eq, Error)]
pub enum BoardBatch {
    /// An edit of the batch has a fault.
    #[error("after {edits} edits, edit {at} of the batch: {fault}")]
    Fault {
        /// The place in the batch, from 0, of the first edit that has one.
        at: u32,
        /// The fault of that edit.
        fault: EditFault,
        /// How many edits the state that judged the batch has.
        edits: u32,
    },
    /// There was no memory for the next state.
    #[error("out of memory")]
    OutOfMemory,
}

impl From<AllocError> for BoardBatch {
    ghost use Rattle.std.specs.Prelude.{◌≡◌};
    ghost use Rattle.reader_pin.specs.declared.answer.BoardBatch.TheVariants.{OutOfMemory};

    ghost from_gives = { λ _ refusal. refusal ≡ OutOfMemory };

    fn from(_: AllocError) -> BoardBatch {
        BoardBatch::OutOfMemory
    }
}

/// What is published after a call of `publish`.
#[derive(Clone, Copy, Debug, PartialEq, Eq)]
pub enum Published {
    /// The first k edits, by this call.
    New(u32),
    /// All edits, which are k, before this call.
    Already(u32),
}
