//! The states of a survey: accepted batches of edits and a published prefix of them, and the two steps from one to the next.
//!
//! A `State` holds the journal of the edits and the generation of the published prefix. `accept` and `accept_all` append a
//! batch, `install` publishes a generation; each answers a new state and leaves the old one as it is. `read_batch` reads the
//! body of a request that brings a batch.
#![tactic(auto)]

mod batch;
mod entry;
mod fault;
pub mod laws;
mod line;
mod refusal;
mod state;

pub use batch::{batch_room, read_batch};
pub use fault::{BatchRead, EntryFault};
pub use refusal::InstallRefusal;
pub use state::State;
