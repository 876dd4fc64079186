//! The records of a session about past states of a survey, as bytes.
//!
//! A record brings a batch of edits, or asks for a file by the first so many edits. `read_record` reads the next one from a
//! source, in whatever pieces its bytes come.
#![tactic(auto)]

pub mod laws;
mod line;
mod reading;
mod record;

pub use reading::{MAX_LINE, has_more, read_record};
pub use record::{Record, RecordStop};
