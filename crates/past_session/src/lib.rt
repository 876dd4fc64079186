//! A session about past states of a survey.
//!
//! `past_session` reads records from a source: batches of edits, which it accepts, and reads of files by the first so many
//! edits, which it answers from a few generations that it holds. Each answer goes to a sink.
#![tactic(auto)]

mod answer;
mod ending;
mod ends;
mod file;
mod kept;
mod send;
mod session;

pub use ending::PastEnd;
pub use session::past_session;
