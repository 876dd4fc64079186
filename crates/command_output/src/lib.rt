//! What a command writes and logs: bytes, a line of its output, and how far a long work is; and how it ends.
#![tactic(auto)]

mod line;
mod progress;
mod status;

pub use line::{say, write_out};
pub use progress::Progress;
pub use status::Status;
