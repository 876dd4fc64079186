//! One history for many threads: states that are appended one at a time under a lock, and shown to readers that never wait.
//!
//! The history exists in the proofs alone, as the log of a `logbook` book; `Shown` is its last state with what is known of
//! the states before it. Two that were seen of one history are one the beginning of the other. `SharedHistory` is what the
//! threads share, `Desk` what lies under its lock, and `Window` what a reader looks through. Each state but the first is some
//! seat's own, which appended it; how many each seat appended is shown with the last state, so that a reader knows that
//! what it hadn't seen isn't its own.
#![tactic(auto)]

mod book;
mod desk;
mod entry;
pub mod laws;
mod page;
mod seat;
mod shared_history;
mod showing;
mod shown;
mod window;

pub use book::{Blank, Law, Naming};
pub use desk::Desk;
pub use page::{Page, Showable};
pub use seat::Seat;
pub use shared_history::SharedHistory;
pub use shown::Shown;
pub use window::Window;
