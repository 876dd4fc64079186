//! The ends of `survey_link` in memory.
//!
//! The proof sees all that they hold. Each but the sure source fails at the calls whose numbers it was given, so that a
//! test can have any call fail.
#![tactic(auto)]

mod calls;
mod mem_door;
mod mem_shelf;
mod mem_sink;
mod mem_source;
mod sure_source;

pub use mem_door::MemDoor;
pub use mem_shelf::MemShelf;
pub use mem_sink::MemSink;
pub use mem_source::MemSource;
pub use sure_source::SureSource;
