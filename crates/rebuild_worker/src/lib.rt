//! One order of a survey's pyramid, made from the tiles of the order below it.
//!
//! A permit allows merging the tile of one cell. `level_serial` makes the merges of a list of permits one after the other;
//! `level_parallel` makes the same list with as many workers as the machine has processors. `level_changed` makes it where
//! the order stood before and some leaves were touched since: it keeps the quadrants of the children that are as they were.
#![tactic(auto)]

mod merge;
mod named;
mod parallel;
mod permits;
mod serial;
mod sources;

pub use named::Named;
pub use parallel::{level_changed, level_parallel};
pub use serial::level_serial;
pub use sources::Sources;
