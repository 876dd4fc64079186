//! Which tiles are stale after an edit of leaf tiles, order by order, and the leave to merge each of them once.
//!
//! `plan` climbs from the touched leaves to the lowest order and answers a `Worklist`, which hands out the permits of one
//! order after another, the deepest first.
#![tactic(auto)]

pub mod laws;
mod planning;
mod worklist;

pub use planning::plan;
pub use worklist::Worklist;
