//! One tile of leaf records.
//!
//! `probe` reads records of leaf tiles from a source to its end, merges those at or under an asked tile order by order upward,
//! and writes that tile's stored bytes, or says by a fault why it can't. It keeps no more than the leaves under the asked tile,
//! and knows no survey.
#![tactic(auto)]

mod asked;
mod fault;
mod leaves;
mod merging;
mod probing;
mod records;

pub use asked::Probe;
pub use fault::ProbeFault;
pub use merging::{Tiles, merge_up};
pub use probing::probe;
