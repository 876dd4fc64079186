//! A generation: every file of one published state of a survey, held in memory.
//!
//! `Generation::start` makes it of leaves, `Generation::next` of the generation before it by what changed. Both hold, byte
//! for byte, what the definition of the files makes of the leaves. `file` and `file_parts` give the files.
#![tactic(auto)]

mod changes;
mod coverage;
mod files;
mod generation;
mod levels;
mod mosaic;
mod pyramid;

pub use files::{Body, Parts};
pub use generation::Generation;
