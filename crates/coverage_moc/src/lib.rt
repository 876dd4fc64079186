//! The cover of a survey's leaves as a multi-order coverage map, and its file (MOC 1.1).
//!
//! `Cover::of` makes the cover of all leaves, `add` and `remove` change it by one leaf without going over the leaves, and
//! `encode` and `decode` write and read the coverage file. `plain` is the definition as a slow program.
#![tactic(auto)]

mod cover;
mod edit;
mod file;
pub mod laws;
mod leaves;
mod merge;
pub mod plain;
mod refusal;
mod rows;
mod tree;
mod written;

pub use cover::Cover;
pub use refusal::CoverRefusal;
