//! The paths of a survey's files, as HiPS 1.0 lays them out: each file has one spelling, and each spelling is of one file.
//!
//! `Path` is a file of the survey itself; `tsv_into` and `read_tsv` write and read the paths of catalogue tiles. No call
//! takes memory.
#![tactic(auto)]

pub mod laws;
mod number;
mod path;
mod tile;
mod write;

pub use path::Path;
pub use tile::{read_tsv, tsv_into};
