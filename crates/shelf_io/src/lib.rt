//! A survey from a shelf of files, and back: `load` opens a shelf as a generation, or says the first thing that is wrong with
//! it; `export` makes the survey's files on a shelf those of a generation; `verify` compares the two.
//!
//! No call holds more than one file of the shelf at a time, and none touches a file that no survey can have.
#![tactic(auto)]

mod buffer;
mod charge;
mod description;
mod differences;
mod exporting;
mod leaves;
mod listing;
mod loading;
mod logging;
mod near_leaf;
mod order;
mod refusal;
mod spelling;
mod strays;
mod tile_words;
mod verdict;
mod verifying;

pub use exporting::export;
pub use loading::{first_generation, load};
pub use refusal::LoadRefusal;
pub use verdict::Verdict;
pub use verifying::verify;
