//! How four pixels become the one above them, and how the merges of tiles are counted.
//!
//! `Depth` says what the numbers of a survey are; `mean4` combines four of them and `mean_rows` two rows, at every
//! depth. `mean_of_four`, `mean_of_full` and `median_of_four` do the same at one width, a `PixelNumber`, for fast loops.
//! `Steps` counts, and a `Permit` is one merge of tiles that was counted.
#![tactic(auto)]

mod combine;
mod depth;
mod four;
mod kept;
mod mean;
mod mean_of_kept;
mod permit;
mod pixel_number;

pub use combine::Combine;
pub use depth::Depth;
pub use four::{mean_of_four, mean_of_full, median_of_four};
pub use mean::{mean_rows, mean4};
pub use permit::{Permit, Steps};
pub use pixel_number::PixelNumber;
