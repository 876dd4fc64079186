//! The all-sky mosaic of a survey: one image of its tiles of order 3, each with at most 64 columns and lines.
//!
//! `whole` makes it of all tiles by as many threads as repay, `patch` of the mosaic that there was before some tiles changed, and
//! `patch_in_place` does so in that mosaic's own bytes: the stored bytes of the image, bottom line first.
#![tactic(auto)]

mod bands;
mod making;
mod patching;
mod square;

pub use making::whole;
pub use patching::{patch, patch_in_place};
