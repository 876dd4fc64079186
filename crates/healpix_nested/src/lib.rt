//! Cells of the sphere by number, in HEALPix's nested scheme, and the place of a pixel in its tile.
//!
//! `Cell` names a cell of an order from 0 to 20; `interleave` and `split` lead from the column and the line
//! of a pixel to its number within the tile and back.
#![tactic(auto)]

mod cell;
pub mod laws;
mod place;

pub use cell::{Cell, MAX_ORDER, cells};
pub use place::{interleave, split};
