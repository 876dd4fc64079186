//! Tiles of pixels, and how four of them become the one above.
//!
//! A `Tile` keeps its pixels as the bytes that a FITS file stores. `Tile::merge` makes the tile above four tiles, quadrant
//! by quadrant and line by line; `Tile::merge_quadrants` takes quadrants whose child is the same from a tile of before. A
//! `Block` is a tile's square of numbers, which can be halved. Numbers of 8, 16 and 32 bits are combined at their own width
//! by loops over whole rows (`means`, `medians`, `halved`), those of 64 bits by `parent_rule::mean_rows`. `store_row_above`
//! and `combine_rows` run the loop of a depth; `store_plain` is the plain program of the first.
#![tactic(auto)]

mod above;
mod block;
mod byte_means;
mod form;
mod full_means;
mod halved;
mod means;
mod medians;
mod merge;
mod quadrant;
mod row;
mod stored;
mod tile;

pub use above::{store_plain, store_row_above};
pub use block::Block;
pub use form::TileForm;
pub use halved::combine_rows;
pub use quadrant::{Quadrant, Quadrants};
pub use row::{read_row, write_row};
pub use tile::Tile;
