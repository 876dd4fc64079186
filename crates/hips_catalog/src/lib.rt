//! The tiles of a catalogue of sources: each holds the best rows of its cell that no tile above it holds.
//!
//! A row is read of a line (`read`). A `Catalog` keeps rows by id, and its tiles, whatever rows are put in and taken out. A row
//! sinks into the tiles (`sink`) and rises out of them (`rise`) in one step an order (`tile`). A tile is read row by row, or as
//! tab-separated values (`text`).
#![tactic(auto)]

mod catalog;
mod fault;
mod headed_row;
pub mod laws;
mod ranked;
mod read;
mod refusal;
mod rise;
mod row;
mod sink;
mod spares;
mod text;
mod tile;
mod tile_rows;

pub use catalog::{Catalog, MOST_ROWS};
pub use fault::{RowFault, RowRefusal};
pub use read::is_id;
pub use refusal::InsertRefusal;
pub use row::Row;
