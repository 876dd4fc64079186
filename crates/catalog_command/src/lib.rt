//! The command `catalog`.
//!
//! `run_catalog` reads rows and removals from a source, a line each, and puts the tiles of their catalogue on a shelf. It is
//! the whole command over the ends that it is given: it writes its output, and answers the exit status.
#![tactic(auto)]

mod command;
mod counts;
mod found;
pub mod laws;
mod line;
mod lines;
mod logging;
mod many;
mod reading;
mod refusal;
mod tile_name;
mod tiles;

pub use command::run_catalog;
pub use counts::Counts;
pub use line::LineRefusal;
pub use many::use_lines;
pub use refusal::{BadLine, CatalogRefusal, LineFault};
