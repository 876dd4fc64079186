//! What the tests write out of one small survey: its description, its properties, the cards of its tiles, its mosaic and its
//! coverage, and files of such cards.
//!
//! The survey has order 4, and its tiles have two columns and two lines of 16 bits. `small_survey` makes it.
#![tactic(auto)]

mod cards;
mod survey;

pub use cards::{fill_block, header, push_card, tile_file};
pub use survey::{
    COVERAGE_COLUMN, COVERAGE_HEADER, COVERAGE_TABLE, MOSAIC_HEADER, PROPERTIES, SURVEY,
    TILE_HEADER, cell_header,
};
