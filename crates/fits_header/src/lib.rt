//! FITS headers both ways (FITS 4.0, sections 3.3, 4.1, 4.2 and 4.4.1).
//!
//! `Header::read` reads the eight keywords that say what the data of an image are, and `write_cards` writes the cards that
//! the makers of `Card` make. Neither takes memory.
#![tactic(auto)]

mod blocks;
mod card;
mod fault;
mod header;
mod keyword;
pub mod laws;
mod scan;
mod value;

pub use blocks::{BLOCK_LEN, CARD_LEN, whole_blocks};
pub use card::{Card, write_cards};
pub use fault::HeaderFault;
pub use header::Header;
