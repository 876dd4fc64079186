//! Tile files: read, judged against the description of a survey, and written; and the files of images.
//!
//! `decode` reads a tile file or says its first fault, `encode_into` writes one, `encode_cards` its header alone, and
//! `encode_image` writes the file of an image with the same scale and numbers (FITS 4.0, HiPS 1.0).
#![tactic(auto)]

mod cards;
mod encode;
mod fault;
mod header;
pub mod laws;
mod reading;
mod size;

pub use encode::{encode_cards, encode_image, encode_into};
pub use fault::{TileFault, TileRefusal};
pub use reading::decode;
pub use size::{body_room, file_len};
