//! Numbers in decimal text: real numbers of FITS headers in a normal form, and whole numbers.
//!
//! `Decimal::read` reads a real number of any length, and `Decimal::text_into` writes the one text of a number; neither
//! rounds. `plain_decimal` and `whole_number` read whole numbers, without a sign and with one. No call takes memory.
#![tactic(auto)]

mod decimal;
mod digits;
mod exponent;
mod fault;
pub mod laws;
mod whole;

pub use decimal::Decimal;
pub use fault::BadReal;
pub use whole::{plain_decimal, split_sign, whole_number};
