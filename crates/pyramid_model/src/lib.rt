//! What a survey's pyramid is: its shape, the value of a cell, and the pixels of a tile, as definitions that every crate
//! above cites, and the plain program that computes them cell by cell.
#![tactic(auto)]

pub mod laws;
pub mod plain;
mod shape;

pub use shape::Shape;
