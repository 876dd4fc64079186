//! Places of the server.
//!
//! A place serves the connections of one door, one after another, over one board (`serve_place`). The places of a server run at
//! once (`serve_doors`).
#![tactic(auto)]

mod doors;
mod numbered;
mod place;
mod places;

pub use doors::{ServeRefusal, serve_doors};
pub use place::{InConnection, NamesConnections, PlaceEnd, serve_place};
