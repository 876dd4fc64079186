//! Tests of whole connections, byte for byte: what is asked as rows of text, what is answered, and how the connection ends;
//! of places over a door in memory, and of connections that share a survey.
//!
//! They test the finished crates from a crate of their own: in `hips_http` and `hips_place` these would be proved a second
//! time.
#![tactic(auto)]

#[cfg(test)]
mod broken;
#[cfg(test)]
mod conversations;
#[cfg(test)]
mod limits;
#[cfg(test)]
mod places;
#[cfg(test)]
mod rows;
#[cfg(test)]
mod shared;
#[cfg(test)]
mod surveys;
