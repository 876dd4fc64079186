//! Tests of what is below a connection: batches as they are read, a survey from state to state, generations, and shelves.
//!
//! They test the finished crates from a crate of their own: in each it would be proved a second time.
#![tactic(auto)]

#[cfg(test)]
mod bodies;
#[cfg(test)]
mod changes;
#[cfg(test)]
mod shelves;
#[cfg(test)]
mod states;
