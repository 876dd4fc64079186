//! Tests of `past_reads` and `past_session`: past states of a small survey (`surveys`) that are read in any order
//! (`prefixes`), or by a list (`lists`); whole sessions, and such as break off (`sessions`), by texts that stand for bytes
//! (`bytes`).
//!
//! They test the finished crates from a crate of their own: there each would be proved a second time.
#![tactic(auto)]

#[cfg(test)]
mod bytes;
#[cfg(test)]
mod lists;
#[cfg(test)]
mod prefixes;
#[cfg(test)]
mod sessions;
#[cfg(test)]
mod surveys;
