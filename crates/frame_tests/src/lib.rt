//! Tests of bytes that are exchanged: those of the server, `http_frame` (`http`), of a copy, `mirror_frame` (`mirror`), and of
//! a session about past states, `past_frame` (`past`).
//!
//! They test the finished crates from a crate of their own: in each it would be proved a second time.
#![tactic(auto)]

#[cfg(test)]
mod http;
#[cfg(test)]
mod mirror;
#[cfg(test)]
mod past;
