//! A made survey: a description, and the requests of one connection that edit and publish it.
//!
//! The same number gives the same requests, byte for byte, so that a server that answers them can be compared with another,
//! or with itself.
#![tactic(auto)]

mod conf;
mod edit;
mod making;
mod request;

pub use conf::{make_conf, read_conf};
pub use making::script;
