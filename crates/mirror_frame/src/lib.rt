//! The conversation of a mirror with its peer as bytes (RFC 9110, RFC 9112).
//!
//! A `Peer` is asked one thing after another: each request is sent once the reply to the one before was read, and a reply is
//! read no further than it goes.
#![tactic(auto)]

mod ask;
mod due;
mod fault;
mod head;
pub mod laws;
mod peer;
mod reading;

pub use ask::Ask;
pub use due::Due;
pub use fault::ReplyFault;
pub use peer::{Peer, Received};
pub use reading::ReplyStop;
