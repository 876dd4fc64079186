//! A copy of a peer's survey: `mirror` asks a peer for one published state of its survey, builds the files of its leaves anew,
//! compares, and writes them on a shelf.
//!
//! The last request is sent only when the files agree with what the peer sent, and nothing is written before the last reply.
//! One reply is held at a time, beside the pixels.
#![tactic(auto)]

mod asking;
mod comparing;
mod copying;
mod cover;
mod description;
pub mod laws;
mod leaves;
mod logging;
mod refusal;
mod request;
mod text;

pub use copying::mirror;
pub use refusal::MirrorRefusal;
