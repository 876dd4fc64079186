//! One HTTP/1.1 connection as bytes (RFC 9110, RFC 9112).
//!
//! A `Frame` reads the next request from a source, in whatever pieces its bytes come: what its head asks for, its decoded
//! path, and its body. `write_reply`, `write_reply_parts` and `write_continue` write replies to a sink. `fill_head` and
//! `take_exact` read a head and so many bytes where no request is due.
#![tactic(auto)]

mod fields;
mod fill;
mod frame;
mod head;
pub mod laws;
mod pushing;
mod reply;
mod request;
mod stop;
mod target;
mod text;

pub use fields::{Fields, MAX_FIELDS};
pub use fill::{MAX_HEAD, fill_head, head_length, take_exact};
pub use frame::Frame;
pub use pushing::{push, push_number};
pub use reply::{Allow, Kind, Number, Reply, write_continue, write_reply, write_reply_parts};
pub use request::{Method, Request, Tags};
pub use stop::{FrameStop, Turn};
pub use text::digits;
