//! The outside, as a survey sees it.
//!
//! Bytes come from a `Source` and go to a `Sink`; files lie on a `Shelf`; connections come through a `Door`; a `Gate` is
//! passed before each merge of tiles. Each counts its faults, and says what the proof can see of it. An `Inbox` keeps what
//! was read and not yet used; `Means` are what a long work is done with. `memory_link`, `std_link` and `tcp_link` have ends that
//! meet these traits.
#![tactic(auto)]

mod door;
mod faults;
mod gate;
mod inbox;
mod means;
mod null_sink;
mod parts;
mod shelf;
mod sink;
mod source;

pub use door::Door;
pub use faults::{DoorFault, Failed, LinkFault};
pub use gate::{Gate, OpenGate};
pub use inbox::{Inbox, place_of};
pub use means::Means;
pub use null_sink::NullSink;
pub use shelf::Shelf;
pub use sink::{Sink, write_all_parts, write_whole};
pub use source::Source;
