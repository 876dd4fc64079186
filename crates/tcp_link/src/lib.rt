//! Connections over TCP and over Unix sockets: an address with a `/` is the path of one.
//!
//! `tcp_doors` makes the doors of an address, which share one listener; a connection is a `TcpIn` and a `TcpOut`, the two
//! halves of one stream. `dial` makes one to an address. They count their faults; what passes is opaque to the proof: what
//! the system does is trusted. Each request and each reply has a deadline, as the `Patience` of the doors has it.
//! `try_address` says beforehand whether one could listen at an address.
//!
//! Where a runtime `rt` logs and waits, `net` is the one below it: a logger's own network knows neither names nor paths.
#![tactic(auto)]

pub mod again;
mod busy;
mod connection;
mod dialing;
mod listening;
mod patience;
mod rate_limit;
mod refusal;
mod shortage;
mod stream;
mod tcp_door;
mod tcp_in;
mod tcp_out;
mod trial;
mod watch;

pub use dialing::{DialIn, DialOut, dial};
pub use patience::{Patience, time_left};
pub use refusal::Refusal;
pub use tcp_door::{TcpDoor, patient_doors, tcp_doors};
pub use tcp_in::TcpIn;
pub use tcp_out::TcpOut;
pub use trial::{Trial, try_address};
