//! One connection of a survey's server, whole.
//!
//! `session` reads a connection's requests one by one and answers each from the states of a survey: files from a published
//! generation, changes as edits of its leaves. What is written for them, and which states they make, is one run of
//! `specs/SessionRun.antt`, however other connections come between.
#![tactic(auto)]

mod answer;
mod call;
mod change;
mod connection;
mod control;
mod file;
pub mod laws;
mod logging;
mod open_connection;
mod reply;
mod room;
mod send;
mod served;
mod step;
mod text;

pub use call::{Call, PathKind};
pub use connection::{frame_for, session, session_in};
pub use room::say_room;
pub use served::{Served, SessionEnd};
