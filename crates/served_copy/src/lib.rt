//! A copy of a survey from a session that serves it: the definitions of `hips_http` and of `hips_mirror` meet.
//!
//! `laws` says what a session answers to the requests of a copy, and of which state it is a copy. `mirror_session` is `mirror`
//! with what follows for the shelf. Nothing is computed here.
#![tactic(auto)]

mod copying;
pub mod laws;

pub use copying::mirror_session;
