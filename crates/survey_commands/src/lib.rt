//! The commands over a survey.
//!
//! `run_export` and `run_verify` open a shelf as a survey, and put its files there or compare them; `run_session` serves one
//! connection of it over a source and a sink, `run_serve` the connections of many doors; `run_past` answers records about its
//! past states over a source and a sink; `run_mirror` copies a peer's survey onto a shelf; `run_make` makes a survey of its
//! own. Each is the whole command over the ends that it is given: it writes its output, and answers the exit status.
#![tactic(auto)]

mod export;
mod make;
mod mirror;
mod past;
mod refusing;
mod serve;
mod session;
mod summary;
mod verify;

pub use export::run_export;
pub use make::run_make;
pub use mirror::run_mirror;
pub use past::run_past;
pub use serve::{AskedPlaces, run_serve};
pub use session::run_session;
pub use verify::run_verify;
