//! A small survey for tests, made from its description, and which edits fit it.
//!
//! `small_files` has the description that most tests take.
#![tactic(auto)]

mod survey;

pub use survey::{all_fit, first_state, fits};
