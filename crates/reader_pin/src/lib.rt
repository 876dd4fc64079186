//! Boards: what a connection sees of a survey, and how it changes it.
//!
//! A `Board` shows a history of states, the last of them, and one that it holds; edits and publications are steps of that
//! history, by the calls of `ChangedWith`. `Solo` is the board of a survey that nobody else changes, `Shared` that of one which
//! several connections share.
#![tactic(auto)]

mod answer;
mod board;
mod changed_with;
mod held;
pub mod laws;
mod mark;
mod next;
mod shared;
mod sight;
mod solo;
mod survey;

pub use answer::{Accepted, BoardBatch, BoardRefusal, Published};
pub use board::Board;
pub use changed_with::ChangedWith;
pub use shared::Shared;
pub use solo::Solo;
pub use survey::{SeenSurvey, Survey, SurveyBook, SurveyLaw, SurveySeat, open_shared};
