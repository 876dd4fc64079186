//! Past states of a survey.
//!
//! A `Past` keeps a few generations, those used last, and makes the generation of any prefix of a journal's edits that splits
//! no batch from the nearest one below it.
#![tactic(auto)]

mod logging;
mod past;
mod reads;
mod refusal;

pub use past::Past;
pub use reads::PastRead;
pub use refusal::PastRefusal;
