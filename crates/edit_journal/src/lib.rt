//! The accepted edits of a survey: which edits are accepted, and the leaf tiles that they leave.
//!
//! A `Journal` keeps the opening leaves and every batch of edits since. `check` judges an edit by all edits before it, and
//! `append` answers a new journal, which shares all it can with the old one.
#![tactic(auto)]

mod charge;
mod edit;
mod fault;
mod journal;
mod judge;
pub mod laws;
mod newest;
mod notes;

pub use charge::{MOST_CHARGE, leaf_charge};
pub use edit::Edit;
pub use fault::{BatchFault, BatchRefusal, EditFault, EditRefusal, StartRefusal};
pub use journal::Journal;
