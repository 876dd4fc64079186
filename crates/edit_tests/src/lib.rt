//! Tests of what is kept of edits, and of what they touch: `leaf_store` (`stores`, beside `plain_store`, which has the same
//! clauses), `edit_journal` (`journals`), `dirty_plan` (`plans`), `coverage_moc` (`covers`, and `outside_files` for tools of
//! others) and `shared_history` (`histories`).
//!
//! They test the finished crates from a crate of their own: in each it would be proved a second time.
#![tactic(auto)]

#[cfg(test)]
mod covers;
#[cfg(test)]
mod histories;
#[cfg(test)]
mod journals;
#[cfg(test)]
mod outside_files;
#[cfg(test)]
mod plain_store;
#[cfg(test)]
mod plans;
#[cfg(test)]
mod stores;
