//! A list whose items are found, put in and taken out by place in the time of the logarithm of its length.
//!
//! Putting in and taking out need no memory: an `Item` is made before, with all that it needs, and comes back when it is
//! taken out.
#![tactic(auto)]

mod balance;
mod fronted;
mod item;
mod list;

pub use fronted::FrontedList;
pub use item::Item;
pub use list::{BalancedList, Probe};
