//! A map from keys to shared values in key order, which can be shared whole.
//!
//! `Store` is the base of every map of leaf tiles: keys are leaf numbers, and a value that two stores have is kept once.
//! A store is a tree of three levels: a shared list of groups, each a shared list of pages, each a shared list of pairs.
//! `share` takes a reference to the tree, and a change copies the page, the group and the list that it goes through, where another store has them too.
#![tactic(auto)]

mod chunk;
mod level;
mod page;
mod pairs;
mod slot;
mod store;

pub use pairs::Pairs;
pub use store::Store;
