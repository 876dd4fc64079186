//! Tests of `served_copy`, over the finished crate: in it they would have it proved a second time.
#![tactic(auto)]

#[cfg(test)]
mod copies;
