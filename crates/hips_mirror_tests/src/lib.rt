//! Tests of `hips_mirror`, over the finished crate: in it they would have it proved a second time.
#![tactic(auto)]

#[cfg(test)]
mod copies;
#[cfg(test)]
mod lies;
#[cfg(test)]
mod peers;
