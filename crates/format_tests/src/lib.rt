//! Tests of the bytes and texts that a survey consists of: numbers in text, paths, headers, descriptions, tile files.
//!
//! They test the finished crates from a crate of their own: in each it would be proved a second time.
#![tactic(auto)]

#[cfg(test)]
mod decimals;
#[cfg(test)]
mod descriptions;
#[cfg(test)]
mod fault_words;
#[cfg(test)]
mod headers;
#[cfg(test)]
mod outside;
#[cfg(test)]
mod paths;
#[cfg(test)]
mod properties;
#[cfg(test)]
mod tile_files;
