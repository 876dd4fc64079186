//! Tests of a catalogue, over the finished crates: in each they would have it proved a second time. `runs` has whole runs of
//! `catalog`, `lines` the lines that are used one by one, `lists` the list that a catalogue keeps its rows in.
#![tactic(auto)]

#[cfg(test)]
mod lines;
#[cfg(test)]
mod lists;
#[cfg(test)]
mod runs;
