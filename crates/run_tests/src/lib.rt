//! Tests of the whole program over ends in memory, over the finished crate `hipsd_run`: in it they would have it proved a
//! second time.
#![tactic(auto)]

#[cfg(test)]
mod command_lines;
#[cfg(test)]
mod lines;
#[cfg(test)]
mod make;
#[cfg(test)]
mod probe;
#[cfg(test)]
mod runs;
#[cfg(test)]
mod script;
#[cfg(test)]
mod session;
#[cfg(test)]
mod survey;
#[cfg(test)]
mod texts;
