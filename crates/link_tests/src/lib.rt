//! Tests of `std_link` and of `tcp_link`, over the finished crates: in each they would have it proved a second time. What the
//! checks in scripts/ try with the program, over real folders and sockets, isn't tried again.
#![tactic(auto)]

#[cfg(test)]
mod folder;
#[cfg(test)]
mod loopback;
#[cfg(test)]
mod streams;
