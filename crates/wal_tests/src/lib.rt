//! Tests of a survey's write-ahead log: of its bytes (`headers`, `records`), which Python's `struct` and `hashlib` computed, and
//! of what a crash leaves of it (`disks`).
#![tactic(auto)]

#[cfg(test)]
mod disks;
#[cfg(test)]
mod headers;
#[cfg(test)]
mod records;
