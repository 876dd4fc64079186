//! A survey's write-ahead log (WAL) over a disk that may crash.
//!
//! A record is written behind a gate that is closed, and its gate is opened once the record is on the disk. So a crash at any
//! moment leaves the records that there were, with the new one or without it.
#![tactic(auto)]

pub mod laws;
mod stop;
mod wal;

pub use stop::{CommitStop, DiskFailed, StageStop};
pub use wal::Wal;
