//! What a long work is done with.
use std::alloc::Global;

/// What a long work is done with. Threads share it, so a count of steps stands beside it: each thread has one of its own.
#[derive(Drop)]
pub struct Means<'a, R, G> {
    /// Threads, the clock and the log.
    pub rt: &'a R,
    /// Memory.
    pub alloc: Global,
    /// The gate that is passed before each merge of tiles.
    pub gate: &'a G,
}
