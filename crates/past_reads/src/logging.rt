//! What is logged of past states.
use log::{Log, debug};
use std::time::{Clock, Instant};

/// A generation that is being made.
#[derive(Drop)]
pub(crate) struct Making {
    begun: Option<Instant>,
    steps: u64,
}

impl Making {
    /// One that begins now, at that count of steps.
    pub(crate) fn begin<R: Clock>(rt: &R, steps: u64) -> Making {
        Making {
            begun: Instant::now(rt).ok(),
            steps,
        }
    }

    /// Logs that the generation of the first `k` edits was made, from that of the first `from`, or from the opening leaves, at
    /// that count of steps.
    pub(crate) fn say_made<R: Clock + Log>(&self, rt: &R, k: u32, from: Option<u32>, steps: u64) {
        let tiles = steps.saturating_sub(self.steps);
        let took = self.begun.and_then(|begun| begun.elapsed(rt).ok());
        let millis = took.map_or(0, |took| took.as_millis());
        match from {
            Some(from) => {
                debug!(rt; "state {k} was made from state {from}: {tiles} tiles built in {millis} ms")
            }
            None => {
                debug!(rt; "state {k} was made from the opening leaves: {tiles} tiles built in {millis} ms")
            }
        }
    }
}
