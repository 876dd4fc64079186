//! How far a long work is.
use log::{Log, info};
use std::time::{Clock, Instant};

// How many seconds pass at least until it is logged again.
const PAUSE: u64 = 1;

/// Logs how far a work of many parts is: at most once a second, so nothing of a work that takes less.
#[derive(Drop)]
pub struct Progress {
    work: &'static str,
    total: Option<u64>,
    done: u64,
    said: Option<Instant>,
}

impl Progress {
    /// A work of which no part is done; of so many parts, where that is known.
    pub fn begin<R: Clock>(rt: &R, work: &'static str, total: Option<u64>) -> Progress {
        Progress {
            work,
            total,
            done: 0,
            said: Instant::now(rt).ok(),
        }
    }

    /// One part more is done.
    pub fn part_done<R: Clock + Log>(&mut self, rt: &R) {
        self.done = self.done.saturating_add(1);
        if self.is_due(rt) {
            match self.total {
                Some(total) => info!(rt; "{}: {} of {total}", self.work, self.done),
                None => info!(rt; "{}: {}", self.work, self.done),
            }
        }
    }

    // Whether a second has passed since it was logged, which counts as logging it. Without a clock nothing is logged.
    fn is_due<R: Clock>(&mut self, rt: &R) -> bool {
        match (Instant::now(rt).ok(), self.said) {
            (Some(now), Some(said)) => {
                if now.duration_since(said).as_secs() < PAUSE {
                    return false;
                }
                self.said = Some(now);
                true
            }
            _ => false,
        }
    }
}
