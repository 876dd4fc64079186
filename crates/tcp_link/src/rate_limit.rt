//! Warnings that are logged at most once a minute.
use std::sync::{Mutex, Wait};
use std::time::{Duration, Instant};

// How many seconds after one line of the log the next one comes.
const SILENCE: u64 = 60;

/// When such a warning was last logged.
#[derive(Drop)]
pub(crate) struct RateLimit {
    said: Mutex<Option<Instant>>,
}

impl RateLimit {
    pub(crate) fn new() -> RateLimit {
        RateLimit {
            said: Mutex::new(None),
        }
    }

    /// Whether a line must be logged now; the time of it is kept.
    pub(crate) fn allows<R: Wait>(&self, rt: &R, now: Instant) -> bool {
        let mut said = self.said.lock(rt);
        if let Some(before) = *said {
            if now.duration_since(before) < Duration::from_secs(SILENCE) {
                return false;
            }
        }
        *said = Some(now);
        true
    }
}
