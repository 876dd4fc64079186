//! A lack of descriptors or of buffers, which may pass.
use crate::rate_limit::RateLimit;
use log::{Log, warn};
use std::sync::Wait;
use std::time::{Clock, Duration, Instant};
use std::{io, thread};

// For how many seconds what is refused for it is tried again, and after how many milliseconds each time.
const PATIENCE: u64 = 300;

const PAUSE: u64 = 100;

// Linux's numbers: all descriptors of the system are in use, all of the process are, there is no room for a buffer.
const ENFILE: i32 = 23;

const EMFILE: i32 = 24;

const ENOBUFS: i32 = 105;

/// What the doors of one address know of it: when it was last logged.
#[derive(Drop)]
pub(crate) struct Shortage {
    limit: RateLimit,
}

impl Shortage {
    pub(crate) fn new() -> Shortage {
        Shortage {
            limit: RateLimit::new(),
        }
    }

    /// Whether to try the refused call again, after a pause that has then passed: the error is a lack that may pass, and this
    /// has lasted for less than five minutes since `begun` (set to now if it was `None`). A line is logged at most once a
    /// minute.
    pub(crate) fn may_pass<R: Wait + Clock + Log>(
        &self,
        rt: &R,
        begun: &mut Option<Instant>,
        error: io::Error,
    ) -> bool {
        if !is_shortage(error) {
            return false;
        }
        match Instant::now(rt) {
            Err(_) => false,
            Ok(now) => {
                let since = begun.unwrap_or(now);
                *begun = Some(since);
                now.duration_since(since) < Duration::from_secs(PATIENCE)
                    && self.pause(rt, now, error)
            }
        }
    }

    // True, after a pause.
    fn pause<R: Wait + Clock + Log>(&self, rt: &R, now: Instant, error: io::Error) -> bool {
        if self.limit.allows(rt, now) {
            warn!(rt; "can't accept, and tries again: {error}");
        }
        thread::sleep(rt, Duration::from_millis(PAUSE));
        true
    }
}

// Whether the error is a lack which may pass.
fn is_shortage(error: io::Error) -> bool {
    match error.raw_os_error() {
        Some(code) => code == EMFILE || code == ENFILE || code == ENOBUFS,
        None => false,
    }
}
