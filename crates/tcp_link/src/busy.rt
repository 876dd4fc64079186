//! Doors of an address that are all busy.
use crate::rate_limit::RateLimit;
use log::{Log, warn};
use std::sync::atomic::{AtomicBool, Ordering};
use std::sync::{Mutex, Wait};
use std::time::{Clock, Duration, Instant};

// After how many seconds it is logged that all doors are busy. Many requests at once, or the only client of a single door, are
// mostly done before.
const LONG: u64 = 10;

// A door that waited for fewer milliseconds wasn't free: its client had waited.
const MOMENT: u64 = 1;

/// Since when all doors of an address have been busy, so that further clients wait.
#[derive(Drop)]
pub(crate) struct Busy {
    // Whether no door waits for a client.
    all: AtomicBool,
    doors: Mutex<Doors>,
    limit: RateLimit,
}

// How many doors wait for a client, and since when none has, except for moments.
#[derive(Drop)]
struct Doors {
    waiting: usize,
    busy_since: Option<Instant>,
}

impl Busy {
    pub(crate) fn new() -> Busy {
        Busy {
            all: AtomicBool::new(false),
            doors: Mutex::new(Doors {
                waiting: 0,
                busy_since: None,
            }),
            limit: RateLimit::new(),
        }
    }

    /// A door begins to wait for a client. Returns the time, if the clock can be read.
    pub(crate) fn begin_waiting<R: Wait + Clock + Log>(&self, rt: &R) -> Option<Instant> {
        self.say(rt);
        let mut doors = self.doors.lock(rt);
        doors.waiting = doors.waiting.saturating_add(1);
        self.all.store(false, Ordering::SeqCst);
        Instant::now(rt).ok()
    }

    /// A door that began to wait then has its client.
    pub(crate) fn end_waiting<R: Wait + Clock>(&self, rt: &R, begun: Option<Instant>) {
        let now = Instant::now(rt).ok();
        let mut doors = self.doors.lock(rt);
        doors.waiting = doors.waiting.saturating_sub(1);
        if !is_moment(begun, now) {
            doors.busy_since = None;
        }
        if doors.waiting == 0 {
            doors.busy_since = doors.busy_since.or(now);
            self.all.store(true, Ordering::SeqCst);
        }
    }

    /// Logs a warning if all doors have been busy for long, at most once a minute. While one is free this only reads a flag.
    pub(crate) fn say<R: Wait + Clock + Log>(&self, rt: &R) {
        if !self.all.load(Ordering::SeqCst) {
            return;
        }
        if let Ok(now) = Instant::now(rt) {
            let busy = self.busy_for(rt, now);
            if busy >= Duration::from_secs(LONG) && self.limit.allows(rt, now) {
                let seconds = busy.as_secs();
                warn!(rt; "all places have been busy for {seconds} s, and further clients wait: raise PLACES (64 at most), or keep the proxy's connections below them (nginx: max_conns, keepalive)");
            }
        }
    }

    // For how long all doors have been busy.
    fn busy_for<R: Wait>(&self, rt: &R, now: Instant) -> Duration {
        match self.doors.lock(rt).busy_since {
            Some(since) => now.duration_since(since),
            None => Duration::ZERO,
        }
    }
}

// Whether it was only a moment from then to now.
fn is_moment(begun: Option<Instant>, now: Option<Instant>) -> bool {
    match (begun, now) {
        (Some(begun), Some(now)) => now.duration_since(begun) < Duration::from_millis(MOMENT),
        _ => false,
    }
}
