//! A stop-watch.
use crate::patience::time_left;
use std::io;
use std::io::ErrorKind;
use std::time::{Clock, Duration, Instant};

/// A stop-watch over what one half of a connection does: a request, a reply, or the rest before one. It starts at the first
/// look, and knows which time-out the socket of the half has.
#[derive(Drop)]
pub(crate) struct Watch {
    begun: Option<Instant>,
    bytes: u64,
    timeout: Duration,
}

impl Watch {
    /// A watch of a half whose socket has that time-out.
    pub(crate) fn new(timeout: Duration) -> Watch {
        Watch {
            begun: None,
            bytes: 0,
            timeout,
        }
    }

    /// Something else is done from now on.
    pub(crate) fn set_back(&mut self) {
        self.begun = None;
        self.bytes = 0;
    }

    /// So many bytes have passed.
    pub(crate) fn count(&mut self, bytes: usize) {
        self.bytes = self.bytes.saturating_add(bytes as u64);
    }

    /// The time-out that the socket needs, so that its next call ends before `base` and a second for each `pace` bytes have
    /// passed; `None` where the one that it has will do.
    ///
    /// # Errors
    ///
    /// `ErrorKind::TimedOut` where they have passed; what the clock is refused for.
    pub(crate) fn timeout<R: Clock>(
        &mut self,
        rt: &R,
        base: Duration,
        pace: u64,
    ) -> io::Result<Option<Duration>> {
        let now = Instant::now(rt)?;
        let begun = self.begun.unwrap_or(now);
        self.begun = Some(begun);
        let left = time_left(base, pace, self.bytes, now.duration_since(begun));
        if left.is_zero() {
            return Err(ErrorKind::TimedOut.into());
        }
        if self.timeout <= left {
            return Ok(None);
        }
        self.timeout = left;
        Ok(Some(left))
    }

    /// Whether to make the refused call again, if there is time: it was interrupted, or the time-out of the socket has
    /// passed, which may have been shorter than what was left.
    pub(crate) fn goes_on(&mut self, kind: ErrorKind) -> bool {
        match kind {
            ErrorKind::Interrupted => true,
            ErrorKind::WouldBlock => {
                self.timeout = Duration::MAX;
                true
            }
            _ => false,
        }
    }
}
