//! What the two halves of a connection share.
use crate::listening::Listening;
use crate::patience::Patience;
use crate::stream::Stream;
use log::Log;
use std::io;
use std::io::ErrorKind;
use std::sync::atomic::{AtomicBool, Ordering};
use std::sync::{Arc, Wait};
use std::time::Clock;

/// A stream, the clock by which its peer is judged, and whether the next byte begins a turn.
#[derive(Drop)]
pub(crate) struct Connection<R> {
    pub(crate) runtime: R,
    pub(crate) patience: Patience,
    // `None` where connecting was refused.
    stream: Option<Stream>,
    // What the doors of its address share; `None` where this side made it.
    listening: Option<Arc<Listening>>,
    rests: AtomicBool,
}

impl<R> Connection<R> {
    /// A connection over the stream; without one, each use of it is refused.
    pub(crate) fn new(
        runtime: R,
        patience: Patience,
        stream: Option<Stream>,
        listening: Option<Arc<Listening>>,
    ) -> Connection<R> {
        Connection {
            runtime,
            patience,
            stream,
            listening,
            rests: AtomicBool::new(true),
        }
    }

    /// The stream, where there is one.
    pub(crate) fn stream(&self) -> io::Result<&Stream> {
        match &self.stream {
            Some(stream) => Ok(stream),
            None => Err(ErrorKind::NotConnected.into()),
        }
    }

    /// Whether the next byte that comes begins a turn.
    pub(crate) fn rests(&self) -> bool {
        self.rests.load(Ordering::SeqCst)
    }

    /// A turn has begun, or its reply was flushed.
    pub(crate) fn set_rests(&self, rests: bool) {
        self.rests.store(rests, Ordering::SeqCst);
    }
}

impl<R: Wait + Clock + Log> Connection<R> {
    /// Logs a warning if all doors of its address have been busy for long.
    pub(crate) fn say_busy(&self) {
        if let Some(listening) = &self.listening {
            listening.busy.say(&self.runtime);
        }
    }
}
