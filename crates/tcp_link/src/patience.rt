//! How long a peer may take.
ghost use Rattle.std.specs.Prelude.{◌≡◌};
ghost use Rattle.std.specs.Duration.{as_nanos};
ghost use Rattle.tcp_link.specs.Time.{nanos_left};

use std::time::Duration;

/// How long the peer of a connection may take.
///
/// A turn is a request with its reply. It begins with the first byte that comes after the last reply was flushed, or after
/// the accept.
#[derive(Clone, Copy)]
pub struct Patience {
    /// How long a connection may be idle until a turn begins.
    pub rest: Duration,
    /// How long a request may take from its first byte on, and a reply, beside what its bytes add.
    pub turn: Duration,
    /// How many bytes that came or were taken add a second; none do where it is 0.
    pub pace: u64,
    /// How long a connection may take to end once it was given back.
    pub end: Duration,
}

impl Patience {
    /// That of a server's doors: 30 seconds of rest, in which a copy can make its files between two requests; for a request or a
    /// reply 30, and one for each 64 KiB; and 10 to end.
    pub fn usual() -> Patience {
        Patience {
            rest: Duration::from_secs(30),
            turn: Duration::from_secs(30),
            pace: 65_536,
            end: Duration::from_secs(10),
        }
    }
}

/// How long is left of `base` and a second for each `pace` bytes, after `elapsed`.
pub fn time_left(base: Duration, pace: u64, bytes: u64, elapsed: Duration) -> Duration
    ensures { as_nanos result ≡ nanos_left (as_nanos base) pace bytes (as_nanos elapsed) }
{
    let earned = Duration::from_secs(bytes.checked_div(pace).unwrap_or(0));
    base.saturating_add(earned).saturating_sub(elapsed)
}
