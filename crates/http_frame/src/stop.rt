//! What a frame reads next, and why it reads no more.

/// Why no head or no body was read.
#[derive(Clone, Copy, Debug, PartialEq, Eq)]
pub enum FrameStop {
    /// The input ended between requests.
    End,
    /// The input ended within a head or a body.
    Cut,
    /// The source failed.
    ReadFault,
    /// The next head is refused by this status code.
    Refuse(u16),
}

/// What a frame reads next.
#[derive(Clone, Copy, Debug, PartialEq, Eq)]
pub enum Turn {
    /// A head.
    AtHead,
    /// A body of so many bytes.
    AtBody(u64),
    /// Nothing any more.
    Stopped(FrameStop),
}
