//! How a connection ended.

/// How a connection ended.
#[derive(Clone, Copy, Debug, PartialEq, Eq)]
pub enum SessionEnd {
    /// The input ended between requests.
    Closed,
    /// A request that asked to close was answered.
    Asked,
    /// The next head was refused by its framing, with this status code.
    Refused(u16),
    /// The input ended within a request.
    Cut,
    /// 65,536 requests were answered.
    Spent,
    /// The source failed.
    ReadFault,
    /// The sink failed.
    WriteFault,
    /// There was no memory for the buffers; nothing was read or written.
    OutOfMemory,
}

/// What came of a connection.
#[derive(Clone, Copy, Debug, PartialEq, Eq)]
pub struct Served {
    /// How it ended.
    pub end: SessionEnd,
    /// How many replies said that there was no memory (503).
    pub memory_faults: u32,
}
