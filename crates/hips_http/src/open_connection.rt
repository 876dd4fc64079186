//! One connection while it is served, in one value.

use crate::call::Call;
use crate::logging::Stopwatch;
use http_frame::{Frame, Request};
use parent_rule::Steps;

/// An open connection: the ends that its requests are read from and answered to, and what is counted meanwhile. Each is lent
/// for a time of its own.
#[derive(Drop)]
pub(crate) struct OpenConnection<'f, 'b, 's, 'k, 't, B, S, K> {
    pub(crate) frame: &'f mut Frame,
    pub(crate) board: &'b mut B,
    pub(crate) src: &'s mut S,
    pub(crate) sink: &'k mut K,
    pub(crate) steps: &'t mut Steps,
    /// How many requests have found no memory.
    pub(crate) memory_faults: u32,
}

/// A request whose reply is due.
#[derive(Clone, Copy)]
pub(crate) struct Due {
    /// Since when it is answered.
    pub(crate) watch: Stopwatch,
    pub(crate) request: Request,
    pub(crate) call: Call,
    /// Whether the connection is closed after the reply.
    pub(crate) close: bool,
}
