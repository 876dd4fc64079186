//! What comes next in the input.

/// What comes next in the input.
#[derive(Clone, Copy, Debug, PartialEq, Eq)]
pub(crate) enum Found {
    /// A line of so many bytes, and its line feed.
    Line(usize),
    /// The front of a line that is too long.
    Long,
    /// Some bytes of a line, and the end of the input.
    Cut,
    /// The end of the input.
    End,
}
