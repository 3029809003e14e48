//! How large a tree is.

/// How large a tree is. A count above 2^64 - 1 is told as that.
#[derive(Clone, Copy, Debug, PartialEq, Eq)]
pub struct ShapeReport {
    /// The levels of nodes above the leaves.
    pub height: u64,
    pub leaves: u64,
    /// The messages in buffers.
    pub buffered: u64,
    /// The leaves that are held unpacked.
    pub cached: u64,
}
