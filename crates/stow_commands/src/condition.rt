//! When a SET writes.

/// When a SET writes.
#[derive(Clone, Copy, Debug, PartialEq, Eq)]
pub enum Condition {
    Always,
    /// Only where the key is missing.
    IfMissing,
    /// Only where the key is there.
    IfThere,
}
