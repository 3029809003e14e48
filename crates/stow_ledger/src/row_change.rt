//! A row's change by a write.
use crate::sized_version::SizedVersion;

/// What a write takes away under a key, and what it brings.
#[derive(Clone, Copy, Debug, PartialEq, Eq)]
pub struct RowChange {
    /// The bytes of the key.
    pub key: u32,
    /// The version that stands there before, if any.
    pub before: Option<SizedVersion>,
    /// The bytes of the value that stands there after, if any.
    pub after: Option<u32>,
}
