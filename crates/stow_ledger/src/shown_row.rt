//! A row that a dropped snapshot showed.
use crate::sized_version::SizedVersion;

/// A row that a dropped snapshot showed, with its key's next number.
#[derive(Clone, Copy, Debug, PartialEq, Eq)]
pub struct ShownRow {
    /// The bytes of the key.
    pub key: u32,
    /// The version that was shown.
    pub version: SizedVersion,
    /// The number of the key's next change, if there was one: until then the version is the key's.
    pub next: Option<u64>,
}
