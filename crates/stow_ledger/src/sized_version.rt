//! A version's number and length.

/// A version of a row, without its bytes.
#[derive(Clone, Copy, Debug, PartialEq, Eq)]
pub struct SizedVersion {
    /// The number of the write that made it.
    pub number: u64,
    /// The bytes of its value.
    pub length: u32,
}
