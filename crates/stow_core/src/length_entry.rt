//! Lengths of values, by what wrote them.

/// The length of the value that a tenant's write with the number made.
#[derive(Clone, Copy)]
pub struct LengthEntry {
    pub tenant: u32,
    /// The bytes of the value.
    pub length: u32,
    pub number: u64,
}
