//! What is told of values.

/// What is told of a value in place of its bytes.
#[derive(Clone, Copy)]
pub struct ValueHead {
    /// The number of the write that made it.
    pub number: u64,
    /// How many bytes it has.
    pub length: u32,
}
