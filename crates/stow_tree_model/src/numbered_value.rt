//! Values with their numbers.
use std::alloc::{Allocator, Global};
use stow_bytes::byte_string::ByteString;

/// A value, with the number of the write that made it.
#[derive(Drop)]
pub struct NumberedValue<A: Allocator = Global> {
    pub number: u64,
    pub value: ByteString<A>,
}
