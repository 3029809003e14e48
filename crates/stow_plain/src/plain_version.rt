//! A value in the plain store.
ghost use Rattle.std.specs.Prelude.{◌≡◌};

use std::alloc::{AllocError, Allocator, Global};
use stow_bytes::byte_string::ByteString;

/// A value, and the number of the write that made it.
#[derive(Drop)]
pub struct PlainVersion<A: Allocator = Global> {
    pub number: u64,
    pub value: ByteString<A>,
}

impl<A: Allocator + Clone> Clone for PlainVersion<A> {
    ghost is_clone = { λ v w. w ≡ v };

    fn clone(&self) -> Result<PlainVersion<A>, AllocError> {
        Ok(PlainVersion {
            number: self.number,
            value: self.value.clone()?,
        })
    }
}
