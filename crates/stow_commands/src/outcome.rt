//! What a change of a row leads to.
use std::alloc::{Allocator, Global};
use stow_model::reply::Reply;
use stow_model::stow_bytes::byte_string::ByteString;

/// What a change of a row leads to.
#[derive(Drop)]
pub enum Outcome<A: Allocator = Global> {
    /// The row gets this value, and this is told.
    Written(ByteString<A>, Reply<A>),
    /// The row stays as it is, and this is told.
    Unchanged(Reply<A>),
}
