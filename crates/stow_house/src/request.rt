//! A request on its way to a door.
use std::alloc::{Allocator, Global};
use stow_model::words::Words;

/// A request for the store of a tenant.
#[derive(Drop)]
pub struct Request<A: Allocator = Global> {
    /// The tenant's index.
    pub tenant: u32,
    pub words: Words<A>,
}
