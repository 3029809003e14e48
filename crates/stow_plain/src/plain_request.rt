//! One request of a tenant's own run.
use std::alloc::{Allocator, Global};
use stow_model::words::Words;

/// The words that a tenant is served, and whether memory was refused to them.
#[derive(Drop)]
pub struct PlainRequest<A: Allocator = Global> {
    pub words: Words<A>,
    pub is_refused: bool,
}
