//! What a connection is told, and whether it ends.
use std::alloc::{Allocator, Global};
use stow_model::reply::Reply;
use stow_model::words::Words;

/// A reply, if there is one, and whether the connection ends after it.
#[derive(Drop)]
pub struct Answer<A: Allocator = Global> {
    pub reply: Option<Reply<A>>,
    pub ends: bool,
    /// Words that went through a door, whose memory can serve others.
    pub used: Option<Words<A>>,
}
