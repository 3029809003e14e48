//! What a look-up of one key comes to.
use crate::found::Found;
use std::alloc::{Allocator, Global};
use stow_node::stow_leaf::leaf::Leaf;
use stow_node::stow_message::place::Place;

/// What a look-up of one key comes to.
#[derive(Drop)]
pub struct Lookup<'a, A: Allocator = Global> {
    /// What the key has, if anything.
    pub found: Option<Found<'a, A>>,
    /// The leaf that was looked into, if any was.
    pub leaf: Option<&'a Leaf<A>>,
    /// Where the key's next message may come to stand in the node's own buffer.
    pub place: Place,
}
