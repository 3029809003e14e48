//! What a look at a key's newest message or row comes to.
use crate::newest::Newest;
use stow_node::stow_message::place::Place;

/// What a look at a key's newest message or row comes to.
#[derive(Clone, Copy)]
pub struct Glance {
    pub newest: Newest,
    /// Where the key's next message may come to stand in the buffer of the node that was looked into.
    pub place: Place,
}
