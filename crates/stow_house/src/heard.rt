//! What was heard in a conversation.
use crate::stop::Stop;
use std::alloc::{Allocator, Global};
use stow_model::reply::Reply;
use stow_model::words::Words;

/// What was heard in a conversation.
#[derive(Drop)]
pub enum Heard<A: Allocator = Global> {
    /// What the client is told, if anything, and why the conversation goes no further, if it doesn't.
    Told(Option<Reply<A>>, Option<Stop>),
    /// A request for the store of the tenant of this index, which was taken off and is still to be carried out.
    Request(u32, Words<A>),
}
