//! What a tenant's own run gives.
use crate::plain_store::PlainStore;
use std::alloc::{Allocator, Global};
use stow_model::reply::Reply;

/// The last store of a tenant's own run, and the replies, oldest first.
#[derive(Drop)]
pub struct PlainRun<A: Allocator = Global> {
    pub store: PlainStore<A>,
    pub replies: Vec<Reply<A>, A>,
}
