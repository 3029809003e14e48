//! What one step under the lock did.
use std::alloc::{Allocator, Global};
use stow_house::stow_node::installed::Installed;
use stow_model::reply::Reply;
use stow_model::words::Words;

/// A step that was taken whole while the lock was held, with its answer.
#[derive(Drop)]
pub enum Step<A: Allocator = Global> {
    /// The index that called, its words, and what it was told.
    Call(u32, Words<A>, Reply<A>),
    /// The cache was asked to hold so many leaves, and does.
    Resize(usize),
    /// The operator gave the tenant of this index this quota, in bytes.
    Quota(u32, u64),
    /// A flush was planned, and whether there is a job for it.
    Plan(bool),
    /// The result of a job came, and this became of it.
    Install(Installed),
}
