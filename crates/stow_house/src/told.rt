//! A reply and where it goes.
use std::alloc::{Allocator, Global};
use stow_model::reply::Reply;

/// A reply and the connection that it goes to.
#[derive(Drop)]
pub struct Told<A: Allocator = Global> {
    pub connection: u32,
    pub reply: Reply<A>,
}
