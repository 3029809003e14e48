//! A stream, read.
use crate::message::Message;
use crate::stream_rest::StreamRest;
use std::alloc::{Allocator, Global};

/// The whole messages of a stream, and what stands after them.
#[derive(Drop)]
pub struct StreamRead<A: Allocator = Global> {
    /// The whole messages, oldest first.
    pub messages: Vec<Message<A>, A>,
    /// How many bytes they are spelled in.
    pub used: usize,
    /// What the bytes after those are.
    pub rest: StreamRest,
}
