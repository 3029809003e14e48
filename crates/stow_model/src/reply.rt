//! What a client is told.
use crate::items::Items;
use crate::refusal::Refusal;
use crate::simple_string::SimpleString;
use crate::stream_fault::StreamFault;
use std::alloc::{Allocator, Global};
use stow_bytes::byte_string::ByteString;

/// A reply. `specs/Reply.antt` has the bytes of each.
#[derive(Drop)]
pub enum Reply<A: Allocator = Global> {
    Simple(SimpleString),
    Error(Refusal),
    ProtocolError(StreamFault),
    Integer(i64),
    Bulk(ByteString<A>),
    Null,
    Array(Items<A>),
}
