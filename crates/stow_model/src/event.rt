//! What happens at the service.
use std::alloc::{Allocator, Global};
use stow_bytes::byte_string::ByteString;

/// An event. Connections and flushers are named by numbers of the caller's.
#[derive(Drop)]
pub enum Event<A: Allocator = Global> {
    /// A connection is opened. A number can be opened once.
    Open(u32),
    /// Bytes came on a connection.
    Piece(u32, ByteString<A>),
    /// The next message of a connection is served.
    Serve(u32),
    /// The client closed a connection.
    Close(u32),
    /// A flusher plans a job.
    Plan(u32),
    /// A flusher merges its job.
    Merge(u32),
    /// A flusher hands its merged job in.
    Install(u32),
    /// The leaf cache gets another size.
    Resize(usize),
    /// The operator gives the tenant of this index another quota.
    Quota(u32, u64),
}
