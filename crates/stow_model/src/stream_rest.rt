//! What stands after the whole messages of a stream.
use crate::stream_fault::StreamFault;

/// What the bytes after the last whole message are.
#[derive(Clone, Copy, Debug, PartialEq, Eq)]
pub enum StreamRest {
    /// They begin a message, and aren't all of it.
    Waits,
    /// They can become none.
    Faulty(StreamFault),
}
