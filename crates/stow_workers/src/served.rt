//! How a connection's service ended.
use stow_model::stream_fault::StreamFault;

/// How a connection's service ended.
#[derive(Clone, Copy, Debug, PartialEq, Eq)]
pub enum Served {
    /// The client wished to quit.
    Quit,
    /// There is nothing more to be read.
    Ended,
    /// The stream has a fault.
    Faulted(StreamFault),
    /// The reader failed.
    ReadFailed,
    /// The writer failed.
    WriteFailed,
    /// Memory was refused to what came or to a reply.
    NoMemory,
}
