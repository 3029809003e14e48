//! What happens on a connection that was opened.

/// What happens on a connection that was opened.
#[derive(Clone, Copy)]
pub enum ConnectionEvent<'a> {
    /// Bytes came.
    Piece(&'a [u8]),
    /// The next message is served.
    Serve,
    /// The client closed it.
    Close,
}
