//! The simple strings that the service sends.

/// A status line's text.
#[derive(Clone, Copy, Debug, PartialEq, Eq)]
pub enum SimpleString {
    Ok,
    Pong,
}
