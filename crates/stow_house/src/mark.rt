//! Whether memory was refused to an event.

/// What a run says of an event.
#[derive(Clone, Copy, Debug, PartialEq, Eq)]
pub enum Mark {
    /// It took place, or was refused.
    Kept,
    /// Memory was refused, and it is as if the event had not been.
    Void,
    /// It served a request that was told that memory was refused.
    Refused,
}
