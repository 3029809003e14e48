//! What wakes a flusher.

/// A worker has served so many calls that there may be something to flush.
#[derive(Clone, Copy, Debug)]
pub struct Wake;
