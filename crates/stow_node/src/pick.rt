//! Which of several buffers a plan takes.

/// Which of the deepest buffers that hold a message a plan takes.
#[derive(Clone, Copy)]
pub enum Pick {
    /// The one with most bytes, so that a flush brings much.
    Fullest,
    /// The one with least, so that one after another gives its block back.
    Emptiest,
}

impl Pick {
    /// Whether a buffer with so many bytes comes before one with so many others.
    pub(crate) fn is_first(self, bytes: usize, others: usize) -> bool {
        match self {
            Pick::Fullest => bytes > others,
            Pick::Emptiest => bytes < others,
        }
    }
}
