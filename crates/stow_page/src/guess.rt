//! A guess where a key stands.

/// Where a key's newest row may stand.
#[derive(Clone, Copy)]
pub(crate) struct Guess {
    /// Its index among the rows, or one beyond all.
    pub(crate) index: usize,
    /// At how many bytes of the block its entry begins.
    pub(crate) place: usize,
}

impl Guess {
    /// No row.
    pub(crate) fn none() -> Guess {
        Guess {
            index: usize::MAX,
            place: 0,
        }
    }
}
