//! A cell of a hint.

/// The guess for one key.
#[derive(Clone, Copy)]
pub(crate) struct HintCell {
    /// The row's index and 1, or 0 in a free cell.
    pub(crate) named: u16,
    /// Bits of the key's hash.
    pub(crate) tag: u16,
    /// Where the row's entry begins.
    pub(crate) place: u32,
}

impl HintCell {
    /// A cell that is free.
    pub(crate) fn free() -> HintCell {
        HintCell {
            named: 0,
            tag: 0,
            place: 0,
        }
    }
}
