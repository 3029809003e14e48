//! A slot that waits to come to the others.

/// A young slot, and how many of the older ones it stands behind.
#[derive(Clone, Copy)]
pub struct YoungSlot {
    pub(crate) behind: u32,
    pub(crate) slot: u32,
}
