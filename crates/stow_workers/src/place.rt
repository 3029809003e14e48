//! Where a worker passes its gate.

/// Where a worker passes its gate, outside any lock.
#[derive(Clone, Copy, Debug, PartialEq, Eq)]
pub enum Place {
    /// A door is about to be asked.
    BeforeCall,
    /// The door has answered.
    Replied,
    /// A flush job is about to be merged.
    BeforeMerge,
}
