//! What is noted of versions.
use std::alloc::{Allocator, Global};
use stow_filter::filter::Filter;

/// What is noted of versions, for look-ups of their keys.
#[derive(Drop)]
pub(crate) struct Notes<A: Allocator = Global> {
    /// Marks of their keys.
    pub(crate) filter: Filter<A>,
    /// Whether each is a value, and the only one of its key.
    pub(crate) alone: bool,
}
