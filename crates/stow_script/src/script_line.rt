//! What a line of a script asks for.
use std::alloc::{Allocator, Global};
use stow_commands::stow_model::event::Event;

/// What a line of a script asks for.
#[derive(Drop)]
pub enum ScriptLine<A: Allocator = Global> {
    /// An event of the house.
    Event(Event<A>),
    /// How large the tree of all rows is.
    Shape,
    /// What the tenant of this index uses.
    Usage(u32),
}
