//! A run that ended before its last event.
use crate::outputs::Outputs;
use std::alloc::{Allocator, Global};

/// Memory was refused for the place of an event in the outputs: the events before it took place, and
/// nothing more did.
#[derive(Drop)]
pub struct RunFault<A: Allocator = Global> {
    /// What the events that took place led to.
    pub outputs: Outputs<A>,
    /// How many events took place.
    pub done: usize,
}
