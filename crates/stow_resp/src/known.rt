//! What is known between the pieces of a stream.
use crate::progress::Progress;
use std::alloc::{Allocator, Global};

/// What is known of the front of some bytes. `specs/Scans.antt` says it.
#[derive(Drop)]
pub enum Known<A: Allocator = Global> {
    /// Nothing.
    Nothing,
    /// An array begins there, and so much of it was found.
    Array(Progress<A>),
    /// An inline line begins there, and so many of its bytes were looked at and hold no LF.
    Line(usize),
}
