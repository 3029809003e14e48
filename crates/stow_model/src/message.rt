//! Whole requests on a connection's stream.
use crate::words::Words;
use std::alloc::{Allocator, Global};

/// What is taken from a stream at once. `specs/Wire.antt` says how each is spelled.
#[derive(Drop)]
pub enum Message<A: Allocator = Global> {
    /// The words of an array, or of an inline line.
    Words(Words<A>),
    /// An inline line with a quotation mark in it.
    Quoted,
    /// Nothing to do: an array of no words, or an inline line of none.
    Blank,
}
