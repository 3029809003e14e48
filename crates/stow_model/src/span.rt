//! Parts of a block of bytes.

/// A part of a block of bytes: from this byte on, to before that one.
#[derive(Clone, Copy)]
pub struct Span {
    pub start: usize,
    pub end: usize,
}
