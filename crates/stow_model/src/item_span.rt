//! Replies inside an array, where the bytes of bulk strings stand in a block.
use crate::span::Span;

/// A reply inside an array, of a bulk string its span.
#[derive(Clone, Copy)]
pub enum ItemSpan {
    Integer(i64),
    Bulk(Span),
    Null,
}
