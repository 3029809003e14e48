//! Replies inside an array.

/// A reply inside an array, lent. No command answers an array inside an array.
#[derive(Clone, Copy)]
pub enum Item<'a> {
    Integer(i64),
    Bulk(&'a [u8]),
    Null,
}
