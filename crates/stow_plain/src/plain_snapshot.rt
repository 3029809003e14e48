//! A snapshot in the plain store.
use crate::plain_rows::PlainRows;
use std::alloc::{Allocator, Global};

/// A live snapshot's id, and a whole copy of the rows.
#[derive(Drop)]
pub struct PlainSnapshot<A: Allocator = Global> {
    pub id: u64,
    pub rows: PlainRows<A>,
}
