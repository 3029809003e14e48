//! Keys with what is told of their values.
use std::alloc::{Allocator, Global};
use stow_tree_model::tenant_key_buf::TenantKeyBuf;

/// A key that has a value at a number, with memory of its own, and what is told of the value.
#[derive(Drop)]
pub struct RowHead<A: Allocator = Global> {
    pub key: TenantKeyBuf<A>,
    /// The number of the write that made the value.
    pub number: u64,
    /// How many bytes the value has.
    pub length: u32,
    /// The number of the key's next message, if there is one: until then the value is the key's.
    pub next: Option<u64>,
}
