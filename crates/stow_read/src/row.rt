//! Keys with their values.
use crate::found::Found;
use std::alloc::{Allocator, Global};
use stow_tree_model::tenant_key::TenantKey;

/// A key with its value. Both are lent, but for a value that appends make.
#[derive(Drop)]
pub struct Row<'a, A: Allocator = Global> {
    pub key: TenantKey<'a>,
    pub value: Found<'a, A>,
}
