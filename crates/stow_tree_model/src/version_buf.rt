//! Versions with memory of their own.
use crate::tenant_key_buf::TenantKeyBuf;
use std::alloc::{Allocator, Global};
use stow_bytes::byte_string::ByteString;

/// What a key has from a number on, with memory of its own. Its value may be above the limit of values.
#[derive(Drop)]
pub struct VersionBuf<A: Allocator = Global> {
    pub key: TenantKeyBuf<A>,
    pub number: u64,
    /// Nothing, where the write took the key's value away.
    pub value: Option<ByteString<A>>,
}
