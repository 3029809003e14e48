//! Keys of all tenants, owned.
ghost use Rattle.std.specs.Prelude.{◌≡◌, ◌+◌, ◌≤◌, IfOk, length};
ghost use Rattle.stow_bytes.specs.Limits.{key_limit, tenant_limit};
ghost use Rattle.stow_tree_model.specs.Keys.{packed};

use crate::tenant_key::TenantKey;
use std::alloc::{AllocError, Allocator, Global};
use std::marker::Model;
use stow_bytes::byte_string::ByteString;

/// A tenant's key among the keys of all, with memory of its own.
#[derive(Drop)]
pub struct TenantKeyBuf<A: Allocator = Global> {
    bytes: ByteString<A>,
}

impl<A: Allocator> Model for TenantKeyBuf<A> {
    ghost use Rattle.std.specs.Prelude.{ℕ, List};
    ghost use Rattle.stow_tree_model.specs.Keys.{IsTenantKey};

    ghost Value = { List ℕ };

    ghost view = { λ k. k.bytes };

    ghost invariant = { λ k. IsTenantKey k.bytes };
}

impl<A: Allocator> TenantKeyBuf<A> {
    /// The tenant's key of these bytes.
    pub fn new(alloc: A, tenant: u32, key: &[u8]) -> Result<TenantKeyBuf<A>, AllocError>
        requires index { tenant ≤ tenant_limit + 1 }
        requires short { length key.now ≤ key_limit }
        ensures { IfOk result (λ k. k ≡ packed tenant key.now) }
    {
        let mut bytes = Vec::new(alloc);
        bytes.reserve(key.len().saturating_add(4))?;
        bytes.extend_from_slice(&tenant.to_be_bytes())?;
        bytes.extend_from_slice(key)?;
        Ok(TenantKeyBuf {
            bytes: ByteString::from_vec(bytes),
        })
    }

    /// A copy of a key.
    pub fn from_key(alloc: A, key: TenantKey<'_>) -> Result<TenantKeyBuf<A>, AllocError>
        ensures { IfOk result (λ k. k ≡ key.entry.bytes.now) }
    {
        Ok(TenantKeyBuf {
            bytes: ByteString::from_slice(alloc, key.bytes)?,
        })
    }

    /// The key, lent.
    pub fn as_key(&self) -> TenantKey<'_>
        ensures { result.bytes.now ≡ self.now }
    {
        TenantKey {
            bytes: self.bytes.as_slice(),
        }
    }
}
