//! What keys have from a number on.
ghost use Rattle.std.specs.Prelude.{◌≤◌};
ghost use Rattle.stow_bytes.specs.Limits.{number_limit};
ghost use Rattle.stow_tree_model.specs.Keys.{IsOfTenant};
ghost use Rattle.stow_tree_model.specs.Value.{IsValue, bytes_at};

use crate::tenant_key::TenantKey;

/// What a key has from a number on, lent: a value, or nothing.
#[derive(Clone, Copy)]
pub struct Version<'a> {
    pub key: TenantKey<'a>,
    /// The write that made it, from 1.
    pub number: u64,
    /// Nothing, where the write took the key's value away.
    pub value: Option<&'a [u8]>,
    pub ghost is_of_tenant: { IsOfTenant key.bytes.now },
    pub ghost is_numbered: { (1 ≤ number) × (number ≤ number_limit) },
    pub ghost is_short: { IsValue (bytes_at value) },
}
