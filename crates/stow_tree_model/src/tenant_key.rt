//! Keys of all tenants, lent.
ghost use Rattle.std.specs.Prelude.{◌≡◌};
ghost use Rattle.stow_tree_model.specs.Keys.{tenant_of, IsTenantKey};

use stow_bytes::compare::compare;

/// A tenant's key among the keys of all, lent: the tenant's index in four bytes, the highest first, then the key's
/// own bytes. Where an interval ends, the index may be 0 or one above those of tenants.
#[derive(Clone, Copy)]
pub struct TenantKey<'a> {
    pub bytes: &'a [u8],
    pub ghost is_key: { IsTenantKey bytes.now },
}

impl<'a> TenantKey<'a> {
    ghost use Rattle.stow_tree_model.specs.Merged.{same_key};

    /// The key that these bytes are.
    pub fn from_packed(bytes: &'a [u8]) -> TenantKey<'a>
        requires { IsTenantKey bytes.now }
        ensures { result.bytes.now ≡ bytes.now }
    {
        TenantKey { bytes }
    }

    /// The index of the tenant whose key it is.
    pub fn tenant(self) -> u32
        ensures { result ≡ tenant_of self.entry.bytes.now }
    {
        u32::from_be_bytes([self.bytes[0], self.bytes[1], self.bytes[2], self.bytes[3]])
    }

    /// Whether the two keys are one.
    #[inline(always)]
    pub fn is_same(self, other: TenantKey<'_>) -> bool
        ensures { result ≡ same_key self.entry.bytes.now other.entry.bytes.now }
    {
        compare(self.bytes, other.bytes).is_eq()
    }
}
