//! Where the keys of all leaves end.
ghost use Rattle.std.specs.Prelude.{◌≡◌};
ghost use Rattle.stow_leaf.specs.Intervals.{top_key};

use stow_merge::stow_tree_model::tenant_key::TenantKey;

/// The upper end of all tenants' keys.
pub fn top_key() -> TenantKey<'static>
    ensures { result.bytes.now ≡ top_key }
{
    TenantKey::from_packed(&[0, 1, 0, 0])
}
