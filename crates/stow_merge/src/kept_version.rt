//! What a merge keeps.
ghost use Rattle.std.specs.Prelude.{◌≤◌};
ghost use Rattle.stow_page.specs.StowBytes.Limits.{number_limit};
ghost use Rattle.stow_page.specs.StowTreeModel.Keys.{IsOfTenant};

use stow_page::stow_tree_model::tenant_key::TenantKey;

/// A version that a merge keeps, told by where its bytes stand among the joined messages, so that an append is
/// written after what stands below it without a copy of either.
#[derive(Clone, Copy)]
pub struct KeptVersion<'a> {
    pub key: TenantKey<'a>,
    pub number: u64,
    /// The first message whose bytes the value has. `None` where the key has no value.
    pub from: Option<usize>,
    /// The message after the last whose bytes the value has.
    pub to: usize,
    pub ghost is_of_tenant: { IsOfTenant key.bytes.now },
    pub ghost is_numbered: { (1 ≤ number) × (number ≤ number_limit) },
}
