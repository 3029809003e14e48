//! Where keys are looked for from.
use stow_tree_model::tenant_key::TenantKey;

/// Where keys are looked for from: this key on, or after it.
#[derive(Clone, Copy)]
pub struct Start<'a> {
    pub key: TenantKey<'a>,
    pub after: bool,
}
