//! Changes on their way to a leaf.
ghost use Rattle.std.specs.Prelude.{◌≤◌, length};
ghost use Rattle.stow_bytes.specs.Limits.{value_limit, number_limit};
ghost use Rattle.stow_tree_model.specs.Keys.{IsOfTenant};
ghost use Rattle.stow_tree_model.specs.Op.{op_of, bytes_in};

use crate::op::Op;
use crate::tenant_key::TenantKey;

/// A change of one key on its way to a leaf, lent.
#[derive(Clone, Copy)]
pub struct Message<'a> {
    pub key: TenantKey<'a>,
    /// The write that it is of, from 1.
    pub number: u64,
    pub op: Op<'a>,
    pub ghost is_of_tenant: { IsOfTenant key.bytes.now },
    pub ghost is_numbered: { (1 ≤ number) × (number ≤ number_limit) },
    pub ghost is_short: { length (bytes_in (op_of op)) ≤ value_limit },
}
