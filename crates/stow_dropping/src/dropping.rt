//! The charge after a drop.
ghost use Rattle.std.specs.Prelude.{◌≤◌, IfOk};
ghost use Rattle.stow_tree_model.specs.StowBytes.Limits.{tenant_limit};
ghost use Rattle.stow_ledger.specs.Accounts.{IsGivenBy};
ghost use Rattle.stow_tree.specs.TreeState.{tree_messages};
ghost use Rattle.stow_dropping.specs.Dropping.{IsChargeWithout};

use crate::parts::rows_of;
use std::alloc::{AllocError, Allocator};
use stow_ledger::account::Account;
use stow_ledger::charge::Charge;
use stow_tree::stow_read::row_head::RowHead;
use stow_tree::stow_read::start::Start;
use stow_tree::tree::Tree;
use stow_tree_model::tenant_key_buf::TenantKeyBuf;

/// How many rows a part has, at most.
const PART: usize = 1024;

/// The charge, in bytes, once a snapshot is dropped that showed a tenant's rows at a number, under the pins that stay. The
/// rows are walked in parts of at most 1,024. It is refused where memory for a part is.
pub fn charge_of_drop<A: Allocator + Copy>(
    alloc: A,
    tree: &Tree<A>,
    account: &Account,
    tenant: u32,
    number: u64,
    pins: &[u64],
) -> Result<Charge, AllocError>
    requires index { tenant ≤ tenant_limit }
    ensures given { IfOk result (IsGivenBy account.now) }
    ensures lower { IfOk result (λ left. left.charge ≤ account.now.charge) }
    ensures charged { IfOk result
        (IsChargeWithout (tree_messages tree.now) tenant number account.now pins.now) }
{
    let to = TenantKeyBuf::new(alloc, tenant + 1, b"")?;
    let mut from = TenantKeyBuf::new(alloc, tenant, b"")?;
    let mut after = false;
    let mut left = account.present();
    loop {
        let start = Start {
            key: from.as_key(),
            after,
        };
        let mut heads = tree.walk(alloc, start, to.as_key(), number, PART)?;
        let rows = rows_of(alloc, heads.as_slice())?;
        left = account.after_drop(left, rows.as_slice(), pins);
        if heads.len() < PART {
            return Ok(left);
        }
        let Some(last) = heads.pop() else {
            return Ok(left);
        };
        from = last.key;
        after = true;
    }
}
