//! What a tenant uses.
ghost use Rattle.std.specs.Prelude.{◌≡◌, ◌≤◌, ◌++◌, ◌∷◌, [], pos, IfOk, OnOk};
ghost use Rattle.stow_bytes.specs.Limits.{number_limit};
ghost use Rattle.stow_model.specs.Item.{Bulk, Integer};
ghost use Rattle.stow_model.specs.Store.{usage_items, AreWithin};

use crate::items::Items;
use std::alloc::{AllocError, Allocator};

/// A tenant's usage report.
#[derive(Clone, Copy, Debug, PartialEq, Eq)]
pub struct Usage {
    /// How many rows there are.
    pub rows: u64,
    /// The bytes that are charged.
    pub charge: u64,
    /// The most bytes that may be charged.
    pub quota: u64,
    /// The number of the last write.
    pub writes: u64,
    /// How many requests were answered, the refused ones too.
    pub commands: u64,
    /// How many writes were refused because of the quota.
    pub refusals: u64,
    /// How many snapshots are live.
    pub snapshots: u64,
}

impl Usage {
    /// Each number behind its name, as a reply tells them.
    pub fn items<A: Allocator + Copy>(&self, alloc: A) -> Result<Items<A>, AllocError>
        requires { AreWithin self.now }
        ensures { IfOk result (λ items. items ≡ usage_items self.now) }
    {
        let mut items = Items::with_capacity(alloc, 14, 64)?;
        push_number(&mut items, b"rows", self.rows)?;
        push_number(&mut items, b"charge", self.charge)?;
        push_number(&mut items, b"quota", self.quota)?;
        push_number(&mut items, b"writes", self.writes)?;
        push_number(&mut items, b"commands", self.commands)?;
        push_number(&mut items, b"refusals", self.refusals)?;
        push_number(&mut items, b"snapshots", self.snapshots)?;
        Ok(items)
    }
}

fn push_number<A: Allocator>(
    items: &mut Items<A>,
    name: &[u8],
    number: u64,
) -> Result<(), AllocError>
    requires { number ≤ number_limit }
    ensures { OnOk result (items.new ≡ items.old ++ Bulk name.now ∷ Integer (pos number) ∷ []) }
{
    items.push_bulk(name)?;
    items.push_integer(number as i64)?;
    Ok(())
}
