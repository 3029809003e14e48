//! Whether a merge that was made under the pins of its plan serves the present ones.
ghost use Rattle.std.specs.Prelude.{◌↔◌, ◌⊎◌, ◌≤◌, All, Contains, IsTrue};
ghost use Rattle.stow_merge.specs.Covering.{Covers, IsCovered};
ghost use Rattle.stow_merge.specs.Pins.{pins_in};
ghost use Rattle.stow_page.specs.StowTreeModel.Keys.{tenant_of};

use crate::pins::Pins;
use std::alloc::Allocator;
use stow_message::message_buf::MessageBuf;
use stow_page::rows::Rows;
use stow_page::stow_tree_model::tenant_key::TenantKey;

/// Whether the pin was used, or isn't below the number.
fn is_pin_covered(used: &[u64], pin: u64, number: u64) -> bool
    ensures { IsTrue result ↔ (Contains used.now pin ⊎ number ≤ pin) }
{
    number <= pin || used.contains(&pin)
}

/// Whether each present pin was used, or isn't below the number.
fn is_covered(used: &[u64], present: &[u64], number: u64) -> bool
    ensures { IsTrue result ↔ IsCovered used.now present.now number }
{
    for i in 0..present.len() {
        if !is_pin_covered(used, present[i], number) {
            return false;
        }
    }
    true
}

/// The same for a key's tenant.
fn is_key_covered<A: Allocator + Copy, B: Allocator + Copy>(
    used: &Pins<A>,
    present: &Pins<B>,
    key: TenantKey<'_>,
    number: u64,
) -> bool
    ensures { IsTrue result ↔ IsCovered (pins_in used.now (tenant_of key.entry.bytes.now))
        (pins_in present.now (tenant_of key.entry.bytes.now)) number }
{
    let tenant = key.tenant();
    is_covered(used.of(tenant), present.of(tenant), number)
}

/// Whether no present pin shows a version that a merge under the used ones may leave out.
pub(crate) fn are_rows_covered<A: Allocator + Copy, B: Allocator + Copy>(
    used: &Pins<A>,
    present: &Pins<B>,
    rows: &Rows<A>,
) -> bool
    ensures { IsTrue result ↔ All (λ v. IsCovered (pins_in used.now (tenant_of v.key))
        (pins_in present.now (tenant_of v.key)) v.number) rows.now }
{
    for i in 0..rows.len() {
        let version = rows.get(i);
        if !is_key_covered(used, present, version.key, version.number) {
            return false;
        }
    }
    true
}

/// The same of messages.
pub(crate) fn is_batch_covered<A: Allocator + Copy, B: Allocator + Copy>(
    used: &Pins<A>,
    present: &Pins<B>,
    batch: &MessageBuf<A>,
) -> bool
    ensures { IsTrue result ↔ All (λ m. IsCovered (pins_in used.now (tenant_of m.key))
        (pins_in present.now (tenant_of m.key)) m.number) batch.now.messages }
{
    for i in 0..batch.len() {
        let message = batch.message(i);
        if !is_key_covered(used, present, message.key, message.number) {
            return false;
        }
    }
    true
}
