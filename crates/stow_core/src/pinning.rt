//! Pins that come with snapshots and go with them.
ghost use Rattle.std.specs.Prelude.{◌≡◌, ◌≢◌, ◌<◌, ◌≤◌, ◌||◌, ◌==◌, ℕ, Contains, length};
ghost use Rattle.stow_core.specs.Tenancies.{is_among, without};
ghost use Rattle.stow_dropping.specs.StowMerge.PinLists.{pin_limit};
ghost use Rattle.stow_dropping.specs.StowMerge.Pins.{pins_in, room_in};
ghost use Rattle.stow_tree_model.specs.Agreement.{with_pins};

use std::alloc::Allocator;
use stow_dropping::stow_merge::pins::Pins;

/// Adds a tenant's pin that is none below the others, unless it is there.
pub(crate) fn add_pin<A: Allocator + Copy>(pins: &mut Pins<A>, tenant: u32, number: u64)
    requires room { 0 < room_in pins.old tenant }
    requires few { length (pins_in pins.old tenant) < pin_limit }
    requires above { (p : ℕ) → Contains (pins_in pins.old tenant) p → p ≤ number }
    ensures own { (n : ℕ) → is_among n (pins_in pins.new tenant)
        ≡ (is_among n (pins_in pins.old tenant) || (number == n)) }
    ensures others { (t : ℕ) → t ≢ tenant → pins_in pins.new t ≡ pins_in pins.old t }
{
    if !pins.of(tenant).contains(&number) {
        pins.add(tenant, number);
    }
}

/// Takes a tenant's pin away, if one is to go.
pub(crate) fn remove_pin<A: Allocator + Copy>(pins: &mut Pins<A>, tenant: u32, number: Option<u64>)
    ensures { (t : ℕ) → pins_in pins.new t
        ≡ with_pins (pins_in pins.old) tenant (without number (pins_in pins.old tenant)) t }
{
    if let Some(number) = number {
        pins.remove(tenant, number);
    }
}
