//! A charge after a change.
ghost use Rattle.std.specs.Prelude.{◌≡◌, ◌≤◌};
ghost use Rattle.std.specs.List.{list_any};
ghost use Rattle.stow_versions.specs.StowBytes.Limits.{number_limit};
ghost use Rattle.stow_ledger.specs.Charges.{version_cost, is_pinned, is_between, is_shown, row_freed, charge_after_write, charge_after_drop};

use crate::row_change::RowChange;
use crate::shown_row::ShownRow;

/// What is beside a key and a value in the cost of a version, in bytes.
pub const VERSION_OVERHEAD: u64 = 16;

/// What a tenant is charged, and how many rows it has, after a change.
#[derive(Clone, Copy, Debug, PartialEq, Eq)]
pub struct Charge {
    /// The bytes that are charged.
    pub charge: u64,
    /// How many rows there are.
    pub rows: u64,
}

impl Charge {
    /// The charge once a row is changed by a write too, under the tenant's pins.
    pub(crate) fn after_write(self, change: &RowChange, pins: &[u64]) -> Charge
        requires charge_within { self.charge ≤ number_limit }
        requires rows_within { self.rows ≤ number_limit }
        ensures { result ≡ charge_after_write self change.now pins.now }
    {
        let (cost, brought) = match change.after {
            None => (0, 0),
            Some(length) => (cost_of(change.key, length), 1),
        };
        let (freed, taken) = match change.before {
            None => (0, 0),
            Some(version) if is_pinned(version.number, pins) => (0, 1),
            Some(version) => (cost_of(change.key, version.length), 1),
        };
        Charge {
            charge: (self.charge + cost).saturating_sub(freed),
            rows: (self.rows + brought).saturating_sub(taken),
        }
    }

    /// The charge once a snapshot is dropped that showed these rows too, under the pins that stay.
    pub(crate) fn after_drop(self, rows: &[ShownRow], pins: &[u64]) -> Charge
        ensures { result ≡ charge_after_drop self rows.now pins.now }
    {
        let mut charge = self.charge;
        for row in rows {
            charge = charge.saturating_sub(freed_of(row, pins));
        }
        Charge {
            charge,
            rows: self.rows,
        }
    }
}

/// What a version costs, in bytes.
fn cost_of(key: u32, value: u32) -> u64
    ensures { result ≡ version_cost key value }
{
    u64::from(key) + u64::from(value) + VERSION_OVERHEAD
}

/// Whether a pin is at or above a number.
fn is_pinned(number: u64, pins: &[u64]) -> bool
    ensures { result ≡ is_pinned pins.now number }
{
    pins.iter().any(|pin| number <= *pin)
}

/// What a row that a dropped snapshot showed frees, in bytes.
fn freed_of(row: &ShownRow, pins: &[u64]) -> u64
    ensures { result ≡ row_freed pins.now row.now }
{
    if is_shown(row, pins) {
        0
    } else {
        cost_of(row.key, row.version.length)
    }
}

/// Whether the present shows a row's version, or a pin.
fn is_shown(row: &ShownRow, pins: &[u64]) -> bool
    ensures { result ≡ is_shown pins.now row.now }
{
    match row.next {
        None => true,
        Some(next) => is_any_between(row.version.number, next, pins),
    }
}

/// Whether a pin is at or above a number, and below the next.
fn is_any_between(number: u64, next: u64, pins: &[u64]) -> bool
    ensures { result ≡ list_any (is_between number next) pins.now }
{
    for pin in pins {
        if number <= *pin && *pin < next {
            return true;
        }
    }
    false
}
