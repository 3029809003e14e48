//! One tenant's account.
ghost use Rattle.std.specs.Prelude.{◌≡◌, ◌≤◌, IsTrue};
ghost use Rattle.stow_versions.specs.StowBytes.Limits.{number_limit};
ghost use Rattle.stow_state.specs.StowModel.Store.{one_more, AreWithin};
ghost use Rattle.stow_ledger.specs.Charges.{charge_after_write, charge_after_drop};

use crate::charge::Charge;
use crate::row_change::RowChange;
use crate::shown_row::ShownRow;
use std::alloc::Allocator;
use std::marker::Model;
use stow_state::stow_model::usage::Usage;
use stow_versions::stow_bytes::limits::NUMBER_LIMIT;
use stow_versions::versions::Versions;

/// A tenant's quota, what it is charged, and what is counted for it.
#[derive(Clone, Copy)]
pub struct Account {
    quota: u64,
    charge: u64,
    rows: u64,
    commands: u64,
    refusals: u64,
}

impl Model for Account {
    ghost use Rattle.std.specs.Prelude.{◌≤◌};
    ghost use Rattle.stow_versions.specs.StowBytes.Limits.{number_limit};
    ghost use Rattle.stow_ledger.specs.Accounts.{AccountState};

    ghost Value = { AccountState };

    ghost view = { λ a. record {
      quota = a.quota;
      charge = a.charge;
      rows = a.rows;
      commands = a.commands;
      refusals = a.refusals;
    } };

    ghost invariant = { λ a. (a.quota ≤ number_limit) × (a.charge ≤ number_limit)
        × (a.commands ≤ number_limit) × (a.refusals ≤ number_limit) };

    ghost inverse = { λ v. record {
      quota = v.quota;
      charge = v.charge;
      rows = v.rows;
      commands = v.commands;
      refusals = v.refusals;
    } };
}

impl Account {
    ghost use Rattle.stow_ledger.specs.Accounts.{new_account, present_charge, is_allowed, IsGivenBy, usage_of};

    /// Nothing is charged or counted yet.
    pub fn new(quota: u64) -> Account
        requires { quota ≤ number_limit }
        ensures { result ≡ new_account quota }
    {
        Account {
            quota,
            charge: 0,
            rows: 0,
            commands: 0,
            refusals: 0,
        }
    }

    /// The charge as it is, with which a change begins.
    pub fn present(&self) -> Charge
        ensures present { result ≡ present_charge self.now }
        ensures given { IsGivenBy self.now result }
        ensures within { result.charge ≤ number_limit }
    {
        Charge {
            charge: self.charge,
            rows: self.rows,
        }
    }

    /// The charge once a row is changed by a write too, under the tenant's pins. The version that the write takes away
    /// stays charged where a pin is at or above its number.
    pub fn after_write(&self, so_far: Charge, change: &RowChange, pins: &[u64]) -> Charge
        requires given { IsGivenBy self.now so_far }
        requires charge_within { so_far.charge ≤ number_limit }
        requires rows_within { so_far.rows ≤ number_limit }
        ensures charge { result ≡ charge_after_write so_far change.now pins.now }
        ensures given { IsGivenBy self.now result }
    {
        so_far.after_write(change, pins)
    }

    /// The charge once a snapshot is dropped that showed these rows too, under the pins that stay. A version stays
    /// charged where the present or a pin shows it. The rows may come in parts, each with the charge so far.
    pub fn after_drop(&self, so_far: Charge, rows: &[ShownRow], pins: &[u64]) -> Charge
        requires { IsGivenBy self.now so_far }
        ensures charge { result ≡ charge_after_drop so_far rows.now pins.now }
        ensures given { IsGivenBy self.now result }
        ensures lower { result.charge ≤ so_far.charge }
    {
        so_far.after_drop(rows, pins)
    }

    /// Whether a write may lead to a charge: unless that is above the quota and above the charge before it.
    pub fn allows(&self, outcome: Charge) -> bool
        ensures { result ≡ is_allowed self.now outcome }
    {
        outcome.charge <= self.quota || outcome.charge <= self.charge
    }

    /// Takes over a charge that this account gave.
    pub fn commit(&mut self, outcome: Charge)
        requires given { IsGivenBy self.old outcome }
        requires allowed { IsTrue (is_allowed self.old outcome) }
        ensures { self.new ≡ record self.old { charge = outcome.charge; rows = outcome.rows } }
    {
        self.charge = outcome.charge;
        self.rows = outcome.rows;
    }

    /// One more request was answered.
    pub fn served(&mut self)
        ensures { self.new ≡ record self.old { commands = one_more self.old.commands } }
    {
        self.commands = one_more(self.commands);
    }

    /// One more write was refused because of the quota.
    pub fn refused(&mut self)
        ensures { self.new ≡ record self.old { refusals = one_more self.old.refusals } }
    {
        self.refusals = one_more(self.refusals);
    }

    /// The quota is another from now on, in bytes.
    pub fn set_quota(&mut self, quota: u64)
        requires { quota ≤ number_limit }
        ensures { self.new ≡ record self.old { quota = quota } }
    {
        self.quota = quota;
    }

    /// The usage report, with the writes and the snapshots of the tenant's versions.
    pub fn report<A: Allocator + Copy>(&self, versions: &Versions<A>) -> Usage
        ensures usage { result ≡ usage_of self.now versions.now }
        ensures within { self.now.rows ≤ number_limit → AreWithin result }
    {
        Usage {
            rows: self.rows,
            charge: self.charge,
            quota: self.quota,
            writes: versions.last(),
            commands: self.commands,
            refusals: self.refusals,
            snapshots: versions.live() as u64,
        }
    }
}

fn one_more(count: u64) -> u64
    ensures { result ≡ one_more count }
{
    if count < NUMBER_LIMIT {
        count + 1
    } else {
        count
    }
}
