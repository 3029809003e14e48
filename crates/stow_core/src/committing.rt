//! Carrying answers out, with the memory that they have.
ghost use Rattle.stow_model.specs.Login.{IsTenant};
ghost use Rattle.stow_model.specs.Store.{counted};
ghost use Rattle.stow_core.specs.State.{store_of, Moves};
ghost use Rattle.stow_core.specs.Prepared.{after_written, after_refusal, after_take, after_drop, CanPut, CanTakeSnapshot, CanDropSnapshot};

use crate::Core;
use crate::pinning::{add_pin, remove_pin};
use crate::write::Write;
use crate::writes::put;
use itoa::Buffer;
use std::alloc::Allocator;
use stow_ledger::charge::Charge;

impl<A: Allocator + Copy> Core<A> {
    /// Counts a request of the tenant's.
    pub(crate) fn count(&mut self, tenant: u32)
        requires { IsTenant self.old.entries tenant }
        ensures { Moves self.old tenant (counted (store_of self.old tenant)) self.new }
    {
        self.tenancies[tenant as usize - 1].count();
    }

    /// Counts a request of the tenant's, and the refusal of its write.
    pub(crate) fn refuse(&mut self, tenant: u32)
        requires { IsTenant self.old.entries tenant }
        ensures { Moves self.old tenant (after_refusal (store_of self.old tenant)) self.new }
    {
        self.tenancies[tenant as usize - 1].refuse();
    }

    /// Carries a write of the tenant's out, and keeps the length that it tells, and the memory of its keys for the next
    /// one.
    pub(crate) fn put(&mut self, tenant: u32, write: Write<'_, A>)
        requires { CanPut self.old tenant write }
        ensures { Moves self.old tenant
            (after_written write.entry (store_of self.old tenant)) self.new }
    {
        let Write {
            keys,
            given,
            charge,
            length,
        } = write;
        let index = tenant as usize - 1;
        let number = self.tenancies[index].versions.last() + 1;
        let mut text = Buffer::new();
        put(
            &mut self.tree,
            number,
            given.op(&mut text),
            keys.lent(),
            &self.places,
        );
        self.keys = keys;
        let before = self.tenancies[index].account.present();
        self.held.count(before, charge);
        self.tenancies[index].write(charge);
        self.lengths.keep(tenant, number, length);
    }

    /// Takes a snapshot of the tenant's rows.
    pub(crate) fn take(&mut self, tenant: u32)
        requires { CanTakeSnapshot self.old tenant }
        ensures { Moves self.old tenant (after_take (store_of self.old tenant)) self.new }
    {
        let index = tenant as usize - 1;
        let last = self.tenancies[index].versions.last();
        add_pin(&mut self.pins, tenant, last);
        self.pin_room = 0;
        self.tenancies[index].take();
    }

    /// Drops a snapshot of the tenant's. Its pin goes, unless another snapshot has its number.
    pub(crate) fn drop_snapshot(&mut self, tenant: u32, id: u64, charge: Charge)
        requires { CanDropSnapshot self.old tenant id charge }
        ensures { Moves self.old tenant (after_drop id (store_of self.old tenant)) self.new }
    {
        let index = tenant as usize - 1;
        let before = self.tenancies[index].account.present();
        self.held.count(before, charge);
        let number = self.tenancies[index].drop_snapshot(id, charge);
        remove_pin(&mut self.pins, tenant, number);
        self.pin_room = 0;
    }
}
