//! Snapshots: taking and dropping them, and what they show.
ghost use Rattle.std.specs.FinMap as map;
ghost use Rattle.std.specs.Prelude.{◌≡◌, ◌≢◌, ◌≤◌, All, IfErr, IfOk, IfSome, IsFalse, OnOk};
ghost use Rattle.stow_bytes.specs.Limits.{number_limit};
ghost use Rattle.stow_model.specs.declared.refusal.Refusal.TheVariants as refusal;
ghost use Rattle.stow_model.specs.declared.reply.Reply.TheVariants as told;
ghost use Rattle.stow_model.specs.Command.{DropSnapshot, GetInSnapshot, RangeInSnapshot, TakeSnapshot};
ghost use Rattle.stow_model.specs.Login.{IsTenant};
ghost use Rattle.stow_model.specs.Reply.{reply_of};
ghost use Rattle.stow_model.specs.Reply as reply;
ghost use Rattle.stow_model.specs.Store.{can_take, id_items, number_in};
ghost use Rattle.stow_ledger.specs.StowState.State.{IsSound};
ghost use Rattle.stow_core.specs.Legal.{IsShortKey};
ghost use Rattle.stow_core.specs.Prepared.{IsCharged, IsPrepared, after_drop, serves};
ghost use Rattle.stow_core.specs.State.{rows_in, shared_of, store_of, IsNumberOf, IsSnapshotOf, Keeps};
ghost use Rattle.stow_core.specs.Tenancies.{tenancy_at, versions_of};
ghost use Rattle.stow_versions.specs.VersionsState.{IsReady};
ghost use Rattle.stow_versions.specs.declared.snapshot_fault.SnapshotFault.TheVariants.{OutOfMemory};

use crate::Core;
use crate::change::Change;
use crate::interval::Interval;
use crate::prepared::Prepared;
use crate::preparing::{counted, only_counted};
use crate::rows_at::RowsAt;
use crate::snapshot::Snapshot;
use std::alloc::{AllocError, Allocator};
use stow_bytes::limits::NUMBER_LIMIT;
use stow_dropping::dropping::charge_of_drop;
use stow_ledger::charge::Charge;
use stow_model::items::Items;
use stow_model::refusal::Refusal;
use stow_model::reply::Reply;
use stow_model::simple_string::SimpleString;
use stow_model::snapshot_id::number_in;
use stow_versions::snapshot_fault::SnapshotFault;
use stow_versions::versions::Versions;

impl<A: Allocator + Copy> Core<A> {
    /// The snapshot of the tenant's that has the id, if it is live.
    fn snapshot(&self, tenant: u32, id: i64) -> Option<Snapshot>
        requires { IsTenant self.now.entries tenant }
        ensures { IsSnapshotOf self.now tenant id result }
    {
        let id = number_in(id)?;
        let number = self.tenancy(tenant).versions.number_of(id)?;
        let rows = RowsAt { tenant, number };
        Some(Snapshot { id, rows })
    }

    /// Finds what taking a snapshot says, and makes room for it and its pin.
    pub(crate) fn prepare_take<'a>(&mut self, tenant: u32) -> Result<Prepared<'a, A>, AllocError>
        requires is_tenant { IsTenant self.old.entries tenant }
        requires sound { IsSound (shared_of self.old) }
        ensures { IsPrepared self.old tenant (serves TakeSnapshot) self.new result }
    {
        match self.make_snapshot_room(tenant) {
            Ok(()) => {
                self.make_pin_room(tenant)?;
                let id = self.tenancy(tenant).versions.next();
                Ok(Prepared {
                    tenant,
                    change: Change::Take,
                    reply: Reply::Integer(id as i64),
                })
            }
            Err(SnapshotFault::OutOfMemory) => Err(AllocError),
            Err(SnapshotFault::TooMany | SnapshotFault::IdsUsedUp) => {
                Ok(only_counted(tenant, Reply::Error(Refusal::TooManySnapshots)))
            }
        }
    }

    /// Makes room for the tenant's next snapshot, without its pin. It is refused where none can be taken, and where memory
    /// is.
    fn make_snapshot_room(&mut self, tenant: u32) -> Result<(), SnapshotFault>
        requires { IsTenant self.old.entries tenant }
        ensures keeps { Keeps self.old self.new }
        ensures ready { OnOk result (IfSome (tenancy_at tenant self.new.tenancies)
            (λ own. IsReady (versions_of own))) }
        ensures refused { IfErr result (λ fault. fault ≢ OutOfMemory
            → IsFalse (can_take (store_of self.old tenant))) }
    {
        self.tenancies[tenant as usize - 1].versions.ready()
    }

    /// Makes room for the tenant's next pin.
    fn make_pin_room(&mut self, tenant: u32) -> Result<(), AllocError>
        ensures same { self.new ≡ record self.old { pin_room = self.new.pin_room } }
        ensures room { OnOk result (self.new.pin_room ≡ tenant) }
    {
        self.pin_room = 0;
        self.pins.room(tenant)?;
        self.pin_room = tenant;
        Ok(())
    }

    /// The live snapshots' ids.
    pub(crate) fn snapshot_ids(&self, alloc: A, tenant: u32) -> Result<Reply<A>, AllocError>
        requires { IsTenant self.now.entries tenant }
        ensures { IfOk result (λ r. reply_of r
            ≡ reply.Array (id_items (store_of self.now tenant))) }
    {
        let ids = ids_of(&self.tenancy(tenant).versions);
        let mut items = Items::with_capacity(alloc, ids.len(), 0)?;
        for id in ids {
            items.push_integer(*id as i64)?;
        }
        Ok(Reply::Array(items))
    }

    /// Finds what a GET in a snapshot says.
    pub(crate) fn prepare_get<'a>(
        &mut self,
        buffer: &mut Vec<u8, A>,
        alloc: A,
        tenant: u32,
        id: i64,
        key: &[u8],
    ) -> Result<Prepared<'a, A>, AllocError>
        requires is_tenant { IsTenant self.old.entries tenant }
        requires sound { IsSound (shared_of self.old) }
        requires short { IsShortKey key.now }
        ensures { IsPrepared self.old tenant (serves (GetInSnapshot id key.now)) self.new result }
    {
        match self.snapshot(tenant, id) {
            None => Ok(no_such_snapshot(tenant)),
            Some(snapshot) => counted(tenant, self.value(buffer, alloc, snapshot.rows, key)),
        }
    }

    /// Finds what a RANGE in a snapshot says.
    pub(crate) fn prepare_range<'a>(
        &mut self,
        buffer: &mut Vec<u8, A>,
        alloc: A,
        interval: Interval<'_>,
        id: i64,
        count: u32,
    ) -> Result<Prepared<'a, A>, AllocError>
        requires is_tenant { IsTenant self.old.entries interval.tenant }
        requires sound { IsSound (shared_of self.old) }
        requires from { IsShortKey interval.from.now }
        requires to { IsShortKey interval.to.now }
        ensures { IsPrepared self.old interval.entry.tenant
            (serves (RangeInSnapshot id interval.entry.from.now interval.entry.to.now count))
            self.new result }
    {
        let tenant = interval.tenant;
        match self.snapshot(tenant, id) {
            None => Ok(no_such_snapshot(tenant)),
            Some(snapshot) => {
                let number = snapshot.rows.number;
                counted(
                    tenant,
                    self.rows_within(buffer, alloc, interval, number, count),
                )
            }
        }
    }

    /// The charge once the tenant's snapshot of this id is dropped, which shows these rows. It is the present one where
    /// they are the present rows, or another snapshot shows them.
    fn charge_of_drop(&self, alloc: A, rows: RowsAt, id: u64) -> Result<Charge, AllocError>
        requires is_tenant { IsTenant self.now.entries rows.tenant }
        requires shows { IsNumberOf self.now rows.tenant id rows.number }
        ensures { IfOk result (λ charge. IsCharged self.now rows.tenant charge
            (after_drop id (store_of self.now rows.tenant))) }
    {
        let tree = &self.tree;
        let tenancy = self.tenancy(rows.tenant);
        let account = &tenancy.account;
        if rows.number == tenancy.versions.last() {
            return Ok(account.present());
        }
        let left = tenancy.versions.numbers_without(alloc, id)?;
        if left.as_slice().contains(&rows.number) {
            return Ok(account.present());
        }
        charge_of_drop(
            alloc,
            tree,
            account,
            rows.tenant,
            rows.number,
            left.as_slice(),
        )
    }

    /// Finds what dropping a snapshot says, and what stays charged.
    pub(crate) fn prepare_drop<'a>(
        &mut self,
        alloc: A,
        tenant: u32,
        id: i64,
    ) -> Result<Prepared<'a, A>, AllocError>
        requires is_tenant { IsTenant self.old.entries tenant }
        requires sound { IsSound (shared_of self.old) }
        ensures { IsPrepared self.old tenant (serves (DropSnapshot id)) self.new result }
    {
        match self.snapshot(tenant, id) {
            None => Ok(no_such_snapshot(tenant)),
            Some(snapshot) => {
                let charge = self.charge_of_drop(alloc, snapshot.rows, snapshot.id)?;
                Ok(Prepared {
                    tenant,
                    change: Change::Drop(snapshot.id, charge),
                    reply: Reply::Simple(SimpleString::Ok),
                })
            }
        }
    }
}

/// The live snapshots' ids, each within the limit of numbers.
fn ids_of<A: Allocator + Copy>(versions: &Versions<A>) -> &[u64]
    ensures ids { result.now ≡ map.keys versions.now.snapshots }
    ensures within { All (λ id. id ≤ number_limit) result.now }
{
    let last = versions.last();
    prove!(last <= NUMBER_LIMIT);
    versions.ids()
}

/// The answer to a request for a snapshot that isn't live.
fn no_such_snapshot<'a, A: Allocator>(tenant: u32) -> Prepared<'a, A>
    ensures { result ≡ record {
      tenant = tenant;
      change = Change.Count;
      reply = told.Error refusal.NoSuchSnapshot;
    } }
{
    only_counted(tenant, Reply::Error(Refusal::NoSuchSnapshot))
}
