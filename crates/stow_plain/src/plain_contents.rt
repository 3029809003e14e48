//! What a plain store shows, and what is charged for it.
ghost use Rattle.std.specs.Prelude.{◌≡◌, ℕ, ◌+◌, ◌<◌, ◌≤◌, ◌^◌, pos, ◌++◌, ◌∷◌, [], not, ◌==◌, filter, Some, None, is_some, if◌then◌else◌, IfOk, OnOk, OnErr, IsTrue};
ghost use Rattle.std.specs.Option.{option_copied, SomeIff};
ghost use Rattle.std.specs.Ordering.{nat_cmp};
ghost use Rattle.std.specs.FinMap.{find};
ghost use Rattle.std.specs.FinMap as map;
ghost use Rattle.stow_bytes.specs.Limits.{number_limit};
ghost use Rattle.stow_ledger.specs.Shown.{cost_of_all};
ghost use Rattle.stow_model.specs.Item.{Integer};
ghost use Rattle.stow_model.specs.Store as store;
ghost use Rattle.stow_model.specs.Store.{number_in};
ghost use Rattle.stow_plain.specs.Contents.{Contents, new_contents, bare, charge_of, is_allowed, pairs_of, shown_in};

use crate::plain_number::PlainNumber;
use crate::plain_rows::PlainRows;
use crate::plain_snapshot::PlainSnapshot;
use std::alloc::{AllocError, Allocator, Global};
use std::marker::Model;
use stow_bytes::limits::{NUMBER_LIMIT, SNAPSHOT_LIMIT};
use stow_model::items::Items;
use stow_model::snapshot_id::number_in;

/// The rows, and the live snapshots with rising ids, each with a whole copy of the rows. What is charged for them is at
/// most 9,223,372,036,854,775,807.
#[derive(Drop)]
pub struct PlainContents<A: Allocator = Global> {
    rows: PlainRows<A>,
    copies: Vec<PlainSnapshot<A>, A>,
    /// The next snapshot's id.
    next: u64,
}

impl<A: Allocator> Model for PlainContents<A> {
    ghost use Rattle.stow_plain.specs.Contents.{Contents, contents_code, snapshots_of, AreContents};

    ghost Value = { Contents };

    ghost coded = { contents_code };

    ghost view = { λ c. record {
      rows = c.rows;
      snapshots = snapshots_of c.copies.items;
      next = c.next;
    } };

    ghost invariant = { λ c. AreContents c.rows c.copies.items c.next };
}

impl<A: Allocator + Copy> PlainContents<A> {
    /// No rows and no snapshots.
    pub fn new(alloc: A) -> PlainContents<A>
        ensures { result ≡ new_contents }
    {
        PlainContents {
            rows: PlainRows::new(alloc),
            copies: Vec::new(alloc),
            next: 1,
        }
    }

    /// The present rows.
    pub fn rows(&self) -> &PlainRows<A>
        ensures { result.now ≡ self.now.rows }
    {
        &self.rows
    }

    /// The rows that a live snapshot shows.
    pub fn snapshot(&self, id: i64) -> Option<&PlainRows<A>>
        ensures { option_copied result ≡ store.snapshot_rows (bare self.now) id }
    {
        match number_in(id) {
            Some(number) => copy_of(&self.copies, number),
            None => None,
        }
    }

    /// How many snapshots are live.
    pub fn live(&self) -> usize
        ensures len { result ≡ map.len self.now.snapshots }
        ensures small { result < 2 ^ 63 }
    {
        self.copies.len()
    }

    /// The live snapshots' ids, rising.
    pub fn ids(&self, alloc: A) -> Result<Items<A>, AllocError>
        ensures { IfOk result (λ items. items ≡ store.id_items (bare self.now)) }
    {
        let mut items = Items::new(alloc);
        for copy in &self.copies {
            push_id(&mut items, copy.id)?;
        }
        Ok(items)
    }

    /// What is charged: each version that the rows or a copy show, once.
    pub fn charge(&self) -> u64
        ensures charge { result ≡ charge_of self.now }
        ensures within { result ≤ number_limit }
    {
        match total_cost(&self.rows, &self.copies) {
            Some(charge) => charge,
            None => unreachable!(),
        }
    }

    /// Takes over these rows, unless what is charged then is above the quota and above what is charged now. Whether they
    /// were taken over.
    pub fn replace(&mut self, quota: PlainNumber, rows: PlainRows<A>) -> bool
        ensures allowed { result
            ≡ is_allowed quota (charge_of self.old) (charge_of (record self.old { rows = rows })) }
        ensures replaced { self.new
            ≡ (if result then record self.old { rows = rows } else self.old) }
    {
        if !self.is_allowed(quota.get(), &rows) {
            return false;
        }
        self.rows = rows;
        true
    }

    /// Whether what is charged with these rows is not both above the quota and above what is charged now.
    fn is_allowed(&self, quota: u64, rows: &PlainRows<A>) -> bool
        ensures { result ≡ is_allowed quota (charge_of self.now)
            (charge_of (record self.now { rows = rows.now })) }
    {
        match total_cost(rows, &self.copies) {
            Some(charge) => charge <= quota || charge <= self.charge(),
            None => false,
        }
    }

    /// Whether an id is left, and few enough snapshots are live.
    pub fn can_take(&self) -> bool
        ensures { result ≡ store.can_take (bare self.now) }
    {
        self.copies.len() < SNAPSHOT_LIMIT && self.next <= NUMBER_LIMIT
    }

    /// Takes a snapshot, a copy of the rows, and tells its id. An `Err` changes nothing.
    pub fn take(&mut self, alloc: A) -> Result<u64, AllocError>
        requires { IsTrue (store.can_take (bare self.old)) }
        ensures id { IfOk result (λ id. id ≡ self.old.next) }
        ensures within { self.old.next ≤ number_limit }
        ensures taken { OnOk result (self.new ≡ record self.old {
          snapshots = map.insert self.old.snapshots self.old.next self.old.rows;
          next = self.old.next + 1;
        }) }
        ensures err { OnErr result (self.new ≡ self.old) }
    {
        let id = self.next;
        let rows = self.rows.clone()?;
        self.copies.push(PlainSnapshot { id, rows })?;
        self.next = id + 1;
        Ok(id)
    }

    /// Drops a snapshot. Whether it was live.
    pub fn drop_id(&mut self, id: i64) -> bool
        ensures live { result ≡ is_some (store.snapshot_rows (bare self.old) id) }
        ensures dropped { self.new ≡ (if result
            then record self.old {
              snapshots = (store.without_snapshot (bare self.old) id).snapshots;
            }
            else self.old) }
    {
        match number_in(id) {
            Some(number) => self.drop_number(number),
            None => false,
        }
    }

    fn drop_number(&mut self, id: u64) -> bool
        ensures live { result ≡ is_some (map.get self.old.snapshots id) }
        ensures dropped { self.new ≡ (if result
            then record self.old { snapshots = map.remove self.old.snapshots id }
            else self.old) }
    {
        if copy_of(&self.copies, id).is_none() {
            return false;
        }
        remove_id(&mut self.copies, id);
        true
    }
}

fn push_id<A: Allocator>(items: &mut Items<A>, id: u64) -> Result<(), AllocError>
    requires { id ≤ number_limit }
    ensures { OnOk result (items.new ≡ items.old ++ Integer (pos id) ∷ []) }
{
    items.push_integer(id as i64)?;
    Ok(())
}

/// The copy of the rows that a snapshot has.
fn copy_of<A: Allocator>(copies: &[PlainSnapshot<A>], id: u64) -> Option<&PlainRows<A>>
    ensures { option_copied result ≡ find nat_cmp id (pairs_of copies.now) }
{
    for copy in copies {
        if copy.id == id {
            return Some(&copy.rows);
        }
    }
    None
}

fn remove_id<A: Allocator>(copies: &mut Vec<PlainSnapshot<A>, A>, id: u64)
    ensures { copies.new.items ≡ filter (λ copy. not (copy.id == id)) copies.old.items }
{
    copies.retain(|copy| copy.id != id);
}

/// What the rows and the copies cost, if it is below 2^64: each version that they show, once.
fn total_cost<A: Allocator + Copy>(rows: &PlainRows<A>, copies: &[PlainSnapshot<A>]) -> Option<u64>
    ensures { SomeIff result (cost_of_all (map.entries rows.now ++ shown_in copies.now) < 2 ^ 64)
        (cost_of_all (map.entries rows.now ++ shown_in copies.now)) }
{
    let mut total = rows.cost_beside(0, copies)?;
    let mut left = copies;
    while let Some((copy, later)) = left.split_first() {
        total = copy.rows.cost_beside(total, later)?;
        left = later;
    }
    Some(total)
}
