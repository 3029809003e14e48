//! One tenant's write numbers, snapshots and pins.
ghost use Rattle.std.specs.Prelude.{◌≡◌, ℕ, ◌+◌, ◌<◌, ◌≤◌, ◌==◌, ◌||◌, ◌↔◌, not, filter, length, Contains, All, OnOk, OnErr, IfOk, IfErr, IfSome, IfNone, IsSome, IsTrue, IsFalse, slice_index, [], ◌∷◌, ◌++◌, vec_len};
ghost use Rattle.std.specs.List.{list_any, position, remove};
ghost use Rattle.std.specs.List.Sorted.{IsStrictlyIncreasing};
ghost use Rattle.std.specs.Vec.{vec_capacity};
ghost use Rattle.std.specs.Result.{result_ok};
ghost use Rattle.std.specs.FinMap as map;
ghost use Rattle.stow_bytes.specs.Limits.{number_limit, snapshot_limit};
ghost use Rattle.stow_versions.specs.VersionsState.{new_versions, is_among, IsVersionsState, IsReady};
ghost use Rattle.stow_versions.specs.VersionLists.{room_of, ArePins};
ghost use Rattle.stow_versions.specs.declared.snapshot_fault.SnapshotFault.TheVariants.{TooMany, IdsUsedUp, OutOfMemory};

use crate::no_such_snapshot::NoSuchSnapshot;
use crate::snapshot_fault::SnapshotFault;
use std::alloc::{AllocError, Allocator, Global};
use std::marker::Model;
use stow_bytes::limits::{NUMBER_LIMIT, SNAPSHOT_LIMIT};

/// The number of a tenant's last write, its live snapshots, and the numbers at which they show its rows.
#[derive(Drop)]
pub struct Versions<A: Allocator = Global> {
    last: u64,
    next: u64,
    ids: Vec<u64, A>,
    numbers: Vec<u64, A>,
    pins: Vec<u64, A>,
}

impl<A: Allocator> Model for Versions<A> {
    ghost use Rattle.std.specs.Prelude.{min};
    ghost use Rattle.stow_versions.specs.VersionsState.{VersionsState, versions_code};
    ghost use Rattle.stow_versions.specs.VersionLists.{snapshots_of, room_of, AreVersionLists};

    ghost Value = { VersionsState };

    ghost coded = { versions_code };

    ghost view = { λ v. record {
      last = v.last;
      snapshots = snapshots_of v.ids.items v.numbers.items;
      next = v.next;
      room = min (room_of v.ids) (min (room_of v.numbers) (room_of v.pins));
    } };

    ghost invariant = { λ v.
        AreVersionLists v.last v.next v.ids.items v.numbers.items v.pins.items };
}

impl<A: Allocator + Copy> Versions<A> {
    /// Nothing was written, and no snapshot was taken.
    pub fn new(alloc: A) -> Versions<A>
        ensures { result ≡ new_versions }
    {
        Versions {
            last: 0,
            next: 1,
            ids: Vec::new(alloc),
            numbers: Vec::new(alloc),
            pins: Vec::new(alloc),
        }
    }

    /// The number of the last write, 0 where there was none.
    pub fn last(&self) -> u64
        ensures value { result ≡ self.now.last }
        ensures kept { IsVersionsState self.now }
    {
        self.last
    }

    /// The id of the next snapshot.
    pub fn next(&self) -> u64
        ensures { result ≡ self.now.next }
    {
        self.next
    }

    /// The live snapshots' ids, rising.
    pub fn ids(&self) -> &[u64]
        ensures { result.now ≡ map.keys self.now.snapshots }
    {
        self.ids.as_slice()
    }

    /// How many snapshots are live.
    pub fn live(&self) -> usize
        ensures { result ≡ map.len self.now.snapshots }
    {
        self.ids.len()
    }

    /// The number at which a snapshot shows the rows, if it is live.
    pub fn number_of(&self, id: u64) -> Option<u64>
        ensures { result ≡ map.get self.now.snapshots id }
    {
        match place_of(&self.ids, id) {
            None => None,
            Some(place) => Some(self.numbers[place]),
        }
    }

    /// The live snapshots' numbers, each once, rising.
    pub fn pins(&self) -> &[u64]
        ensures rise { IsStrictlyIncreasing result.now }
        ensures members { (n : ℕ)
            → Contains result.now n ↔ Contains (map.values self.now.snapshots) n }
        ensures among { (n : ℕ)
            → is_among n result.now ≡ is_among n (map.values self.now.snapshots) }
    {
        self.pins.as_slice()
    }

    /// The numbers of the live snapshots without one of them, in the order of their ids.
    pub fn numbers_without(&self, alloc: A, id: u64) -> Result<Vec<u64, A>, AllocError>
        requires { IsSome (map.get self.now.snapshots id) }
        ensures { IfOk result (λ left. left.items ≡ map.values (map.remove self.now.snapshots id)) }
    {
        let mut left = Vec::new(alloc);
        left.extend_from_slice(self.numbers.as_slice())?;
        match place_of(&self.ids, id) {
            None => Ok(left),
            Some(place) => {
                let _ = left.remove(place);
                Ok(left)
            }
        }
    }

    /// One more write was made.
    pub fn advance(&mut self)
        requires { self.old.last < number_limit }
        ensures { self.new ≡ record self.old { last = self.old.last + 1 } }
    {
        self.last += 1;
    }

    /// Makes room for one more snapshot. Too many are live at 64, and the ids are used up after 9,223,372,036,854,775,807.
    /// Nothing but room changes.
    pub fn ready(&mut self) -> Result<(), SnapshotFault>
        ensures same { self.new ≡ record self.old { room = self.new.room } }
        ensures too_many { (result ≡ Err TooMany) ↔ (map.len self.old.snapshots ≡ snapshot_limit) }
        ensures used_up { (result ≡ Err IdsUsedUp)
            ↔ ((map.len self.old.snapshots < snapshot_limit) × (number_limit < self.old.next)) }
        ensures ready { OnOk result (IsReady self.new) }
    {
        if self.ids.len() == SNAPSHOT_LIMIT {
            return Err(SnapshotFault::TooMany);
        }
        if self.next > NUMBER_LIMIT {
            return Err(SnapshotFault::IdsUsedUp);
        }
        make_room(&mut self.ids, &mut self.numbers, &mut self.pins)
    }

    /// Takes a snapshot of the rows as they are, and tells its id. It takes no write number and no memory.
    pub fn take(&mut self) -> u64
        requires { IsReady self.old }
        ensures id { result ≡ self.old.next }
        ensures taken { self.new ≡ record self.old {
          snapshots = map.insert self.old.snapshots self.old.next self.old.last;
          next = self.old.next + 1;
          room = self.new.room;
        } }
        ensures numbers { (n : ℕ) → is_among n (map.values self.new.snapshots)
            ≡ (is_among n (map.values self.old.snapshots) || (self.old.last == n)) }
    {
        let id = self.next;
        self.next += 1;
        push_within(&mut self.ids, id);
        push_within(&mut self.numbers, self.last);
        add_pin(&mut self.pins, self.last);
        id
    }

    /// Drops a snapshot, and tells its number. Its pin goes with the last snapshot at that number. Nothing changes where
    /// no live snapshot has the id.
    pub fn drop_id(&mut self, id: u64) -> Result<u64, NoSuchSnapshot>
        ensures number { result_ok result ≡ map.get self.old.snapshots id }
        ensures dropped { OnOk result (self.new ≡ record self.old {
          snapshots = map.remove self.old.snapshots id;
          room = self.new.room;
        }) }
        ensures numbers { IfOk result (λ number. (n : ℕ)
            → is_among n (map.values self.old.snapshots)
            ≡ (is_among n (map.values self.new.snapshots) || (number == n))) }
        ensures unchanged { OnErr result (self.new ≡ self.old) }
    {
        let place = match place_of(&self.ids, id) {
            None => return Err(NoSuchSnapshot),
            Some(place) => place,
        };
        let _ = self.ids.remove(place);
        Ok(drop_number(&mut self.numbers, &mut self.pins, place))
    }
}

/// Makes room for one more number in each list.
fn make_room<A: Allocator>(
    ids: &mut Vec<u64, A>,
    numbers: &mut Vec<u64, A>,
    pins: &mut Vec<u64, A>,
) -> Result<(), SnapshotFault>
    ensures refused { IfErr result (λ fault. fault ≡ OutOfMemory) }
    ensures same_ids { ids.new.items ≡ ids.old.items }
    ensures same_numbers { numbers.new.items ≡ numbers.old.items }
    ensures same_pins { pins.new.items ≡ pins.old.items }
    ensures room { OnOk result
        ((0 < room_of ids.new) × (0 < room_of numbers.new) × (0 < room_of pins.new)) }
{
    ids.reserve(1)?;
    numbers.reserve(1)?;
    pins.reserve(1)?;
    Ok(())
}

/// The first place of an id, if it is there.
fn place_of(ids: &[u64], id: u64) -> Option<usize>
    ensures { result ≡ position (λ i. i == id) ids.now }
{
    ids.iter().position(|i| *i == id)
}

/// Adds a pin that is none below the others, unless it is there.
fn add_pin<A: Allocator>(pins: &mut Vec<u64, A>, number: u64)
    requires room { vec_len pins.old < vec_capacity pins.old }
    requires rise { IsStrictlyIncreasing pins.old.items }
    requires above { (p : ℕ) → IsTrue (list_any (λ q. q == p) pins.old.items) → p ≤ number }
    ensures rise { IsStrictlyIncreasing pins.new.items }
    ensures members { (n : ℕ) → list_any (λ p. p == n) pins.new.items
        ≡ (list_any (λ p. p == n) pins.old.items || (number == n)) }
{
    if !pins.contains(&number) {
        push_within(pins, number);
    }
}

/// Adds a number where there is room for it.
fn push_within<A: Allocator>(numbers: &mut Vec<u64, A>, number: u64)
    requires { vec_len numbers.old < vec_capacity numbers.old }
    ensures { numbers.new.items ≡ numbers.old.items ++ number ∷ [] }
{
    let _ = numbers.push(number);
}

/// Takes the number at a place away, and its pin with the last of that number.
fn drop_number<A: Allocator>(numbers: &mut Vec<u64, A>, pins: &mut Vec<u64, A>, place: usize) -> u64
    requires within { place < vec_len numbers.old }
    requires pins { ArePins pins.old.items numbers.old.items }
    ensures number { result ≡ slice_index numbers.old.items place }
    ensures numbers { numbers.new.items ≡ remove numbers.old.items place }
    ensures pins { ArePins pins.new.items numbers.new.items }
{
    let number = numbers.remove(place);
    if !numbers.contains(&number) {
        remove_pin(pins, number);
    }
    number
}

fn remove_pin<A: Allocator>(pins: &mut Vec<u64, A>, number: u64)
    ensures { pins.new.items ≡ filter (λ p. not (p == number)) pins.old.items }
{
    pins.retain(|p| *p != number);
}
