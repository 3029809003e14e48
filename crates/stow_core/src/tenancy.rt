//! What one tenant has beside its rows.
ghost use Rattle.std.specs.Prelude.{◌≡◌, ◌+◌, ◌<◌, ◌≤◌, ◌||◌, ◌==◌, ℕ, List, IsTrue, IsSome};
ghost use Rattle.std.specs.FinMap as map;
ghost use Rattle.stow_bytes.specs.Limits.{number_limit};
ghost use Rattle.stow_core.specs.Tenancies.{counted_account, charged_account, refused_account, is_among, without};
ghost use Rattle.stow_ledger.specs.Accounts.{new_account, is_allowed, IsGivenBy};
ghost use Rattle.stow_versions.specs.VersionsState.{new_versions, IsReady};

use std::alloc::{Allocator, Global};
use stow_ledger::account::Account;
use stow_ledger::charge::Charge;
use stow_versions::versions::Versions;

/// A tenant's write numbers and snapshots, and what is charged and counted for it.
#[derive(Drop)]
pub struct Tenancy<A: Allocator = Global> {
    pub versions: Versions<A>,
    pub account: Account,
}

impl<A: Allocator + Copy> Tenancy<A> {
    pub(crate) fn new(alloc: A, quota: u64) -> Tenancy<A>
        requires { quota ≤ number_limit }
        ensures versions { result.versions ≡ new_versions }
        ensures account { result.account ≡ new_account quota }
    {
        Tenancy {
            versions: Versions::new(alloc),
            account: Account::new(quota),
        }
    }

    /// One more request was answered.
    pub(crate) fn count(&mut self)
        ensures versions { self.new.versions ≡ self.old.versions }
        ensures account { self.new.account ≡ counted_account self.old.account }
    {
        self.account.served();
    }

    /// The quota is another from now on, in bytes.
    pub(crate) fn set_quota(&mut self, quota: u64)
        requires { quota ≤ number_limit }
        ensures versions { self.new.versions ≡ self.old.versions }
        ensures account { self.new.account ≡ record self.old.account { quota = quota } }
    {
        self.account.set_quota(quota);
    }

    /// One more request was answered, by refusing a write because of the quota.
    pub(crate) fn refuse(&mut self)
        ensures versions { self.new.versions ≡ self.old.versions }
        ensures account { self.new.account ≡ refused_account self.old.account }
    {
        self.account.served();
        self.account.refused();
    }

    /// One more request was answered, by a write that leads to this charge.
    pub(crate) fn write(&mut self, charge: Charge)
        requires last { self.old.versions.last < number_limit }
        requires given { IsGivenBy self.old.account charge }
        requires allowed { IsTrue (is_allowed self.old.account charge) }
        ensures versions { self.new.versions
            ≡ record self.old.versions { last = self.old.versions.last + 1 } }
        ensures account { self.new.account ≡ charged_account charge self.old.account }
    {
        self.versions.advance();
        self.account.commit(charge);
        self.account.served();
    }

    /// One more request was answered, by a new snapshot.
    pub(crate) fn take(&mut self)
        requires { IsReady self.old.versions }
        ensures versions { self.new.versions ≡ record self.old.versions {
          snapshots =
              map.insert self.old.versions.snapshots self.old.versions.next
              self.old.versions.last;
          next = self.old.versions.next + 1;
          room = self.new.versions.room;
        } }
        ensures account { self.new.account ≡ counted_account self.old.account }
        ensures numbers { (n : ℕ) → is_among n (map.values self.new.versions.snapshots)
            ≡ (is_among n (map.values self.old.versions.snapshots)
            || (self.old.versions.last == n)) }
    {
        let _ = self.versions.take();
        self.account.served();
    }

    /// One more request was answered, by dropping a live snapshot, which leads to this charge. Tells the snapshot's number,
    /// unless another one has it.
    pub(crate) fn drop_snapshot(&mut self, id: u64, charge: Charge) -> Option<u64>
        requires live { IsSome (map.get self.old.versions.snapshots id) }
        requires given { IsGivenBy self.old.account charge }
        requires allowed { IsTrue (is_allowed self.old.account charge) }
        ensures versions { self.new.versions ≡ record self.old.versions {
          snapshots = map.remove self.old.versions.snapshots id;
          room = self.new.versions.room;
        } }
        ensures account { self.new.account ≡ charged_account charge self.old.account }
        ensures left { (numbers : List ℕ)
            → ((n : ℕ) → is_among n numbers ≡ is_among n (map.values self.old.versions.snapshots))
            → (n : ℕ) → is_among n (without result numbers)
            ≡ is_among n (map.values self.new.versions.snapshots) }
    {
        self.account.commit(charge);
        self.account.served();
        match self.versions.drop_id(id) {
            Err(_) => None,
            Ok(number) => {
                if self.versions.pins().contains(&number) {
                    None
                } else {
                    Some(number)
                }
            }
        }
    }
}
