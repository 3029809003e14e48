//! Accounts: the charge of worked requests, and what a lowered quota allows.
use std::alloc::Allocator;
use std::test::Fail;
use stow_ledger::account::Account;
use stow_ledger::row_change::RowChange;
use stow_ledger::shown_row::ShownRow;
use stow_ledger::sized_version::SizedVersion;
use stow_versions::versions::Versions;

/// What a tenant does with its row of a key of one byte.
#[derive(Clone, Copy)]
enum Call {
    /// Writes a value of so many bytes in place of that of a number and a length, if there is one.
    Write(Option<SizedVersion>, u32),
    /// Asks whether it may.
    Ask(Option<SizedVersion>, u32),
    Take,
    /// Drops the snapshot of this id, which showed the first row until a number.
    Drop(u64, Option<u64>),
    /// Has another quota from now on.
    Quota(u64),
}

/// A call, whether it was allowed, and what is charged then.
type Row = (Call, bool, u64);

/// The first write's value of one byte, or of so many.
const FIRST: Option<SizedVersion> = Some(SizedVersion {
    number: 1,
    length: 1,
});

const LONG: Option<SizedVersion> = Some(SizedVersion {
    number: 1,
    length: 83,
});

const SECOND: Option<SizedVersion> = Some(SizedVersion {
    number: 2,
    length: 1,
});

/// A tenant takes two snapshots at its first write, and drops one: both versions of its row are charged once.
const CHARGED: [Row; 5] = [
    (Call::Write(None, 1), true, 18),
    (Call::Take, true, 18),
    (Call::Take, true, 18),
    (Call::Drop(1, None), true, 18),
    (Call::Write(FIRST, 1), true, 36),
];

/// It drops the other.
const DROPPED: [Row; 1] = [(Call::Drop(2, Some(2)), true, 18)];

/// A quota that is lowered below the charge refuses another row, and allows what doesn't raise the charge, after which there is
/// room up to the quota.
const LOWERED: [Row; 10] = [
    (Call::Write(None, 83), true, 100),
    (Call::Quota(50), true, 100),
    (Call::Write(None, 0), false, 100),
    (Call::Ask(LONG, 83), true, 100),
    (Call::Ask(LONG, 84), false, 100),
    (Call::Ask(LONG, 33), true, 100),
    (Call::Ask(LONG, 1), true, 100),
    (Call::Write(LONG, 1), true, 18),
    (Call::Ask(SECOND, 34), false, 18),
    (Call::Ask(SECOND, 33), true, 18),
];

/// A tenant's account and its versions.
#[derive(Drop)]
struct Tenant<A: Allocator> {
    account: Account,
    versions: Versions<A>,
}

impl<A: Allocator + Copy> Tenant<A> {
    /// Writes a value, where that is allowed, or asks whether it is. The tests have few rows.
    fn write(&mut self, before: Option<SizedVersion>, length: u32, is_asked: bool) -> bool {
        let present = self.account.present();
        if present.rows > 9 {
            return false;
        }
        let change = RowChange {
            key: 1,
            before,
            after: Some(length),
        };
        let outcome = self
            .account
            .after_write(present, &change, self.versions.pins());
        let is_allowed = self.account.allows(outcome);
        if is_allowed && !is_asked {
            self.account.commit(outcome);
        }
        is_allowed
    }

    /// Writes a value with the next number, where that is allowed.
    fn go_on(&mut self, before: Option<SizedVersion>, length: u32) -> bool {
        let is_allowed = self.write(before, length, false);
        if !is_allowed {
            self.account.refused();
        } else if self.versions.last() < 9 {
            self.versions.advance();
        }
        is_allowed
    }

    /// Drops a snapshot that showed the first row until a number.
    fn drop_id(&mut self, id: u64, next: Option<u64>) -> bool {
        let _ = self.versions.drop_id(id);
        let row = ShownRow {
            key: 1,
            version: SizedVersion {
                number: 1,
                length: 1,
            },
            next,
        };
        let present = self.account.present();
        let outcome = self
            .account
            .after_drop(present, &[row], self.versions.pins());
        let is_allowed = self.account.allows(outcome);
        if is_allowed {
            self.account.commit(outcome);
        }
        is_allowed
    }

    /// Takes a snapshot.
    fn take(&mut self) -> bool {
        match self.versions.ready() {
            Ok(()) => self.versions.take() > 0,
            Err(_) => false,
        }
    }

    /// Carries out a call. Whether it was allowed.
    fn call(&mut self, call: Call) -> bool {
        match call {
            Call::Write(before, length) => self.go_on(before, length),
            Call::Ask(before, length) => self.write(before, length, true),
            Call::Take => self.take(),
            Call::Drop(id, next) => self.drop_id(id, next),
            Call::Quota(quota) => self.give_quota(quota),
        }
    }

    /// Has another quota, which is small.
    fn give_quota(&mut self, quota: u64) -> bool {
        let is_small = quota < 1_000_000;
        if is_small {
            self.account.set_quota(quota);
        }
        is_small
    }

    /// Whether each row is told so.
    fn work(&mut self, rows: &[Row]) -> bool {
        for (call, is_allowed, charge) in rows {
            if self.call(*call) != *is_allowed || self.account.present().charge != *charge {
                return false;
            }
        }
        true
    }

    /// Whether what is charged is reported, with two writes, one command and one snapshot.
    fn is_reported(&mut self) -> bool {
        self.account.served();
        let usage = self.account.report(&self.versions);
        (usage.rows, usage.charge, usage.quota) == (1, 36, 1_000_000)
            && (usage.writes, usage.commands) == (2, 1)
            && (usage.refusals, usage.snapshots) == (0, 1)
    }
}

/// A tenant with nothing but a quota.
fn new_tenant<A: Allocator + Copy>(alloc: A, quota: u32) -> Tenant<A> {
    Tenant {
        account: Account::new(u64::from(quota)),
        versions: Versions::new(alloc),
    }
}

/// Whether the rows hold of a tenant who drops one of two snapshots, is reported then, and drops the other.
fn is_charged<A: Allocator + Copy>(tenant: &mut Tenant<A>) -> bool {
    tenant.work(&CHARGED) && tenant.is_reported() && tenant.work(&DROPPED)
}

/// Whether the rows hold of a tenant with snapshots, and of one whose quota is lowered.
fn hold<A: Allocator + Copy>(alloc: A) -> (bool, bool) {
    (
        is_charged(&mut new_tenant(alloc, 1_000_000)),
        new_tenant(alloc, 100).work(&LOWERED),
    )
}

#[test]
fn versions_are_charged_once_and_quotas_lowered(rt: HostRuntime) -> Result<(), Fail> {
    assert!(rt; hold(rt.alloc()) == (true, true));
    Ok(())
}
