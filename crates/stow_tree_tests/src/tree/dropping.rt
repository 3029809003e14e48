//! What a drop leaves charged, where the snapshot showed more rows than are walked at once.

use crate::tree::numbered::Numbered;
use std::alloc::{AllocError, Allocator};
use std::test::Fail;
use stow_dropping::dropping::charge_of_drop;
use stow_dropping::stow_tree::tree_shape::TreeShape;
use stow_ledger::account::Account;
use stow_ledger::row_change::RowChange;
use stow_ledger::sized_version::SizedVersion;
use stow_merge::pins::Pins;
use stow_refusing::{Plan, Refusing};
use stow_tree_model::op::Op;
use stow_tree_model::tenant_key_buf::TenantKeyBuf;

/// How many rows there are, each written once until the snapshot's number, which is the same.
const ROWS: u16 = 1_200;

/// Every so many rows are written again.
const STRIDE: u16 = 150;

/// A write of a value of so many bytes in place of another is charged. The tests have few rows.
fn charge_write(account: &mut Account, before: Option<SizedVersion>, length: u32, pins: &[u64]) {
    let present = account.present();
    if present.rows > 9_999 {
        return;
    }
    let change = RowChange {
        key: 2,
        before,
        after: Some(length),
    };
    let outcome = account.after_write(present, &change, pins);
    if account.allows(outcome) {
        account.commit(outcome);
    }
}

/// A pin of tenant 1 at the snapshot's number.
fn pinned<A: Allocator + Copy>(alloc: A) -> Result<Pins<A>, AllocError> {
    let mut pins = Pins::new(alloc);
    pins.room(1)?;
    if pins.of(1).is_empty() {
        pins.add(1, 1_200);
    }
    Ok(pins)
}

/// A tree, and the account of its tenant 1.
#[derive(Drop)]
struct Charged<A: Allocator + Copy> {
    tree: Numbered<A>,
    account: Account,
}

impl<A: Allocator + Copy> Charged<A> {
    /// Puts a value under tenant 1's key of a row, of two bytes.
    fn put(
        &mut self,
        alloc: A,
        row: u16,
        (value, pins): (&[u8], &Pins<A>),
    ) -> Result<(), AllocError> {
        let key = TenantKeyBuf::new(alloc, 1, &row.to_be_bytes())?;
        self.tree.put(alloc, key.as_key(), Op::Put(value), pins)
    }

    /// Puts a value of one byte under each key.
    fn fill(&mut self, alloc: A, pins: &Pins<A>) -> Result<(), AllocError> {
        for row in 0..ROWS {
            self.put(alloc, row, (b"v", pins))?;
            charge_write(&mut self.account, None, 1, &[]);
        }
        Ok(())
    }

    /// Puts a value of two bytes under some.
    fn put_again(&mut self, alloc: A, pins: &Pins<A>) -> Result<(), AllocError> {
        for again in 0..ROWS / STRIDE {
            let row = again * STRIDE;
            self.put(alloc, row, (b"ww", pins))?;
            let before = SizedVersion {
                number: u64::from(row) + 1,
                length: 1,
            };
            charge_write(&mut self.account, Some(before), 2, &[1_200]);
        }
        Ok(())
    }

    /// Puts a value under each key, and behind the pin another under some.
    fn put_all(&mut self, alloc: A) -> Result<(), AllocError> {
        let pins = pinned(alloc)?;
        self.fill(alloc, &pins)?;
        self.put_again(alloc, &pins)
    }

    /// A value under each key, and behind the pin another under some.
    fn new(alloc: A) -> Result<Charged<A>, AllocError> {
        let mut made = Charged {
            tree: Numbered::new(alloc, TreeShape::SMALLEST)?,
            account: Account::new(1_000_000),
        };
        made.put_all(alloc)?;
        Ok(made)
    }

    /// What the drop of tenant 1's snapshot leaves charged.
    fn left(&self, alloc: A, pins: &[u64]) -> Result<u64, AllocError> {
        let charge = charge_of_drop(alloc, &self.tree.tree, &self.account, 1, 1_200, pins)?;
        Ok(charge.charge)
    }
}

/// The pins that are left, and what is charged then.
const LEFT: [(&[u64], u64); 3] = [
    (&[], 1_200 * 19 + 8),
    (&[1_204], 1_196 * 19 + 8 * 20),
    (&[1_200], 1_200 * 19 + 8 * 20),
];

/// Whether a drop frees what nothing shows.
fn frees<A: Allocator + Copy>(alloc: A, made: &Charged<A>) -> Result<bool, AllocError> {
    let mut frees = made.account.present().charge == 1_200 * 19 + 8 * 20;
    for (pins, charge) in LEFT {
        frees = frees && made.left(alloc, pins)? == charge;
    }
    Ok(frees)
}

/// Whether a drop makes many requests, and some of them, refused, are told.
fn is_refused<A: Allocator + Copy, B: Allocator>(
    heap: &Refusing<B>,
    alloc: A,
    made: &Charged<A>,
) -> Result<bool, AllocError> {
    heap.set(Plan::Grant);
    made.left(alloc, &[])?;
    let asked = heap.asked();
    let mut are = asked >= 1_200;
    for n in [0, 1, 2, 3, 1_024, asked.saturating_sub(1)] {
        heap.set(Plan::RefuseAt(n));
        are = are && made.left(alloc, &[]).is_err();
    }
    heap.set(Plan::Grant);
    Ok(are)
}

/// Whether a drop frees what nothing shows, before and after its requests are refused.
fn withstands<A: Allocator + Copy, B: Allocator>(
    heap: &Refusing<B>,
    alloc: A,
    made: &Charged<A>,
) -> Result<bool, AllocError> {
    Ok(frees(alloc, made)? && is_refused(heap, alloc, made)? && frees(alloc, made)?)
}

/// Whether a new tree's does.
fn is_dropped<A: Allocator + Copy, B: Allocator>(
    heap: &Refusing<B>,
    alloc: A,
) -> Result<bool, AllocError> {
    let made = Charged::new(alloc)?;
    withstands(heap, alloc, &made)
}

#[test]
fn a_drop_frees_what_nothing_shows(rt: HostRuntime) -> Result<(), Fail> {
    let heap = Refusing::new(rt.alloc());
    assert!(rt; is_dropped(&heap, &heap)?);
    Ok(())
}
