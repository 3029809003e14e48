//! The walk over a tenant's keys, and ranges, by worked rows.
use crate::keys::{Bound, Keys};
use crate::tree::run::{Kind, Run, Within};
use crate::tree::small::COURSE;
use std::alloc::{AllocError, Allocator};
use std::test::Fail;
use stow_dropping::stow_read::row::Row;
use stow_dropping::stow_read::row_head::RowHead;
use stow_refusing::Refusing;

/// What is done to three keys, with how many bytes, and whether all of it is pinned then. The root's buffer can't hold all
/// values up to the pin; behind it the second key is removed, and there is more of the third.
const CHANGES: [(Kind, usize, u32, bool); 6] = [
    (Kind::Put, 0, 960_000, false),
    (Kind::Put, 1, 960_000, false),
    (Kind::Append, 0, 1, false),
    (Kind::Put, 2, 960_000, true),
    (Kind::Gone, 1, 0, false),
    (Kind::Append, 2, 1, false),
];

/// A tree after these changes.
fn changed<A: Allocator + Copy>(alloc: A) -> Result<Run<A>, AllocError> {
    let mut run = Run::new(alloc, COURSE)?;
    for (kind, place, len, is_pinned) in CHANGES {
        run.change(alloc, (kind, place, len))?;
        if is_pinned {
            run.pin(1)?;
        }
    }
    Ok(run)
}

/// What is to be told of a key: its place, its value's number and length, and its next number.
type Told = (usize, u64, u32, Option<u64>);

/// What is told at the pin, and then at the end.
const TOLD: [Told; 5] = [
    (0, 3, 960_001, None),
    (1, 2, 960_000, Some(5)),
    (2, 4, 960_000, Some(6)),
    (0, 3, 960_001, None),
    (2, 6, 960_001, None),
];

/// The number of the pin, and the last one.
const PIN: u64 = 4;

const LAST: u64 = 6;

/// A walk: from a key on, or after it, and before another; at a number, and of so many keys; then of which of those that may be
/// told it tells, from one on and before another.
type Walk = (Bound, bool, Bound, (u64, usize), (usize, usize));

const LOWEST: Bound = Bound::Low(1);

const END: Bound = Bound::Low(2);

const FIRST: Bound = Bound::At(0);

const SECOND: Bound = Bound::At(1);

const THIRD: Bound = Bound::At(2);

const WALKS: [Walk; 15] = [
    (LOWEST, false, END, (PIN, 9), (0, 3)),
    (FIRST, false, END, (PIN, 3), (0, 3)),
    (FIRST, false, END, (PIN, 2), (0, 2)),
    (FIRST, false, END, (PIN, 0), (0, 0)),
    (FIRST, true, END, (PIN, 9), (1, 3)),
    (SECOND, true, END, (PIN, 1), (2, 3)),
    (THIRD, true, END, (PIN, 9), (3, 3)),
    (FIRST, false, THIRD, (PIN, 9), (0, 2)),
    (SECOND, false, THIRD, (PIN, 9), (1, 2)),
    (END, false, END, (PIN, 9), (3, 3)),
    (THIRD, false, FIRST, (PIN, 9), (3, 3)),
    (LOWEST, true, END, (LAST, 9), (3, 5)),
    (FIRST, true, END, (LAST, 1), (4, 5)),
    (SECOND, false, END, (LAST, 9), (4, 5)),
    (SECOND, false, THIRD, (LAST, 9), (4, 4)),
];

/// Whether this is told of a key.
fn is_told<A: Allocator + Copy>(head: &RowHead<A>, keys: &Keys<A>, told: Told) -> bool {
    head.key.as_key().bytes == keys.at(told.0).bytes
        && head.number == told.1
        && head.length == told.2
        && head.next == told.3
}

/// Whether a walk tells these of those that may be told.
fn are_told<A: Allocator + Copy>(
    heads: &[RowHead<A>],
    keys: &Keys<A>,
    (from, to): (usize, usize),
) -> bool {
    let mut are = from <= to && to <= TOLD.len() && heads.len() == to - from;
    for i in 0..heads.len() {
        let place = from.saturating_add(i);
        are = are && place < TOLD.len() && is_told(&heads[i], keys, TOLD[place]);
    }
    are
}

/// Whether a range has the values of these.
fn have_values<A: Allocator + Copy>(
    rows: &[Row<'_, A>],
    keys: &Keys<A>,
    (from, to): (usize, usize),
) -> bool {
    let mut have = from <= to && to <= TOLD.len() && rows.len() == to - from;
    for i in 0..rows.len() {
        let place = from.saturating_add(i);
        have = have
            && place < TOLD.len()
            && rows[i].key.bytes == keys.at(TOLD[place].0).bytes
            && rows[i].value.bytes().len() == TOLD[place].2 as usize;
    }
    have
}

/// Whether a walk tells what it is to tell, and a range from its first key on has the same rows.
fn tells<A: Allocator + Copy>(
    alloc: A,
    run: &mut Run<A>,
    (from, after, to, read, told): Walk,
) -> Result<bool, AllocError> {
    let within = Within { from, after, to };
    let heads = run.heads(alloc, within, read)?;
    let is_walk = are_told(heads.as_slice(), &run.keys, told);
    let rows = run.rows(alloc, within, read)?;
    Ok(is_walk && (after || have_values(rows.as_slice(), &run.keys, told)))
}

/// How many walks come before the first that tells something else.
fn told<A: Allocator + Copy>(alloc: A) -> Result<usize, AllocError> {
    let mut run = changed(alloc)?;
    for i in 0..WALKS.len() {
        if !tells(alloc, &mut run, WALKS[i])? {
            return Ok(i);
        }
    }
    Ok(WALKS.len())
}

#[test]
fn a_walk_tells_the_first_keys_with_a_value(rt: HostRuntime) -> Result<(), Fail> {
    let heap = Refusing::new(rt.alloc());
    assert_eq!(rt; told(&heap)?, WALKS.len());
    Ok(())
}
