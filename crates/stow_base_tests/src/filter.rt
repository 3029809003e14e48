//! What no clause says: that a filter spares searches, since most of the keys that weren't added are told from those that were.
ghost use Rattle.std.specs.Prelude.{◌≤◌};

use std::alloc::{AllocError, Allocator};
use std::test::Fail;
use stow_filter::filter::Filter;

const DIGITS: [u8; 10] = *b"0123456789";

/// How many keys are added, and how many others are asked for.
const KEYS: usize = 500;

/// A row's key that ends in a number of three digits, as many clients name their rows.
fn key(number: usize) -> [u8; 20] {
    let mut key = *b"\0\0\0\x01key:000000000000";
    key[17] = DIGITS[number / 100 % 10];
    key[18] = DIGITS[number / 10 % 10];
    key[19] = DIGITS[number % 10];
    key
}

/// Adds the keys of even numbers, without so many bytes at their front.
fn of_even<A: Allocator>(alloc: A, left_out: usize) -> Result<Filter<A>, AllocError>
    requires { left_out ≤ 17 }
{
    let mut filter = Filter::for_keys(alloc, KEYS)?;
    for i in 0..KEYS {
        filter.add(&key(2 * i)[left_out..]);
    }
    Ok(filter)
}

/// How many keys of odd numbers may be there.
fn possible_odd<A: Allocator>(filter: &Filter<A>, left_out: usize) -> usize
    requires { left_out ≤ 17 }
{
    let mut count = 0usize;
    for i in 0..KEYS {
        count = count.saturating_add(usize::from(filter.may_have(&key(2 * i + 1)[left_out..])));
    }
    count
}

/// Whether at most a tenth of the keys of odd numbers may be there.
fn spares_most<A: Allocator>(alloc: A, left_out: usize) -> bool
    requires { left_out ≤ 17 }
{
    match of_even(alloc, left_out) {
        Ok(filter) => possible_odd(&filter, left_out) <= KEYS / 10,
        Err(_) => false,
    }
}

#[test]
fn most_other_keys_are_not_there(rt: HostRuntime) -> Result<(), Fail> {
    assert!(rt; spares_most(rt.alloc(), 0));
    assert!(rt; spares_most(rt.alloc(), 4));
    assert!(rt; spares_most(rt.alloc(), 8));
    assert!(rt; spares_most(rt.alloc(), 13));
    Ok(())
}
