//! Slots of a block, and the messages that they name.
ghost use Rattle.std.specs.Prelude.{◌≡◌, ◌+◌, ◌^◌, ◌<◌, ◌≤◌, length, drop, slice_index};
ghost use Rattle.stow_tree_model.specs.StowBytes.Words.{AreAlike};
ghost use Rattle.stow_message.specs.MessageBuf.{messages_from, named, IsFilledFrom};
ghost use Rattle.stow_message.specs.Packed.{message_at, BeginsWith};
ghost use Rattle.stow_message.specs.Rising.{below, is_below};

use crate::head::{HEAD, read_key_len, read_number};
use std::alloc::Allocator;
use std::cmp::Ordering;
use stow_slots::slot_buf::SlotBuf;
use stow_tree_model::stow_bytes::compare::{compare, compare_past};

/// The key of the message that begins `at` bytes into the front.
#[inline(always)]
pub(crate) fn key_at<A: Allocator>(raw: &SlotBuf<A>, at: usize) -> &[u8]
    requires begins { BeginsWith (drop at raw.now.front) }
    requires small { length raw.now.front < 2 ^ 32 }
    ensures { result.now ≡ (message_at (drop at raw.now.front)).key }
{
    let len = read_key_len(raw.bytes(at, HEAD));
    raw.bytes(at + HEAD, len)
}

/// The number of the message that begins `at` bytes into the front.
pub(crate) fn number_in<A: Allocator>(raw: &SlotBuf<A>, at: usize) -> u64
    requires begins { BeginsWith (drop at raw.now.front) }
    requires small { length raw.now.front < 2 ^ 32 }
    ensures { result ≡ (message_at (drop at raw.now.front)).number }
{
    read_number(raw.bytes(at, HEAD))
}

/// Whether the message that begins `at` bytes into the front stands below the key and number.
#[inline(always)]
pub(crate) fn names_below<A: Allocator>(
    raw: &SlotBuf<A>,
    at: usize,
    key: &[u8],
    number: u64,
) -> bool
    requires begins { BeginsWith (drop at raw.now.front) }
    requires small { length raw.now.front < 2 ^ 32 }
    ensures { result ≡ is_below (key.now, number) (message_at (drop at raw.now.front)) }
{
    match compare(key_at(raw, at), key) {
        Ordering::Less => true,
        Ordering::Equal => number_in(raw, at) < number,
        Ordering::Greater => false,
    }
}

/// Where a message stands to a key and number, and how many bytes its key and that one were seen to share at the front.
#[derive(Clone, Copy)]
struct Standing {
    is_below: bool,
    shared: usize,
}

/// Where the message of the slot at `index` stands to the key and number. Of the keys so many bytes are known to be the same.
fn stand<A: Allocator>(
    raw: &SlotBuf<A>,
    index: usize,
    key: &[u8],
    number: u64,
    shared: usize,
) -> Standing
    requires within { index < length raw.now.slots }
    requires begins { BeginsWith (drop (slice_index raw.now.slots index) raw.now.front) }
    requires small { length raw.now.front < 2 ^ 32 }
    requires alike { AreAlike shared (named raw.now index).key key.now }
    ensures below { result.is_below ≡ is_below (key.now, number) (named raw.now index) }
    ensures alike { AreAlike result.shared (named raw.now index).key key.now }
{
    let at = raw.slot(index) as usize;
    let found = compare_past(key_at(raw, at), key, shared);
    let is_below = match found.order {
        Ordering::Less => true,
        Ordering::Equal => number_in(raw, at) < number,
        Ordering::Greater => false,
    };
    Standing {
        is_below,
        shared: found.shared,
    }
}

/// Whether the message of the slot at `index` stands below the key and number.
fn is_slot_below<A: Allocator>(raw: &SlotBuf<A>, index: usize, key: &[u8], number: u64) -> bool
    requires within { index < length raw.now.slots }
    requires begins { BeginsWith (drop (slice_index raw.now.slots index) raw.now.front) }
    requires small { length raw.now.front < 2 ^ 32 }
    ensures { result ≡ is_below (key.now, number) (named raw.now index) }
{
    stand(raw, index, key, number, 0).is_below
}

/// The first index from `low` on whose message doesn't stand below the key and number: it is at most `high`. What the messages
/// at both ends share with the key all between them do.
pub(crate) fn search_between<A: Allocator>(
    raw: &SlotBuf<A>,
    mut low: usize,
    mut high: usize,
    key: &[u8],
    number: u64,
) -> usize
    requires order { (low ≤ high) × (high ≤ length raw.now.slots) }
    requires filled { IsFilledFrom raw.now low }
    requires end { low + below (key.now, number) (messages_from raw.now low) ≤ high }
    ensures { result ≡ low + below (key.now, number) (messages_from raw.now low) }
{
    let (mut before, mut after) = (0, 0);
    while low < high {
        let middle = low + (high - low) / 2;
        let standing = stand(raw, middle, key, number, before.min(after));
        if standing.is_below {
            low = middle + 1;
            before = standing.shared;
        } else {
            high = middle;
            after = standing.shared;
        }
    }
    low
}

/// The first index from `from` on whose message doesn't stand below the key and number, in steps that double.
pub(crate) fn search_from<A: Allocator>(
    raw: &SlotBuf<A>,
    from: usize,
    key: &[u8],
    number: u64,
) -> usize
    requires within { from ≤ length raw.now.slots }
    requires filled { IsFilledFrom raw.now from }
    ensures { result ≡ from + below (key.now, number) (messages_from raw.now from) }
{
    let len = raw.slot_count();
    let (mut low, mut step) = (from, 1);
    while low + step <= len {
        let last = low + step - 1;
        if !is_slot_below(raw, last, key, number) {
            return search_between(raw, low, last, key, number);
        }
        low = last + 1;
        step *= 2;
    }
    search_between(raw, low, len, key, number)
}
