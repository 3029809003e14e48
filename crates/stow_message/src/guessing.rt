//! Where a message may stand, by a search in one list of slots and a look into the other.
ghost use Rattle.std.specs.Prelude.{Contains, IfSome};
ghost use Rattle.stow_message.specs.MessageBuf.{IsPackedBuffer};

use crate::key_words::KeyWords;
use crate::place::Place;
use crate::slots::names_below;
use std::alloc::Allocator;
use stow_slots::slot_buf::SlotBuf;

/// How many messages may stand below the key and number: as many as do of those whose slots aren't young, and of the others
/// as many as stand before those and, side by side, behind them.
#[inline(always)]
pub(crate) fn guess<A: Allocator>(
    raw: &SlotBuf<A>,
    words: &KeyWords<A>,
    key: &[u8],
    number: u64,
) -> Place
    requires { IsPackedBuffer raw.now }
{
    let older = older_below(raw, words.span(raw, key), key, number);
    let young = young_below(raw, older, key, number);
    Place {
        count: older.saturating_add(young),
        young,
    }
}

/// How many messages may stand below a key's next one: as words tell, and all young ones that stand before the next of the others.
#[inline(always)]
pub(crate) fn newest_place<A: Allocator>(raw: &SlotBuf<A>, words: &KeyWords<A>, key: &[u8]) -> Place
    requires { IsPackedBuffer raw.now }
{
    let older = words.count_up_to(raw, key);
    let young = raw.young_behind(older.saturating_add(1));
    Place {
        count: older.saturating_add(young),
        young,
    }
}

/// How many young messages stand below the key and number, of which so many others do: those that stand behind fewer, and some of
/// those behind as many, of which the last is looked at first.
#[inline(always)]
fn young_below<A: Allocator>(raw: &SlotBuf<A>, older: usize, key: &[u8], number: u64) -> usize
    requires { IsPackedBuffer raw.now }
{
    let from = raw.young_behind(older);
    let end = raw.young_behind(older.saturating_add(1));
    let (mut low, mut high) = (from.min(end), end);
    if low < high && is_below(raw, raw.young_slot(high - 1), key, number) {
        return high;
    }
    while low < high {
        let middle = low + (high - low) / 2;
        if is_below(raw, raw.young_slot(middle), key, number) {
            low = middle + 1;
        } else {
            high = middle;
        }
    }
    low
}

/// How many messages whose slots aren't young stand below the key and number, where that is between both ends of the span. It is
/// looked for at its end first: most searches are for the newest message of a key.
#[inline(always)]
fn older_below<A: Allocator>(
    raw: &SlotBuf<A>,
    span: (usize, usize),
    key: &[u8],
    number: u64,
) -> usize
    requires { IsPackedBuffer raw.now }
{
    let (from, end) = span;
    let (mut low, mut high) = (from.min(end), end);
    if low < high && is_below(raw, raw.old_slot(high - 1), key, number) {
        return high;
    }
    while low < high {
        let middle = low + (high - low) / 2;
        if is_below(raw, raw.old_slot(middle), key, number) {
            low = middle + 1;
        } else {
            high = middle;
        }
    }
    low
}

/// Whether the message of a slot stands below the key and number, if there is one.
#[inline(always)]
fn is_below<A: Allocator>(raw: &SlotBuf<A>, slot: Option<u32>, key: &[u8], number: u64) -> bool
    requires filled { IsPackedBuffer raw.now }
    requires there { IfSome slot (Contains raw.now.slots) }
{
    match slot {
        Some(slot) => names_below(raw, slot as usize, key, number),
        None => false,
    }
}
