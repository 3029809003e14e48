//! Whether a place is that of a key and number, by the messages beside it.
ghost use Rattle.std.specs.Option.{option_map};
ghost use Rattle.std.specs.Prelude.{◌≡◌, ◌-◌, ◌<◌, ◌≤◌, IfSome, IsTrue, slice_get};
ghost use Rattle.stow_message.specs.MessageBuf.{messages_in, IsPackedBuffer};
ghost use Rattle.stow_message.specs.Rising.{below, message_before};
ghost use Rattle.stow_tree_model.specs.TreeMessage.{message_of};

use crate::below::Below;
use crate::message_buf::read_message;
use crate::place::Place;
use crate::slots::names_below;
use std::alloc::Allocator;
use stow_slots::slot_buf::SlotBuf;

/// The messages before a place, if just those stand below the key and number: only the one right before it and the one at it are
/// looked at.
#[inline(always)]
pub(crate) fn look<'a, A: Allocator>(
    raw: &'a SlotBuf<A>,
    place: Place,
    key: &[u8],
    number: u64,
) -> Option<Below<'a>>
    requires { IsPackedBuffer raw.now }
    ensures count { IfSome result (λ found.
        found.count ≡ below (key.now, number) (messages_in raw.now)) }
    ensures last { IfSome result (λ found.
        option_map message_of found.last ≡ message_before found.count (messages_in raw.now)) }
{
    let Place { count, young } = place;
    let (last, next) = raw.around(count, young);
    if !reaches(raw, count, last, key, number) || !ends(raw, count, next, key, number) {
        return None;
    }
    let last = match last {
        Some(slot) => Some(read_message(raw, slot as usize)),
        None => None,
    };
    Some(Below { count, last, young })
}

/// Whether so many messages at least stand below the key and number, by the slot of the last one of them.
#[inline(always)]
fn reaches<A: Allocator>(
    raw: &SlotBuf<A>,
    count: usize,
    last: Option<u32>,
    key: &[u8],
    number: u64,
) -> bool
    requires filled { IsPackedBuffer raw.now }
    requires last { 0 < count → last ≡ slice_get raw.now.slots (count - 1) }
    ensures { IsTrue result → count ≤ below (key.now, number) (messages_in raw.now) }
{
    if count == 0 {
        return true;
    }
    match last {
        Some(slot) => names_below(raw, slot as usize, key, number),
        None => false,
    }
}

/// Whether no more messages than so many stand below the key and number, by the slot of the next one.
#[inline(always)]
fn ends<A: Allocator>(
    raw: &SlotBuf<A>,
    count: usize,
    next: Option<u32>,
    key: &[u8],
    number: u64,
) -> bool
    requires filled { IsPackedBuffer raw.now }
    requires next { next ≡ slice_get raw.now.slots count }
    ensures { IsTrue result → below (key.now, number) (messages_in raw.now) ≤ count }
{
    match next {
        Some(slot) => !names_below(raw, slot as usize, key, number),
        None => true,
    }
}
