//! Which young slots stand before a place.
ghost use Rattle.std.specs.Prelude.{◌≡◌, ◌+◌, ◌<◌, ◌↔◌, IfSome, IsTrue, None, false};
ghost use Rattle.stow_slots.specs.Young.{AreRising, HasOneMore, IsRank};

use crate::quartering::{Sought, count_below, step_if};
use crate::young_slot::YoungSlot;
use std::alloc::Allocator;

/// How many young slots stand before the place with this index among all: as many as a guess says where those beside it agree, and
/// else by a search.
#[inline(always)]
pub(crate) fn rank_of(young: &[YoungSlot], index: usize, guess: usize) -> usize
    requires { AreRising 0 young.now }
    ensures { IsRank 0 index young.now result }
{
    if is_rank(young, index, guess) {
        guess
    } else {
        searched_rank(young, index)
    }
}

/// Whether so many young slots stand before the place with this index among all, by the last of these and the next one.
#[inline(always)]
fn is_rank(young: &[YoungSlot], index: usize, rank: usize) -> bool
    requires { AreRising 0 young.now }
    ensures { IsTrue result → IsRank 0 index young.now rank }
{
    if rank > young.len() {
        return false;
    }
    let reaches = rank == 0 || is_before(young[rank - 1], rank - 1, index);
    let ends = rank == young.len() || !is_before(young[rank], rank, index);
    reaches && ends
}

/// The place with this index among all slots, as it is sought among the young ones.
#[derive(Clone, Copy)]
struct PlaceOf {
    index: usize,
}

impl Sought<YoungSlot> for PlaceOf {
    /// The numbers are far below 2^63, so the highest bit of their difference tells which one is below.
    #[inline(always)]
    fn step_past(&self, young: YoungSlot, rank: usize, step: usize) -> usize {
        let difference = (young.behind as usize)
            .wrapping_add(rank)
            .wrapping_sub(self.index);
        step_if(difference >> 63, step)
    }
}

/// How many they may be.
#[inline(always)]
pub(crate) fn guessed_rank(young: &[YoungSlot], index: usize) -> usize {
    count_below(young, &PlaceOf { index })
}

/// So many of the older slots, as they are sought among those that young ones stand behind.
#[derive(Clone, Copy)]
struct Older {
    count: usize,
}

impl Sought<YoungSlot> for Older {
    /// As above.
    #[inline(always)]
    fn step_past(&self, young: YoungSlot, _rank: usize, step: usize) -> usize {
        step_if((young.behind as usize).wrapping_sub(self.count) >> 63, step)
    }
}

/// How many young slots stand behind fewer of the older ones.
#[inline(always)]
pub(crate) fn young_behind(young: &[YoungSlot], older: usize) -> usize {
    count_below(young, &Older { count: older })
}

/// How many young slots stand before the place with this index among all, by a search that is exact.
fn searched_rank(young: &[YoungSlot], index: usize) -> usize
    requires { AreRising 0 young.now }
    ensures { IsRank 0 index young.now result }
{
    let (mut low, mut high) = (0, young.len());
    while low < high {
        let middle = low + (high - low) / 2;
        if is_before(young[middle], middle, index) {
            low = middle + 1;
        } else {
            high = middle;
        }
    }
    low
}

/// Whether the young slot with so many young ones before it stands before the place with this index among all.
fn is_before(young: YoungSlot, rank: usize, index: usize) -> bool
    ensures { IsTrue result ↔ (young.behind + rank < index) }
{
    rank < index && (young.behind as usize) < index - rank
}

/// Puts a slot at the place with this index among all, if its list has room for it. So many young ones may stand before it.
pub(crate) fn put_young<A: Allocator>(
    young: &mut Vec<YoungSlot, A>,
    index: usize,
    guess: usize,
    slot: u32,
) -> bool
    requires { AreRising 0 young.old.items }
    ensures put { IsTrue result → HasOneMore young.old.items index slot young.new.items }
    ensures none { result ≡ false → young.new.items ≡ young.old.items }
{
    if young.len() == young.capacity() {
        return false;
    }
    let rank = rank_of(young.as_slice(), index, guess);
    let Ok(behind) = u32::try_from(index - rank) else {
        return false;
    };
    young.insert(rank, YoungSlot { behind, slot }).is_ok()
}

/// Takes the slot at the place with this index among all out of its list, if it is a young one. So many young ones may stand before it.
pub(crate) fn take_young<A: Allocator>(
    young: &mut Vec<YoungSlot, A>,
    index: usize,
    guess: usize,
) -> Option<u32>
    requires { AreRising 0 young.old.items }
    ensures taken { IfSome result (λ slot. HasOneMore young.new.items index slot young.old.items) }
    ensures none { result ≡ None → young.new.items ≡ young.old.items }
{
    let rank = rank_of(young.as_slice(), index, guess);
    if rank < young.len() && young[rank].behind as usize == index - rank {
        Some(young.remove(rank).slot)
    } else {
        None
    }
}
