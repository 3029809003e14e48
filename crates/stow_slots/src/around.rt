//! The slots beside a place.
ghost use Rattle.std.specs.Prelude.{◌≡◌, ◌<◌, ◌-◌, slice_get, None};
ghost use Rattle.stow_slots.specs.Young.{merged, AreRising, IsRank, IsYoung};

use crate::young_slot::YoungSlot;
use std::alloc::Allocator;
use stow_raw::raw_buf::RawBuf;

/// The slot at `index` among all, if it is there. So many young ones stand before that place.
pub(crate) fn slot_at<A: Allocator>(
    raw: &RawBuf<A>,
    young: &[YoungSlot],
    index: usize,
    rank: usize,
) -> Option<u32>
    requires young { IsYoung raw.now young.now }
    requires rank { IsRank 0 index young.now rank }
    ensures { result ≡ slice_get (merged raw.now.slots young.now) index }
{
    let past = index - rank;
    if rank < young.len() && young[rank].behind as usize == past {
        return Some(young[rank].slot);
    }
    if past < raw.slot_count() {
        Some(raw.slot(past))
    } else {
        None
    }
}

/// The slot right before `index`, if it is there. So many young ones stand before that place.
pub(crate) fn slot_before<A: Allocator>(
    raw: &RawBuf<A>,
    young: &[YoungSlot],
    index: usize,
    rank: usize,
) -> Option<u32>
    requires young { IsYoung raw.now young.now }
    requires rank { IsRank 0 index young.now rank }
    ensures none { index ≡ 0 → result ≡ None }
    ensures some { 0 < index
        → result ≡ slice_get (merged raw.now.slots young.now) (index - 1) }
{
    if index == 0 {
        return None;
    }
    slot_at(raw, young, index - 1, rank_before(young, index, rank))
}

/// How many young slots stand before the place right before `index`, where so many stand before that.
fn rank_before(young: &[YoungSlot], index: usize, rank: usize) -> usize
    requires some { 0 < index }
    requires rising { AreRising 0 young.now }
    requires rank { IsRank 0 index young.now rank }
    ensures { IsRank 0 (index - 1) young.now result }
{
    if rank > 0 && rank - 1 < young.len() && young[rank - 1].behind as usize == index - rank {
        rank - 1
    } else {
        rank
    }
}
