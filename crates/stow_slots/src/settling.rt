//! Young slots come to the older ones.
ghost use Rattle.std.specs.Prelude.{◌≡◌, []};
ghost use Rattle.stow_slots.specs.Young.{all_lists, IsYoung};

use crate::young_slot::YoungSlot;
use std::alloc::Allocator;
use stow_raw::raw_buf::RawBuf;

/// Brings the young slots to the others, if there are some.
#[inline(always)]
pub(crate) fn settle<A: Allocator>(raw: &mut RawBuf<A>, young: &mut Vec<YoungSlot, A>)
    requires { IsYoung raw.old young.old.items }
    ensures all { raw.new ≡ all_lists raw.old young.old.items }
    ensures none { young.new.items ≡ [] }
{
    if young.len() > 0 {
        settle_all(raw, young);
    }
}

/// Brings the young slots to the others, in one pass over them.
#[inline(never)]
fn settle_all<A: Allocator>(raw: &mut RawBuf<A>, young: &mut Vec<YoungSlot, A>)
    requires { IsYoung raw.old young.old.items }
    ensures all { raw.new ≡ all_lists raw.old young.old.items }
    ensures none { young.new.items ≡ [] }
{
    let count = young.len();
    let _known = raw.capacity();
    raw.add_slots(count);
    let mut past = 0;
    for i in 0..count {
        let slot = young[i];
        let behind = slot.behind as usize;
        raw.move_slots(past + i, count + past, behind - past);
        raw.set_slot(behind + i, slot.slot);
        past = behind;
    }
    young.clear();
}
