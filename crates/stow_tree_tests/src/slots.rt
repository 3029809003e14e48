//! Slots that are put between others: the youngest wait beside the block.
use std::alloc::{AllocError, Allocator};
use std::test::Fail;
use stow_refusing::{Plan, Refusing};
use stow_slots::slot_buf::SlotBuf;

/// The bytes of the least block whose young slots wait.
const LARGE: usize = 65_536;

/// How many slots are put, how large the block is, and how many of them are young then.
const WAITING: [(u32, usize, usize); 5] = [
    (1, LARGE, 1),
    (1_024, LARGE, 1_024),
    (1_025, LARGE, 0),
    (2_000, LARGE, 975),
    (100, LARGE - 1, 0),
];

/// Puts so many slots into a block, each in the middle of those before it.
fn put_all<A: Allocator>(buf: &mut SlotBuf<A>, count: u32) {
    for slot in 0..count {
        if buf.room() >= 4 {
            let middle = buf.slot_count() / 2;
            buf.insert_slot_near(middle, buf.rank(middle), slot);
        }
    }
}

/// How many slots there are, how many of them are young, and how many once the last one was written over; and how many requests
/// for memory all but making makes.
fn counts<A: Allocator + Copy, B: Allocator>(
    heap: &Refusing<B>,
    alloc: A,
    (count, bytes): (u32, usize),
) -> Result<(usize, usize, usize, u64), AllocError> {
    heap.set(Plan::Grant);
    let mut buf = SlotBuf::with_capacity(alloc, bytes)?;
    heap.set(Plan::RefuseAll);
    put_all(&mut buf, count);
    let (all, young) = (buf.slot_count(), buf.young_count());
    if all > 0 {
        buf.set_slot(all - 1, u32::MAX);
    }
    Ok((all, young, buf.young_count(), heap.asked()))
}

#[test]
fn young_slots_wait(rt: HostRuntime) -> Result<(), Fail> {
    let heap = Refusing::new(rt.alloc());
    for (count, bytes, young) in WAITING {
        let counts = counts(&heap, &heap, (count, bytes))?;
        assert_eq!(rt; counts, (count as usize, young, 0, 0));
    }
    Ok(())
}
