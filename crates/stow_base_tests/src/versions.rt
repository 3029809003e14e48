//! Versions: ids, numbers and pins, that `ready` withstands each refusal, and that no other call asks for memory.
use std::alloc::Allocator;
use std::test::Fail;
use stow_refusing::{Plan, Refusing};
use stow_versions::no_such_snapshot::NoSuchSnapshot;
use stow_versions::snapshot_fault::SnapshotFault;
use stow_versions::versions::Versions;

/// The id of a new snapshot.
fn taken<A: Allocator + Copy>(versions: &mut Versions<A>) -> Result<u64, SnapshotFault> {
    versions.ready()?;
    Ok(versions.take())
}

/// Goes on to the next number. The tests have few.
fn advance<A: Allocator + Copy>(versions: &mut Versions<A>) {
    if versions.last() < 9 {
        versions.advance();
    }
}

/// Whether there are two snapshots at one number and one at the next.
fn are_three<A: Allocator + Copy>(versions: &Versions<A>) -> bool {
    let are_new = versions.ids() == [1, 2, 3].as_slice() && versions.last() == 2;
    are_new && versions.pins() == [1, 2].as_slice()
}

/// Whether the first two snapshots leave one by one.
fn leave<A: Allocator + Copy>(versions: &mut Versions<A>) -> bool {
    let is_shared = versions.drop_id(1) == Ok(1) && versions.pins() == [1, 2].as_slice();
    let is_last = versions.drop_id(2) == Ok(1) && versions.pins() == [2].as_slice();
    let is_gone = versions.drop_id(2) == Err(NoSuchSnapshot) && versions.number_of(2) == None;
    is_shared && is_last && is_gone && versions.number_of(3) == Some(2) && versions.live() == 1
}

/// Whether two snapshots at one number and one at the next have ids and pins as the product says, and leave them one by one.
fn share_a_pin<A: Allocator + Copy>(versions: &mut Versions<A>) -> Result<bool, SnapshotFault> {
    advance(versions);
    let ids = [taken(versions)?, taken(versions)?];
    advance(versions);
    let third = taken(versions)?;
    let are_new = ids == [1, 2] && third == 3 && are_three(versions);
    Ok(are_new && leave(versions) && taken(versions)? == 4)
}

/// Whether it is so of new versions.
fn is_pin_shared<A: Allocator + Copy>(alloc: A) -> bool {
    matches!(share_a_pin(&mut Versions::new(alloc)), Ok(true))
}

/// Whether 64 snapshots can be taken, and no more until one is dropped.
fn are_limited<A: Allocator + Copy>(versions: &mut Versions<A>) -> Result<bool, SnapshotFault> {
    for _ in 0..64 {
        taken(versions)?;
    }
    let is_full = versions.ready() == Err(SnapshotFault::TooMany) && versions.live() == 64;
    Ok(is_full && versions.drop_id(7) == Ok(0) && taken(versions)? == 65)
}

/// Whether it is so of new versions.
fn are_few<A: Allocator + Copy>(alloc: A) -> bool {
    matches!(are_limited(&mut Versions::new(alloc)), Ok(true))
}

#[test]
fn snapshots_are_limited_and_share_pins(rt: HostRuntime) -> Result<(), Fail> {
    assert!(rt; is_pin_shared(rt.alloc()));
    assert!(rt; are_few(rt.alloc()));
    Ok(())
}

/// Whether a snapshot that is ready is taken and dropped without memory.
fn ask_for_no_memory<A: Allocator + Copy, B: Allocator>(
    heap: &Refusing<B>,
    versions: &mut Versions<A>,
) -> bool {
    if versions.ready().is_err() {
        return false;
    }
    heap.set(Plan::RefuseAll);
    let id = versions.take();
    advance(versions);
    let is_dropped = versions.drop_id(id) == Ok(0);
    is_dropped && versions.pins().is_empty() && versions.last() == 1 && heap.asked() == 0
}

/// Whether memory is refused to `ready`, which leaves the versions as they were.
fn is_refused<A: Allocator + Copy>(versions: &mut Versions<A>) -> bool {
    versions.ready() == Err(SnapshotFault::OutOfMemory) && versions.live() == 0
}

/// Whether this request for memory of new versions' `ready` is refused.
fn is_refused_at<A: Allocator + Copy, B: Allocator>(heap: &Refusing<B>, alloc: A, at: u64) -> bool {
    heap.set(Plan::RefuseAt(at));
    is_refused(&mut Versions::new(alloc))
}

/// Whether no other call of new versions asks for memory.
fn is_free<A: Allocator + Copy, B: Allocator>(heap: &Refusing<B>, alloc: A) -> bool {
    heap.set(Plan::Grant);
    ask_for_no_memory(heap, &mut Versions::new(alloc))
}

// Each request for memory of `ready` is refused in turn: that is told, and nothing changes.
#[test]
fn only_ready_asks_for_memory(rt: HostRuntime) -> Result<(), Fail> {
    let heap = Refusing::new(rt.alloc());
    for at in 0..4u64 {
        assert!(rt; is_refused_at(&heap, &heap, at) == (at < 3), "request {at}");
    }
    assert!(rt; is_free(&heap, &heap));
    Ok(())
}
