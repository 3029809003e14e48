//! The tests' allocator: which requests it refuses, its count, and that threads share it.
use std::alloc::{AllocError, Allocator};
use std::collections::BTreeMap;
use std::test::Fail;
use stow_refusing::{Plan, Refusing};

fn three<A: Allocator + Clone>(heap: A) -> Result<usize, AllocError> {
    let mut v = Vec::new(heap.clone()?);
    v.push(7u8)?;
    let mut map = BTreeMap::new(heap.clone()?);
    map.insert(1u8, v)?;
    let text = String::from_str(heap, "hello")?;
    Ok(map.len() + text.len())
}

#[test]
fn two_threads_share_a_heap(rt: HostRuntime) -> Result<(), Fail> {
    let heap = Refusing::new(rt.alloc());
    let lent = &heap;
    let (a, b) = std::thread::join(
        &rt,
        move || three(lent).is_ok(),
        move || three(lent).is_ok(),
    );
    assert!(rt; a && b);
    Ok(())
}

#[test]
fn each_request_is_refused_in_turn(rt: HostRuntime) -> Result<(), Fail> {
    let heap = Refusing::new(rt.alloc());
    three(&heap)?;
    let needed = heap.asked();
    assert!(rt; needed >= 3, "asked {needed}");
    for at in 0..needed {
        heap.set(Plan::RefuseAt(at));
        assert!(rt; three(&heap).is_err(), "request {at}");
        heap.set(Plan::Grant);
        assert!(rt; three(&heap).is_ok(), "after request {at}");
    }
    heap.set(Plan::RefuseAll);
    assert!(rt; three(&heap).is_err());
    Ok(())
}
