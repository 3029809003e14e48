//! Tenant files: that the calls succeed where there is memory, and what changed files are told.
mod faults;
mod most;

use std::alloc::{AllocError, Allocator, Global};
use std::test::Fail;
use stow_login::tenants::Tenants;
use stow_login::tenants_fault::TenantsFault;
use stow_refusing::{Plan, Refusing};
use stow_testing::tenants::{OTHERS, THREE};

/// The number of the fault of a text, or 0 where it is read.
fn fault_of<A: Allocator + Copy>(alloc: A, heap: Global, text: &str) -> u8 {
    match Tenants::read(alloc, heap, text) {
        Ok(_) => 0,
        Err(fault) => fault.number(),
    }
}

/// Whether the tenant of this name has this quota.
fn has_quota<A: Allocator>(tenants: &Tenants<A>, name: &str, quota: u64) -> bool {
    match tenants.find(name.as_bytes()) {
        Some(index) => { tenants.name(index) == name.as_bytes() && tenants.quota(index) == quota }
        None => false,
    }
}

/// A name, a password, and the index of the tenant who logs in by them.
const LOGINS: [(&str, &str, Option<u32>); 7] = [
    ("ann", "bc", Some(1)),
    ("ben", "c", Some(2)),
    ("cap", "abc", Some(3)),
    ("ann", "abc", None),
    ("ann", "", None),
    ("dan", "", None),
    ("", "", None),
];

/// Whether each login is answered so.
fn are_logged_in<A: Allocator>(tenants: &Tenants<A>, logins: &[(&str, &str, Option<u32>)]) -> bool {
    for (name, password, want) in logins {
        if tenants.check(name.as_bytes(), password.as_bytes()) != *want {
            return false;
        }
    }
    true
}

/// Whether these are the three tenants.
fn are_three<A: Allocator>(tenants: &Tenants<A>) -> bool {
    tenants.count() == 3
        && has_quota(tenants, "ann", 1_000_000)
        && has_quota(tenants, "cap", 100)
        && are_logged_in(tenants, &LOGINS)
}

/// A file's tenants, where there is memory.
fn tenants_of<A: Allocator + Copy>(
    alloc: A,
    global: Global,
    text: &str,
) -> Result<Tenants<A>, AllocError> {
    match Tenants::read(alloc, global, text) {
        Ok(tenants) => Ok(tenants),
        Err(_) => Err(AllocError),
    }
}

/// Whether the three tenants are asked without memory.
fn ask_for_no_memory<A: Allocator, B: Allocator>(
    heap: &Refusing<B>,
    tenants: &Tenants<A>,
    others: &Tenants<A>,
) -> bool {
    heap.set(Plan::RefuseAll);
    let is_answered = are_three(tenants) && tenants.is_same(tenants) && !tenants.is_same(others);
    is_answered && heap.asked() == 0
}

/// Whether three tenants are read, and are then asked without memory.
fn log_in<A: Allocator + Copy, B: Allocator>(
    heap: &Refusing<B>,
    alloc: A,
    global: Global,
) -> Result<bool, AllocError> {
    let three = tenants_of(alloc, global, THREE)?;
    Ok(ask_for_no_memory(heap, &three, &tenants_of(alloc, global, OTHERS)?))
}

#[test]
fn tenants_log_in_without_memory(rt: HostRuntime) -> Result<(), Fail> {
    let heap = Refusing::new(rt.alloc());
    assert!(rt; log_in(&heap, &heap, rt.alloc())?);
    Ok(())
}

/// How many requests for memory a reading makes, if want of memory is told where each is refused. Then the text is read.
fn refusals<A: Allocator + Copy, B: Allocator>(
    heap: &Refusing<B>,
    alloc: A,
    global: Global,
) -> Option<u64> {
    for at in 0..100u64 {
        heap.set(Plan::RefuseAt(at));
        let fault = fault_of(alloc, global, THREE);
        if heap.asked() <= at {
            return if fault == 0 { Some(at) } else { None };
        }
        if fault != TenantsFault::OutOfMemory.number() {
            return None;
        }
    }
    None
}

// Each request for memory is refused in turn: that is told, and the same text is read once memory is there.
#[test]
fn read_withstands_each_refusal(rt: HostRuntime) -> Result<(), Fail> {
    let heap = Refusing::new(rt.alloc());
    let needed = refusals(&heap, &heap, rt.alloc());
    assert!(rt; matches!(needed, Some(needed) if needed >= 6));
    Ok(())
}
