//! An allocator for tests, which refuses the requests for memory that it is told to refuse, and counts them.
//! No other crate's code uses it but tests. Proved: it is a sound allocator (what it hands out is its inner
//! allocator's, and goes back to it). Only tested: which requests it refuses, and its count.
#![tactic(auto)]

ghost use Rattle.std.specs.Prelude.{◌≡◌, IfSome};

use std::alloc::{AllocError, Allocator};
use std::sync::atomic::{AtomicU64, Ordering};

/// Which requests are refused: none, the one at a count from now, or each.
#[derive(Clone, Copy)]
pub enum Plan {
    Grant,
    RefuseAt(u64),
    RefuseAll,
}

/// Passes each request on to `inner`, unless the plan refuses it. Tests lend it, as `&heap`.
#[derive(Drop)]
pub struct Refusing<B> {
    inner: B,
    from: AtomicU64,
    to: AtomicU64,
    asked: AtomicU64,
}

impl<B> Refusing<B> {
    pub fn new(inner: B) -> Refusing<B> {
        Refusing {
            inner,
            from: AtomicU64::new(0),
            to: AtomicU64::new(0),
            asked: AtomicU64::new(0),
        }
    }

    /// From now on follows `plan`, and counts the requests from 0.
    pub fn set(&self, plan: Plan) {
        let (from, to) = match plan {
            Plan::Grant => (0, 0),
            Plan::RefuseAt(at) => (at, at.saturating_add(1)),
            Plan::RefuseAll => (0, u64::MAX),
        };
        self.from.store(from, Ordering::SeqCst);
        self.to.store(to, Ordering::SeqCst);
        self.asked.store(0, Ordering::SeqCst);
    }

    /// How many requests were made since `set`.
    pub fn asked(&self) -> u64 {
        self.asked.load(Ordering::SeqCst)
    }

    fn lent(&self) -> Option<&B>
        ensures { IfSome result (λ h. h.now ≡ self.now.inner) }
    {
        let count = self.asked.fetch_add(1, Ordering::SeqCst);
        let refused = self.from.load(Ordering::SeqCst) <= count
            && count < self.to.load(Ordering::SeqCst);
        if refused { None } else { Some(&self.inner) }
    }
}

unsafe impl<B: Allocator> Allocator for Refusing<B> {
    ghost dealloc_token = { λ heap ty ptr. B.dealloc_token heap.inner ty ptr };

    fn allocate(&self, size: usize, align: usize) -> Result<*mut u8, AllocError> {
        match self.lent() {
            Some(inner) => inner.allocate(size, align),
            None => Err(AllocError),
        }
    }

    unsafe fn deallocate(&self, ptr: *mut u8, size: usize, align: usize) {
        self.inner.deallocate(ptr, size, align);
    }
}
