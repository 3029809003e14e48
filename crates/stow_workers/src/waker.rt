//! What wakes flushers.
use crate::wake::Wake;
use crossbeam_channel::Sender;
use std::alloc::{Allocator, Global};
use std::sync::Wait;

/// After so many calls of a worker a flusher is woken.
const CALLS: u32 = 64;

/// Wakes a flusher after every 64th call of a worker, where there is one.
#[derive(Drop)]
pub struct Waker<A: Allocator = Global> {
    wakes: Option<Sender<Wake, A>>,
    calls: u32,
}

impl<A: Allocator> Waker<A> {
    /// A waker of the flushers at the other end, which has counted no call.
    pub(crate) fn new(wakes: Option<Sender<Wake, A>>) -> Waker<A> {
        Waker { wakes, calls: 0 }
    }

    /// One more call was answered. The send of a wake may wait; where it is refused the wake is left out.
    pub(crate) fn count<R: Wait>(&mut self, rt: &R) {
        let Some(wakes) = &self.wakes else {
            return;
        };
        self.calls = self.calls % CALLS + 1;
        if self.calls == CALLS {
            let _ = wakes.send(rt, Wake);
        }
    }

    /// Counts so many commands.
    pub(crate) fn count_all<R: Wait>(&mut self, rt: &R, count: usize) {
        for _ in 0..count {
            self.count(rt);
        }
    }
}
