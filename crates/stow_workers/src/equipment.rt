//! What a worker needs beside its seat.
use crate::event_loop::EventLoop;
use crate::waker::Waker;
use std::alloc::{Allocator, Global};

/// What a worker needs beside its seat: what wakes flushers, and its event loop.
#[derive(Drop)]
pub struct Equipment<A: Allocator = Global> {
    pub(crate) waker: Waker<A>,
    pub(crate) event_loop: EventLoop<A>,
}
