//! How connections reach a worker.
use crate::event_loop::{EVENTS, EventLoop, WAKE};
use crossbeam_channel::{Sender, bounded};
use mio::{Events, Poll, Waker};
use std::alloc::{Allocator, Global};
use std::collections::VecDeque;
use std::net::{Net, TcpStream};
use std::sync::{Arc, Wait};

/// How many connections may wait for a worker to add them.
const WAITING: usize = 16;

/// How connections reach a worker, and how many it has.
#[derive(Drop)]
pub(crate) struct WorkerHandle<A: Allocator = Global> {
    streams: Sender<TcpStream, A>,
    poll_waker: Arc<Waker, A>,
    pub(crate) count: u32,
}

impl<A: Allocator + Copy> WorkerHandle<A> {
    /// The handle of a worker of this number, and its event loop. `None` where memory or the system refuses it.
    pub(crate) fn new<R: Net>(
        rt: &R,
        alloc: A,
        number: u32,
        closed: &Sender<u32, A>,
    ) -> Option<(WorkerHandle<A>, EventLoop<A>)> {
        let (streams, accepted) = bounded(alloc, WAITING).ok()?;
        let closed = closed.clone().ok()?;
        let poll = Poll::new(rt).ok()?;
        let poll_waker = Arc::new(alloc, Waker::new(poll.registry(), WAKE).ok()?).ok()?;
        let events = Events::with_capacity(alloc, EVENTS).ok()?;
        let event_loop = EventLoop {
            alloc,
            number,
            accepted,
            closed,
            poll,
            poll_waker: Arc::try_clone(&poll_waker).ok()?,
            events,
            connections: Vec::new(alloc),
            free: Vec::new(alloc),
            due: VecDeque::new(alloc),
            count: 0,
            lingering: 0,
            rounds: 0,
            is_woken: false,
            is_quiet: false,
        };
        let handle = WorkerHandle {
            streams,
            poll_waker,
            count: 0,
        };
        Some((handle, event_loop))
    }

    /// Hands a connection over, and then wakes the worker: whether it could be.
    pub(crate) fn hand_over<W: Wait>(&mut self, rt: &W, stream: TcpStream) -> bool {
        if self.streams.send(rt, stream).is_err() {
            return false;
        }
        self.count = self.count.saturating_add(1);
        let _ = self.poll_waker.wake();
        true
    }
}
