//! What reaches the threads of a pool.
use crate::event_loop::EventLoop;
use crate::wake::Wake;
use crate::waker::Waker;
use crate::worker_handle::WorkerHandle;
use crossbeam_channel::{Receiver, Sender};
use std::alloc::{Allocator, Global};
use std::net::{Net, TcpStream};
use std::sync::Wait;

/// The ends by which connections reach a pool's workers, and wakes its flushers, if it has any.
#[derive(Drop)]
pub(crate) struct Senders<A: Allocator = Global> {
    pub(crate) alloc: A,
    pub(crate) handles: Vec<WorkerHandle<A>, A>,
    /// The event loops of workers that aren't started yet.
    pub(crate) event_loops: Vec<EventLoop<A>, A>,
    /// The number of a worker for each connection that it has closed.
    pub(crate) closed: Receiver<u32, A>,
    pub(crate) closed_sender: Sender<u32, A>,
    pub(crate) wakes: Option<Sender<Wake, A>>,
    /// How many connections there are, and how many there may be.
    pub(crate) count: u32,
    pub(crate) clients: u32,
}

impl<A: Allocator + Copy> Senders<A> {
    /// A waker for one more worker. Where the system holds no more ends it wakes nobody.
    pub(crate) fn waker(&self) -> Waker<A> {
        match &self.wakes {
            Some(wakes) => Waker::new(wakes.clone().ok()),
            None => Waker::new(None),
        }
    }

    /// Makes what one more worker needs. `None` where memory or the system refuses it.
    pub(crate) fn add_worker<R: Net>(&mut self, rt: &R) -> Option<()> {
        let number = u32::try_from(self.handles.len()).ok()?;
        let (handle, event_loop) = WorkerHandle::new(rt, self.alloc, number, &self.closed_sender)?;
        self.handles.push(handle).ok()?;
        self.event_loops.push(event_loop).ok()
    }

    /// Waits until there is room for one more connection.
    pub(crate) fn wait_for_room<R: Wait>(&mut self, rt: &R) {
        for _ in 0..u32::MAX {
            match self.closed.try_recv(rt) {
                Ok(number) => self.note_closed(number),
                Err(_) => break,
            }
        }
        if self.count >= self.clients {
            self.wait_for_close(rt);
        }
    }

    /// Waits until a connection is closed: whether there was one.
    pub(crate) fn wait_for_close<R: Wait>(&mut self, rt: &R) -> bool {
        if self.count == 0 {
            return false;
        }
        match self.closed.recv(rt) {
            Ok(number) => {
                self.note_closed(number);
                true
            }
            Err(_) => false,
        }
    }

    /// This worker has closed a connection.
    fn note_closed(&mut self, number: u32) {
        self.count = self.count.saturating_sub(1);
        let at = number as usize;
        if at < self.handles.len() {
            self.handles[at].count = self.handles[at].count.saturating_sub(1);
        }
    }

    /// Hands a connection to a worker that has fewest. Where it can't be handed over it is closed.
    pub(crate) fn hand_over<R: Wait>(&mut self, rt: &R, stream: TcpStream) {
        let at = self.least_loaded();
        if at < self.handles.len() {
            let is_handed_over = self.handles[at].hand_over(rt, stream);
            self.count = self.count.saturating_add(u32::from(is_handed_over));
        }
    }

    /// The first worker that has fewest connections.
    fn least_loaded(&self) -> usize {
        let mut best = 0;
        for at in 0..self.handles.len() {
            if best < self.handles.len() && self.handles[at].count < self.handles[best].count {
                best = at;
            }
        }
        best
    }
}
