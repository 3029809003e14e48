//! A worker or a flusher of a pool.
ghost use Rattle.stow_workers.specs.Pools.{GivesBack};

use crate::flush_promise::FlushPromise;
use crate::seat_promise::SeatPromise;
use std::alloc::{Allocator, Global};
use std::thread::{PromisedHandle, Threads};
use stow_shared::journal::Journal;
use stow_shared::seat::Seat;

/// A seat of a pool: with the thread that serves connections from it, with the one that flushes from it, or without
/// one.
#[derive(Drop)]
pub enum Worker<J: Journal, A: Allocator = Global> {
    Serving(PromisedHandle<Seat<J, A>, SeatPromise<J, A>>),
    Flushing(PromisedHandle<Seat<J, A>, FlushPromise<J, A>>),
    Idle(Seat<J, A>),
}

impl<J: Journal, A: Allocator> Worker<J, A> {
    /// The seat, once its thread has ended.
    pub fn join<R: Threads>(self, rt: &R) -> Seat<J, A>
        ensures { GivesBack J.keeps self result }
    {
        match self {
            Worker::Serving(thread) => thread.join(rt),
            Worker::Flushing(thread) => thread.join(rt),
            Worker::Idle(seat) => seat,
        }
    }
}
