//! Threads of a pool, each with its seat.
ghost use denote.Param.Send.{Frees, IsSend, IsSync};
ghost use Rattle.std.specs.Prelude.{◌≡◌, true, false};
ghost use Rattle.stow_workers.specs.Pools.{IsFlusherOf, IsWorkerOf};

use crate::equipment::Equipment;
use crate::flush_promise::FlushPromise;
use crate::gate::Gate;
use crate::seat_promise::SeatPromise;
use crate::senders::Senders;
use crate::worker::Worker;
use crate::workplace::Workplace;
use std::alloc::Allocator;
use std::snapshot::Snapshot;
use std::sync::Wait;
use std::thread::{Scope, Threads};
use stow_shared::journal::Journal;
use stow_shared::seat::Seat;

/// A worker where it is to serve, and else a flusher.
pub(crate) fn start<'s, E, R, J, G, A>(
    scope: &Scope<'s, E>,
    place: &'s Workplace<'s, R, J, G, A>,
    is_serving: bool,
    seat: Seat<J, A>,
    senders: &mut Option<Senders<A>>,
) -> Worker<J, A>
where
    R: Threads + Wait + Sync,
    J: Journal + Send + Sync,
    G: Gate + Sync,
    A: Allocator + Copy + Send + Sync,
    ensures worker { is_serving ≡ true → IsWorkerOf J.keeps seat result }
    ensures flusher { is_serving ≡ false → IsFlusherOf J.keeps seat result }
{
    if is_serving {
        start_worker(scope, place, seat, senders)
    } else {
        start_flusher(scope, place, seat, senders)
    }
}

/// A worker, with a thread where there are senders. Where the thread, or what it needs, is refused they are dropped.
fn start_worker<'s, E, R, J, G, A>(
    scope: &Scope<'s, E>,
    place: &'s Workplace<'s, R, J, G, A>,
    seat: Seat<J, A>,
    senders: &mut Option<Senders<A>>,
) -> Worker<J, A>
where
    R: Threads + Wait + Sync,
    J: Journal + Send + Sync,
    G: Gate + Sync,
    A: Allocator + Copy + Send + Sync,
    ensures { IsWorkerOf J.keeps seat result }
{
    let equipment = equipped(senders);
    if equipment.is_none() {
        *senders = None;
        return Worker::Idle(seat);
    }
    let promise = SeatPromise {
        seat: Snapshot::of(&seat),
    };
    match scope.spawn_with(promise, move || place.work_with(seat, equipment)) {
        Ok(thread) => Worker::Serving(thread),
        Err(refused) => {
            *senders = None;
            Worker::Idle((refused.value)())
        }
    }
}

/// A flusher, with a thread where there are senders. Where the thread is refused they are dropped, so that the workers
/// end, and no wake is waited for.
fn start_flusher<'s, E, R, J, G, A>(
    scope: &Scope<'s, E>,
    place: &'s Workplace<'s, R, J, G, A>,
    seat: Seat<J, A>,
    senders: &mut Option<Senders<A>>,
) -> Worker<J, A>
where
    R: Threads + Wait + Sync,
    J: Journal + Send + Sync,
    G: Gate + Sync,
    A: Allocator + Copy + Send + Sync,
    ensures { IsFlusherOf J.keeps seat result }
{
    if senders.is_none() {
        return Worker::Idle(seat);
    }
    let promise = FlushPromise {
        seat: Snapshot::of(&seat),
    };
    match scope.spawn_with(promise, move || place.flush(seat)) {
        Ok(thread) => Worker::Flushing(thread),
        Err(refused) => {
            *senders = None;
            Worker::Idle((refused.value)())
        }
    }
}

/// What a worker needs beside its seat, where there are senders and an event loop is left.
fn equipped<A: Allocator + Copy>(senders: &mut Option<Senders<A>>) -> Option<Equipment<A>> {
    let senders = senders.as_mut()?;
    let event_loop = senders.event_loops.pop()?;
    let waker = senders.waker();
    Some(Equipment { waker, event_loop })
}
