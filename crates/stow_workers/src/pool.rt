//! Threads that serve the connections of a listener, and flush.
ghost use denote.Param.Send.{Frees, IsSend, IsSync};
ghost use Rattle.std.specs.Prelude.{◌≡◌, ◌-◌, ◌<◌, ◌≤◌, vec_len, vec_capacity, [], IfOk};
ghost use Rattle.stow_workers.specs.Pools.{AreEach, AreEachUpTo, ComeBack, GivesBack, IsFlusherOf, IsWorkerOf, total_of};

use crate::accepting::accept;
use crate::gate::Gate;
use crate::pool_fault::PoolFault;
use crate::senders::Senders;
use crate::starting::start;
use crate::wake::Wake;
use crate::worker::Worker;
use crate::workplace::Workplace;
use crossbeam_channel::{Receiver, bounded};
use std::alloc::Allocator;
use std::net::{Net, TcpListener};
use std::sync::Wait;
use std::thread;
use std::thread::{Scope, Threads};
use stow_shared::journal::Journal;
use stow_shared::seat::Seat;
use stow_shared::shared::Shared;

/// How many wakes may wait for a flusher.
const WAITING: usize = 16;

/// Threads that serve the connections of a listener, and threads that flush, each from a seat of its own.
pub struct Pool;

impl Pool {
    /// Serves the listener's connections, up to `clients` at once, or one at 0, each by one worker from its first request to its
    /// end, with a worker for each seat but the last `flushers`. A connection goes to a worker that has fewest, and those of a
    /// worker take turns. From each of the last seats a flusher flushes, woken by every 64th call of a worker. Returns once so many
    /// connections were served, which it then tells, or never at 0, and all its threads have ended; so does a fault, once the
    /// connections that were accepted are served. Each seat comes back in its place. Nothing but calls was done from a worker's, and
    /// nothing but plans and installs from a flusher's.
    pub fn run<
        'a,
        R: Threads + Wait + Net + Sync,
        J: Journal + Send + Sync,
        G: Gate + Sync,
        A: Allocator + Copy + Send + Sync,
    >(
        rt: &'a R,
        alloc: A,
        listener: &'a TcpListener,
        shared: &'a Shared<J, A>,
        seats: Vec<Seat<J, A>, A>,
        flushers: usize,
        clients: u32,
        connections: u64,
        gate: &'a G,
    ) -> (Vec<Seat<J, A>, A>, Result<u64, PoolFault>)
        requires { flushers < vec_len seats }
        ensures back { ComeBack J.keeps (vec_len seats - flushers) seats.items result.0.items }
        ensures accepted { IfOk result.1 (λ accepted. accepted ≡ total_of connections) }
    {
        let count = seats.len() - flushers;
        let Some((senders, wakes)) = set_up(rt, alloc, count, flushers, clients) else {
            return (seats, Err(PoolFault::Refused));
        };
        let place = Workplace {
            rt,
            alloc,
            wakes: &wakes,
            shared,
            gate,
        };
        serve(&place, listener, seats, count, connections, Some(senders))
    }
}

/// What the threads of a pool need: the ends by which they are reached, with an event loop for each worker, and where wakes come
/// from. `None` where memory or the system refuses it.
fn set_up<R: Net, A: Allocator + Copy>(
    rt: &R,
    alloc: A,
    workers: usize,
    flushers: usize,
    clients: u32,
) -> Option<(Senders<A>, Receiver<Wake, A>)> {
    let clients = clients.max(1);
    let (waking, wakes) = bounded(alloc, WAITING).ok()?;
    let (closed_sender, closed) = bounded(alloc, clients as usize).ok()?;
    let mut senders = Senders {
        alloc,
        handles: Vec::new(alloc),
        event_loops: Vec::new(alloc),
        closed,
        closed_sender,
        wakes: if flushers > 0 { Some(waking) } else { None },
        count: 0,
        clients,
    };
    for _ in 0..workers {
        senders.add_worker(rt)?;
    }
    Some((senders, wakes))
}

/// Serves and flushes from the seats, as `Pool::run` has it.
fn serve<
    'a,
    R: Threads + Wait + Sync,
    J: Journal + Send + Sync,
    G: Gate + Sync,
    A: Allocator + Copy + Send + Sync,
>(
    place: &'a Workplace<'a, R, J, G, A>,
    listener: &'a TcpListener,
    seats: Vec<Seat<J, A>, A>,
    count: usize,
    connections: u64,
    senders: Option<Senders<A>>,
) -> (Vec<Seat<J, A>, A>, Result<u64, PoolFault>)
    requires { count ≤ vec_len seats }
    ensures back { ComeBack J.keeps count seats.items result.0.items }
    ensures accepted { IfOk result.1 (λ accepted. accepted ≡ total_of connections) }
{
    let (rt, alloc) = (place.rt, place.alloc);
    let Ok(workers) = Vec::with_capacity(alloc, seats.len()) else {
        return (seats, Err(PoolFault::Refused));
    };
    let Ok(returned) = Vec::with_capacity(alloc, seats.len()) else {
        return (seats, Err(PoolFault::Refused));
    };
    thread::scope(
        thread::scope_env(),
        rt,
        move |scope| -> (Vec<Seat<J, A>, A>, Result<u64, PoolFault>)
            requires { IsSync R.row × IsSync J.row × IsSync G.row × IsSync A.row
                × IsSend J.row × IsSend A.row × Frees A.Allocator A.dealloc_token
                × (workers.items ≡ []) × (vec_len seats ≤ vec_capacity workers)
                × (returned.items ≡ []) × (vec_len seats ≤ vec_capacity returned) }
            ensures back { ComeBack J.keeps count seats.items result.0.items }
            ensures accepted { IfOk result.1 (λ accepted. accepted ≡ total_of connections) }
        {
            let mut senders = senders;
            let workers = start_all(scope, place, count, seats, &mut senders, workers);
            let accepted = match &mut senders {
                Some(senders) => accept(rt, listener, senders, connections),
                None => Err(PoolFault::Refused),
            };
            drop(senders);
            (join_all(rt, workers, returned), accepted)
        },
    )
}

/// A worker for each of the first `count` seats, and a flusher for each of the others. Where a thread is refused the
/// senders are dropped, so that nobody waits for a connection or a wake, and no more threads are started.
fn start_all<'s, E, R, J, G, A>(
    scope: &Scope<'s, E>,
    place: &'s Workplace<'s, R, J, G, A>,
    count: usize,
    seats: Vec<Seat<J, A>, A>,
    senders: &mut Option<Senders<A>>,
    mut workers: Vec<Worker<J, A>, A>,
) -> Vec<Worker<J, A>, A>
where
    R: Threads + Wait + Sync,
    J: Journal + Send + Sync,
    G: Gate + Sync,
    A: Allocator + Copy + Send + Sync,
    requires { (workers.items ≡ []) × (vec_len seats ≤ vec_capacity workers) }
    ensures each { AreEachUpTo count (IsWorkerOf J.keeps) (IsFlusherOf J.keeps) seats.items
        result.items }
    ensures count { vec_len result ≡ vec_len seats }
{
    for seat in seats {
        let worker = start(scope, place, workers.len() < count, seat, senders);
        workers.push_reserved(worker);
    }
    workers
}

/// The seats, once the threads of all workers have ended.
fn join_all<R: Threads, J: Journal, A: Allocator>(
    rt: &R,
    workers: Vec<Worker<J, A>, A>,
    mut returned: Vec<Seat<J, A>, A>,
) -> Vec<Seat<J, A>, A>
    requires { (returned.items ≡ []) × (vec_len workers ≤ vec_capacity returned) }
    ensures { AreEach (GivesBack J.keeps) workers.items result.items }
{
    for worker in workers {
        returned.push_reserved(worker.join(rt));
    }
    returned
}
