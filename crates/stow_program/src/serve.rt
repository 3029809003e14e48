//! Connections over TCP, served by threads, beside threads that flush.
ghost use Rattle.std.specs.Prelude.{◌≡◌, ◌+◌, ◌-◌, ◌<◌, IfErr, IfOk, false, min, vec_len};
ghost use Rattle.stow_program.specs.Outcomes.{EndsServing};
ghost use Rattle.stow_program.specs.Services.{IsMemory, IsOfNetwork, IsOpened, IsServed, workers_of};
ghost use Rattle.stow_tasks.specs.StowWorkers.Pools.{ComeBack, total_of};

use crate::service::Service;
use log::info;
use log::sink::Writer;
use std::alloc::{AllocError, Allocator};
use std::io::Write;
use std::net::{Net, SocketAddr, TcpListener};
use std::sync::{Arc, Wait};
use std::thread::Threads;
use stow_command_line::stow_tree::tree_shape::TreeShape;
use stow_login::tenants::Tenants;
use stow_run::failure::{Endpoint, Failure};
use stow_run::serving::Serving;
use stow_tasks::new_core::new_core;
use stow_tasks::script::finish;
use stow_tasks::stow_shared::seat::Seat;
use stow_tasks::stow_shared::shared::Shared;
use stow_tasks::stow_shared::unkept::Unkept;
use stow_tasks::stow_workers::open_gate::OpenGate;
use stow_tasks::stow_workers::pool::Pool;
use stow_tasks::stow_workers::pool_fault::PoolFault;
use stow_tasks::stow_workers::sink::Sink;

/// Tells the listener's address on the output, and serves its connections over a new service of the tenants and
/// a tree of this shape. Where notices are wanted, a line of a log tells the start and another one the end.
pub fn serve_connections<R, A, W: Sink, E: Write>(
    rt: &R,
    alloc: A,
    listener: &TcpListener,
    tenants: Tenants<A>,
    shape: TreeShape,
    serving: Serving,
    output: &mut W,
    errors: &mut E,
) -> Result<Service<A>, Failure<'static>>
where
    R: Threads + Wait + Net + Sync,
    A: Allocator + Copy + Send + Sync,
    ensures ok { IfOk result (λ s. IsServed tenants shape serving s.shared s.seats.items s.accepted) }
    ensures err { IfErr result (EndsServing (W.failures output.old) (W.failures output.new)) }
    ensures same_output { W.borrow output.new ≡ W.borrow output.old }
{
    let (shared, seats) = opened(alloc, tenants, shape, serving)?;
    let address = Endpoint::Network.check(listener.local_addr())?;
    tell_address(alloc, address, output)?;
    notice(serving, "start", errors);
    let (seats, accepted) = serve_from(rt, alloc, listener, &shared, seats, serving);
    let accepted = accepted?;
    notice(serving, "end", errors);
    Ok(Service {
        shared,
        seats,
        accepted,
    })
}

/// A lock that keeps no journal over a new core of the tenants and a tree of this shape, and a seat for each worker and
/// each flusher.
fn opened<A: Allocator + Copy>(
    alloc: A,
    tenants: Tenants<A>,
    shape: TreeShape,
    serving: Serving,
) -> Result<(Shared<Unkept, A>, Vec<Seat<Unkept, A>, A>), Failure<'static>>
    ensures ok { IfOk result (λ r. IsOpened tenants shape serving r.0 r.1.items) }
    ensures err { IfErr result IsMemory }
{
    let tenants = Arc::new(alloc, tenants).map_err(AllocError::from)?;
    let core = new_core(alloc, tenants, shape)?;
    let count = serving.workers.saturating_add(serving.flushers);
    match Shared::open(alloc, core, count) {
        Ok(opened) => Ok(opened),
        Err(_) => Err(Failure::Memory),
    }
}

/// Serves the listener's connections from these seats, and tells how many it accepted.
fn serve_from<R, A>(
    rt: &R,
    alloc: A,
    listener: &TcpListener,
    shared: &Shared<Unkept, A>,
    seats: Vec<Seat<Unkept, A>, A>,
    serving: Serving,
) -> (Vec<Seat<Unkept, A>, A>, Result<u64, Failure<'static>>)
where
    R: Threads + Wait + Net + Sync,
    A: Allocator + Copy + Send + Sync,
    requires each { vec_len seats ≡ serving.workers + serving.flushers }
    requires some { 0 < vec_len seats }
    ensures back { ComeBack false (workers_of serving) seats.items result.0.items }
    ensures accepted { IfOk result.1 (λ accepted. accepted ≡ total_of serving.connections) }
    ensures err { IfErr result.1 IsOfNetwork }
{
    let flushers = flushers_among(seats.len(), serving.flushers);
    let (seats, accepted) = Pool::run(
        rt,
        alloc,
        listener,
        shared,
        seats,
        flushers,
        serving.clients,
        serving.connections,
        &OpenGate,
    );
    match accepted {
        Ok(accepted) => (seats, Ok(accepted)),
        Err(PoolFault::AcceptFailed(error)) => {
            (seats, Err(Failure::at(Endpoint::Network, error)))
        }
        Err(PoolFault::Refused) => (seats, Err(Failure::Memory)),
    }
}

/// How many of the seats are flushers', where so many are wanted: one at least is a worker's.
fn flushers_among(seats: usize, wanted: u32) -> usize
    requires { 0 < seats }
    ensures few { result < seats }
    ensures wanted { result ≡ min wanted (seats - 1) }
{
    (wanted as usize).min(seats - 1)
}

fn tell_address<A: Allocator, W: Sink>(
    alloc: A,
    address: SocketAddr,
    output: &mut W,
) -> Result<(), Failure<'static>>
    ensures err { IfErr result (EndsServing (W.failures output.old) (W.failures output.new)) }
    ensures same_output { W.borrow output.new ≡ W.borrow output.old }
{
    let line = format!(in alloc; "listening {address}\n")?;
    finish(line.as_bytes(), output)
}

/// A line of a log, where notices are wanted; one that can't be written is dropped.
fn notice<E: Write>(serving: Serving, word: &str, errors: &mut E) {
    if serving.notices {
        info!(Writer::new(errors); "{word}");
    }
}
