//! Connections on their way from a listener to the workers.
ghost use Rattle.std.specs.Prelude.{◌≡◌, IfOk};
ghost use Rattle.stow_workers.specs.Pools.{total_of};

use crate::pool_fault::PoolFault;
use crate::senders::Senders;
use std::alloc::Allocator;
use std::io;
use std::io::{Error, ErrorKind};
use std::net::{TcpListener, TcpStream};
use std::sync::Wait;

/// The system's numbers for no free descriptor, of the system and of the process.
const NO_DESCRIPTOR: [i32; 2] = [23, 24];

/// Accepts so many connections, each once there is room for it, and hands them over; at 0 there is no end. Where one
/// can't be handed over it is closed. It tells how many it accepted.
pub(crate) fn accept<R: Wait, A: Allocator + Copy>(
    rt: &R,
    listener: &TcpListener,
    senders: &mut Senders<A>,
    connections: u64,
) -> Result<u64, PoolFault>
    ensures { IfOk result (λ accepted. accepted ≡ total_of connections) }
{
    let count = if connections == 0 {
        u64::MAX
    } else {
        connections
    };
    let mut accepted = 0;
    for _ in 0..count {
        senders.wait_for_room(rt);
        match next_stream(rt, listener, senders) {
            Ok(stream) => senders.hand_over(rt, stream),
            Err(error) => return Err(PoolFault::AcceptFailed(error)),
        }
        accepted += 1;
    }
    Ok(accepted)
}

/// The next connection. One that went away before it was accepted is passed over. Where no descriptor is free it waits until a
/// connection is closed, if there is one.
fn next_stream<R: Wait, A: Allocator + Copy>(
    rt: &R,
    listener: &TcpListener,
    senders: &mut Senders<A>,
) -> io::Result<TcpStream> {
    for stream in listener.incoming() {
        match stream {
            Ok(stream) => {
                // Where the system refuses this, replies are only slower.
                let _ = stream.set_nodelay(true);
                return Ok(stream);
            }
            Err(error) if is_of_one_client(&error) => {}
            Err(error) => {
                if !wants_descriptor(&error) || !senders.wait_for_close(rt) {
                    return Err(error);
                }
            }
        }
    }
    Err(Error::from(ErrorKind::Other))
}

/// Whether the failure says nothing of the next client.
fn is_of_one_client(error: &Error) -> bool {
    matches!(
        error.kind(),
        ErrorKind::Interrupted | ErrorKind::ConnectionAborted
    )
}

/// Whether no descriptor was free.
fn wants_descriptor(error: &Error) -> bool {
    match error.raw_os_error() {
        Some(number) => NO_DESCRIPTOR.contains(&number),
        None => false,
    }
}
