//! One connection over a reader and a writer.
ghost use Rattle.std.specs.Prelude.{◌≡◌, ◌<◌};
ghost use Rattle.std.specs.declared.io.Error.{Error};
ghost use Rattle.stow_workers.specs.Counted.{borrow_of, failures_of, inner_of};
ghost use Rattle.stow_tasks.specs.Ends.{InputFails, held_by};
ghost use Rattle.stow_run.specs.Statuses.{failure_at};
ghost use Rattle.stow_tasks.specs.Pipes.{IsPiped};

use std::alloc::Allocator;
use std::io::{Read, Write};
use stow_login::tenants::Tenants;
use stow_run::failure::{Endpoint, Failure};
use stow_workers::counted::Counted;
use stow_workers::open_gate::OpenGate;
use stow_workers::served::Served;
use stow_workers::serving::serve_connection;
use stow_workers::sink::Sink;
use stow_workers::stow_core::Core;

/// Serves the reader's bytes as one connection, and writes the replies. It ends at the end of input, after a
/// QUIT, and after a fault of the stream.
pub fn pipe<'a, A: Allocator + Copy, R: Read, W: Write>(
    alloc: A,
    tenants: &Tenants<A>,
    core: &mut Core<A>,
    input: &mut Counted<'_, R>,
    output: &mut Counted<'_, W>,
) -> Result<(), Failure<'a>>
    ensures piped { IsPiped tenants.now (R.remaining (inner_of input.old))
        (R.remaining (inner_of input.new)) core.old core.new (held_by W.contents output.old)
        (held_by W.contents output.new) result }
    ensures input { InputFails result (failures_of input.old) (failures_of input.new) }
    ensures same_input { borrow_of input.new ≡ borrow_of input.old }
    ensures same_output { borrow_of output.new ≡ borrow_of output.old }
{
    match serve_connection(alloc, input, output, tenants, core, &OpenGate) {
        Served::Quit | Served::Ended | Served::Faulted(_) => Endpoint::Output.check(output.flush()),
        Served::ReadFailed => Err(failure(Endpoint::Input, input)),
        Served::WriteFailed => Err(failure(Endpoint::Output, output)),
        Served::NoMemory => Err(Failure::Memory),
    }
}

/// Why reading or writing failed there.
fn failure<'a, T>(place: Endpoint<'a>, end: &Counted<'_, T>) -> Failure<'a>
    requires { 0 < failures_of end.now }
    ensures { (error : Error) × (result ≡ failure_at place.entry error) }
{
    match end.last_failure() {
        Some(error) => Failure::at(place, error),
        None => unreachable!(),
    }
}
