//! Where connections come from.
ghost use Rattle.std.specs.Prelude.{◌≡◌, IfErr, IfOk};
ghost use Rattle.stow_program.specs.Outcomes.{EndsServing};
ghost use Rattle.stow_program.specs.Services.{IsServed};

use crate::serve::serve_connections;
use crate::service::Service;
use std::alloc::Global;
use std::io::Write;
use std::net::{Net, TcpListener, TcpStream};
use std::sync::Wait;
use std::thread::Threads;
use stow_command_line::stow_tree::tree_shape::TreeShape;
use stow_login::tenants::Tenants;
use stow_run::failure::{Endpoint, Failure};
use stow_run::serving::Serving;
use stow_tasks::stow_workers::sink::Sink;

/// Listens at the address, and serves the connections that come there over a new service of the tenants and a tree
/// of this shape.
pub fn listen<H, W: Sink, E: Write>(
    rt: &H,
    alloc: Global,
    tenants: Tenants<Global>,
    shape: TreeShape,
    serving: Serving,
    output: &mut W,
    errors: &mut E,
) -> Result<Service<Global>, Failure<'static>>
where
    H: Net<Listener = TcpListener, Stream = TcpStream> + Threads + Wait + Sync,
    ensures ok { IfOk result (λ s. IsServed tenants shape serving s.shared s.seats.items s.accepted) }
    ensures err { IfErr result (EndsServing (W.failures output.old) (W.failures output.new)) }
    ensures same_output { W.borrow output.new ≡ W.borrow output.old }
{
    let listener = Endpoint::Network.check(TcpListener::bind(rt, serving.listen))?;
    serve_connections(
        rt, alloc, &listener, tenants, shape, serving, output, errors,
    )
}
