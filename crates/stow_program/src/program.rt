//! What the program does, over any reader and writers.
ghost use Rattle.std.specs.Prelude.{◌≡◌, IfErr};
ghost use Rattle.stow_tasks.specs.StowWorkers.Counted.{borrow_of};
ghost use Rattle.stow_tasks.specs.Ends.{held_by, unread_of};
ghost use Rattle.stow_program.specs.Outcomes.{EndsWith, IsJobRun, streams_of};

use crate::check::check;
use crate::network::listen;
use crate::tenant_file::read_tenants;
use std::alloc::Global;
use std::io::{Read, Write};
use std::net::{Net, TcpListener, TcpStream};
use std::sync::Wait;
use std::thread::Threads;
use stow_command_line::arguments::{Arguments, Wish, read_arguments};
use stow_run::conclusion::conclude;
use stow_run::failure::Failure;
use stow_run::folder::Folder;
use stow_run::job::Job;
use stow_run::salt_source::SaltSource;
use stow_tasks::entry::entry;
use stow_tasks::script::finish;
use stow_tasks::service::serve;
use stow_tasks::stow_workers::counted::Counted;

/// Does what the words ask for, the first being the program's own name, and gives the exit status: 0; 2
/// where the arguments or the script are refused; 3 where the tenant file is; 4 where input or output failed;
/// 5 where memory was refused. The arguments are looked at first, then the address, the tenant file and the
/// script.
pub fn program<H, D: Folder + SaltSource, R: Read, W: Write, E: Write>(
    rt: &H,
    alloc: Global,
    folder: &D,
    words: &[String],
    input: &mut Counted<'_, R>,
    output: &mut Counted<'_, W>,
    errors: &mut E,
) -> u8
where
    H: Net<Listener = TcpListener, Stream = TcpStream> + Threads + Wait + Sync,
    ensures ends { EndsWith (D.gives folder.now) (streams_of (unread_of R.remaining input.old)
        (unread_of R.remaining input.new) (held_by W.contents output.old)
        (held_by W.contents output.new)) result }
    ensures same_input { borrow_of input.new ≡ borrow_of input.old }
    ensures same_output { borrow_of output.new ≡ borrow_of output.old }
{
    match read_arguments(alloc, words) {
        Ok(Wish::Work(arguments)) => {
            let outcome = run(rt, alloc, folder, &arguments, input, output, errors);
            conclude(alloc, outcome, arguments.explain, errors)
        }
        Ok(Wish::Entry(tenant)) => {
            let outcome = entry(alloc, folder, &tenant, input, output);
            conclude(alloc, outcome, false, errors)
        }
        Ok(Wish::Check(file)) => {
            let outcome = check(alloc, folder, file.path, output);
            conclude(alloc, outcome, file.explain, errors)
        }
        Ok(Wish::Help(text)) => {
            let outcome = finish(text.as_bytes(), output);
            conclude(alloc, outcome, false, errors)
        }
        Err(failure) => conclude(alloc, Err(failure), false, errors),
    }
}

/// Does what the arguments ask for.
fn run<'a, H, D: Folder, R: Read, W: Write, E: Write>(
    rt: &H,
    alloc: Global,
    folder: &D,
    arguments: &Arguments<'a>,
    input: &mut Counted<'_, R>,
    output: &mut Counted<'_, W>,
    errors: &mut E,
) -> Result<(), Failure<'a>>
where
    H: Net<Listener = TcpListener, Stream = TcpStream> + Threads + Wait + Sync,
    ensures runs { IsJobRun arguments.now.job (streams_of (unread_of R.remaining input.old)
        (unread_of R.remaining input.new) (held_by W.contents output.old)
        (held_by W.contents output.new)) result }
    ensures same_input { borrow_of input.new ≡ borrow_of input.old }
    ensures same_output { borrow_of output.new ≡ borrow_of output.old }
{
    let tenants = read_tenants(alloc, folder, arguments.tenants)?;
    let shape = arguments.shape;
    match arguments.job {
        Job::Input(task) => serve(alloc, tenants, shape, task, input, output),
        Job::Serve(serving) => {
            listen(rt, alloc, tenants, shape, serving, output, errors)?;
            Ok(())
        }
    }
}
