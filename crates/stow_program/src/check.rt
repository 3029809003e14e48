//! Whether a tenant file is good.
ghost use Rattle.std.specs.Prelude.{◌≡◌};
ghost use Rattle.stow_tasks.specs.StowWorkers.Sent.{written_of};
ghost use Rattle.stow_program.specs.Outcomes.{IsChecked};

use crate::tenant_file::read_tenants;
use std::alloc::Global;
use stow_run::failure::Failure;
use stow_run::folder::Folder;
use stow_tasks::script::finish;
use stow_tasks::stow_workers::sink::Sink;

/// Tells that the file of this path is good, and how many tenants it has.
pub fn check<'a, D: Folder, W: Sink>(
    alloc: Global,
    folder: &D,
    path: &'a str,
    output: &mut W,
) -> Result<(), Failure<'a>>
    ensures checked { IsChecked (written_of (W.contents output.old) (W.failures output.old))
        (written_of (W.contents output.new) (W.failures output.new)) result }
    ensures same_output { W.borrow output.new ≡ W.borrow output.old }
{
    let tenants = read_tenants(alloc, folder, path)?;
    let line = format!(in alloc; "good, tenants: {}\n", tenants.count())?;
    finish(line.as_bytes(), output)
}
