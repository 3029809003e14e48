//! A new service, and a task over it.
ghost use Rattle.std.specs.Prelude.{◌≡◌};
ghost use Rattle.stow_workers.specs.Counted.{borrow_of, failures_of};
ghost use Rattle.stow_tasks.specs.Ends.{InputFails, held_by, unread_of};
ghost use Rattle.stow_tasks.specs.Told.{IsTaskServed};

use crate::new_core::new_core;
use crate::pipe::pipe;
use crate::script::script;
use crate::usage::usage;
use std::alloc::{AllocError, Allocator};
use std::io::{Read, Write};
use std::sync::Arc;
use stow_login::tenants::Tenants;
use stow_run::failure::Failure;
use stow_run::job::Task;
use stow_workers::counted::Counted;
use stow_workers::stow_house::house::House;
use stow_workers::stow_tree::tree_shape::TreeShape;

/// Makes a new service of the tenants, over a tree of this shape, and does the task over it.
pub fn serve<'a, A: Allocator + Copy, R: Read, W: Write>(
    alloc: A,
    tenants: Tenants<A>,
    shape: TreeShape,
    task: Task,
    input: &mut Counted<'_, R>,
    output: &mut Counted<'_, W>,
) -> Result<(), Failure<'a>>
    ensures served { IsTaskServed task tenants (unread_of R.remaining input.old)
        (unread_of R.remaining input.new) (held_by W.contents output.old)
        (held_by W.contents output.new) result }
    ensures input { InputFails result (failures_of input.old) (failures_of input.new) }
    ensures same_input { borrow_of input.new ≡ borrow_of input.old }
    ensures same_output { borrow_of output.new ≡ borrow_of output.old }
{
    let tenants = Arc::new(alloc, tenants).map_err(AllocError::from)?;
    let mut core = new_core(alloc, tenants.clone()?, shape)?;
    match task {
        Task::Pipe => pipe(alloc, &tenants, &mut core, input, output),
        Task::Script => script(alloc, &mut House::new(alloc, core), input, output),
        Task::Usage => usage(alloc, &mut House::new(alloc, core), input, output),
    }
}
