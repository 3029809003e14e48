//! New cores and houses, and their calls without what these promise, so that no test carries it.
ghost use Rattle.std.specs.Prelude.{IfOk};
ghost use Rattle.stow_house.specs.StowCore.State.{IsNewCore};
ghost use Rattle.stow_house.specs.Steps.{state_of};
ghost use Rattle.stow_house.specs.Runs.{IsNewHouse};

use std::alloc::{AllocError, Allocator, Global};
use std::sync::Arc;
use stow_house::house::House;
use stow_house::outputs::Outputs;
use stow_house::run_fault::RunFault;
use stow_house::step_result::StepResult;
use stow_house::stow_core::Core;
use stow_house::stow_merge::flush_result::FlushResult;
use stow_house::stow_node::installed::Installed;
use stow_house::stow_tree::shape_report::ShapeReport;
use stow_house::stow_tree::tree_shape::TreeShape;
use stow_login::tenants::Tenants;
use stow_model::event::Event;
use stow_model::reply::Reply;
use stow_model::words::Words;
use stow_testing::tenants::THREE;

/// The tenants of a file. Its table is kept in `global` for as long as it is read.
pub(crate) fn tenants_of<A: Allocator + Copy>(
    alloc: A,
    global: Global,
    text: &str,
) -> Result<Tenants<A>, AllocError> {
    match Tenants::read(alloc, global, text) {
        Ok(tenants) => Ok(tenants),
        Err(_) => Err(AllocError),
    }
}

/// The same, shared.
fn shared<A: Allocator + Copy>(
    alloc: A,
    global: Global,
    text: &str,
) -> Result<Arc<Tenants<A>, A>, AllocError> {
    Ok(Arc::new(alloc, tenants_of(alloc, global, text)?)?)
}

/// A new core of a tenant file's tenants, over a tree of this shape.
fn core_of<A: Allocator + Copy>(
    alloc: A,
    global: Global,
    text: &str,
    shape: TreeShape,
) -> Result<Core<A>, AllocError>
    ensures { IfOk result IsNewCore }
{
    match Core::new(alloc, shared(alloc, global, text)?, shape) {
        Ok(core) => Ok(core),
        Err(_) => Err(AllocError),
    }
}

/// A new core of the three tenants, over a tree of this shape.
pub(crate) fn core_in<A: Allocator + Copy>(
    alloc: A,
    global: Global,
    shape: TreeShape,
) -> Result<Core<A>, AllocError> {
    core_of(alloc, global, THREE, shape)
}

/// The same in the smallest shape.
pub(crate) fn new_core<A: Allocator + Copy>(
    alloc: A,
    global: Global,
) -> Result<Core<A>, AllocError> {
    core_in(alloc, global, TreeShape::SMALLEST)
}

/// What a function makes of a new value, which no other function holds.
pub(crate) fn lend<V: Drop, R, F>(made: Result<V, AllocError>, then: F) -> Result<R, AllocError>
where
    F: FnOnce(&mut V) -> Result<R, AllocError> + Drop,
    requires { F.IsAlwaysCallable then }
{
    then(&mut made?)
}

/// What a core tells a tenant's words.
pub(crate) fn call<A: Allocator + Copy>(
    core: &mut Core<A>,
    alloc: A,
    tenant: u32,
    words: &Words<A>,
) -> Reply<A> {
    core.call(alloc, tenant, words)
}

/// Gives a tenant another quota.
pub(crate) fn give<A: Allocator + Copy>(core: &mut Core<A>, tenant: u32, quota: u32) {
    core.set_quota(tenant, u64::from(quota));
}

/// How large a core's tree is.
pub(crate) fn shape_of<A: Allocator + Copy>(core: &Core<A>) -> ShapeReport {
    core.shape()
}

/// The result of a core's next job, if there is one.
pub(crate) fn merged<A: Allocator + Copy>(
    core: &mut Core<A>,
    alloc: A,
) -> Result<Option<FlushResult<A>>, AllocError> {
    let Some(job) = core.plan(alloc)? else {
        return Ok(None);
    };
    match job.merge(alloc) {
        Ok(merge) => Ok(Some(merge)),
        Err((_, refused)) => Err(refused),
    }
}

/// What becomes of a result in a core.
pub(crate) fn installed<A: Allocator + Copy>(
    core: &mut Core<A>,
    alloc: A,
    merge: FlushResult<A>,
) -> Result<Installed, AllocError> {
    match core.install(alloc, merge) {
        Ok(installed) => Ok(installed),
        Err((_, refused)) => Err(refused),
    }
}

/// A new house of a tenant file's tenants, over a tree of this shape.
fn house_of<A: Allocator + Copy>(
    alloc: A,
    global: Global,
    text: &str,
    shape: TreeShape,
) -> Result<House<A>, AllocError>
    ensures { IfOk result (λ house. IsNewHouse (state_of house)) }
{
    Ok(House::new(alloc, core_of(alloc, global, text, shape)?))
}

/// A new house of the three tenants, in the smallest shape.
pub(crate) fn new_house<A: Allocator + Copy>(
    alloc: A,
    global: Global,
) -> Result<House<A>, AllocError>
    ensures { IfOk result (λ house. IsNewHouse (state_of house)) }
{
    house_of(alloc, global, THREE, TreeShape::SMALLEST)
}

/// How a house answers an event.
pub(crate) fn step<A: Allocator + Copy>(
    house: &mut House<A>,
    alloc: A,
    event: &Event<A>,
) -> StepResult<A> {
    house.step(alloc, event)
}

/// A run of a new house of the three tenants, in the smallest shape.
pub(crate) fn run<A: Allocator + Copy>(
    alloc: A,
    mut house: House<A>,
    events: &[Event<A>],
) -> Result<Outputs<A>, RunFault<A>>
    requires { IsNewHouse (state_of house) }
{
    house.run(alloc, events)
}

/// What a run of a new house of a file's tenants tells, to which no memory is refused.
pub(crate) fn ran<A: Allocator + Copy>(
    alloc: A,
    global: Global,
    text: &str,
    events: &[Event<A>],
) -> Result<Outputs<A>, AllocError> {
    match run(
        alloc,
        house_of(alloc, global, text, TreeShape::SMALLEST)?,
        events,
    ) {
        Ok(outputs) => Ok(outputs),
        Err(_) => Err(AllocError),
    }
}

/// What a run of a house told, and how large its tree is then.
fn reported<A: Allocator + Copy>(
    house: &House<A>,
    ended: Result<Outputs<A>, RunFault<A>>,
) -> Result<(Outputs<A>, ShapeReport), AllocError> {
    match ended {
        Ok(outputs) => Ok((outputs, shape_of(house.core()))),
        Err(_) => Err(AllocError),
    }
}

/// The same of the run of a new house.
fn run_reported<A: Allocator + Copy>(
    alloc: A,
    mut house: House<A>,
    events: &[Event<A>],
) -> Result<(Outputs<A>, ShapeReport), AllocError>
    requires { IsNewHouse (state_of house) }
{
    let ended = house.run(alloc, events);
    reported(&house, ended)
}

/// The same of a house over a tree of this shape.
pub(crate) fn ran_in<A: Allocator + Copy>(
    alloc: A,
    global: Global,
    (text, shape): (&str, TreeShape),
    events: &[Event<A>],
) -> Result<(Outputs<A>, ShapeReport), AllocError> {
    run_reported(alloc, house_of(alloc, global, text, shape)?, events)
}

/// The index of a file's tenant.
pub(crate) fn index_of<A: Allocator + Copy>(
    alloc: A,
    global: Global,
    text: &str,
    name: &[u8],
) -> Result<Option<u32>, AllocError> {
    let house = house_of(alloc, global, text, TreeShape::SMALLEST)?;
    Ok(house.core().tenants().find(name))
}
