//! The core of a new service.
ghost use Rattle.std.specs.Prelude.{◌≡◌, IfOk};
ghost use Rattle.std.specs.Arc.{arc_value};
ghost use Rattle.stow_workers.specs.StowCore.State.{IsNewCore};
ghost use Rattle.stow_workers.specs.StowTree.TreeState.{new_tree};

use std::alloc::{AllocError, Allocator};
use std::sync::Arc;
use stow_login::tenants::Tenants;
use stow_workers::stow_core::Core;
use stow_workers::stow_tree::tree_shape::TreeShape;

/// A core in which each tenant's store is empty, over a tree of this shape, of which the command line's parser let only
/// sizes within their limits through.
pub fn new_core<A: Allocator + Copy>(
    alloc: A,
    tenants: Arc<Tenants<A>, A>,
    shape: TreeShape,
) -> Result<Core<A>, AllocError>
    ensures entries { IfOk result (λ core. core.entries ≡ arc_value tenants) }
    ensures empty { IfOk result IsNewCore }
    ensures tree { IfOk result (λ core. core.tree ≡ new_tree shape) }
{
    match Core::new(alloc, tenants, shape) {
        Ok(core) => Ok(core),
        Err(_) => Err(AllocError),
    }
}
