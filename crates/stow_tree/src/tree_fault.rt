//! Why a tree can't be made.
use std::alloc::AllocError;
use thiserror::Error;

/// Why a tree can't be made.
#[derive(Clone, Copy, Debug, PartialEq, Eq, Error)]
pub enum TreeFault {
    #[error("a size of the tree is out of its range")]
    Shape,
    #[error("memory was refused")]
    Memory,
}

impl From<AllocError> for TreeFault {
    ghost use Rattle.std.specs.Prelude.{◌≡◌};
    ghost use Rattle.stow_tree.specs.declared.tree_fault.TreeFault.TheVariants.{Memory};

    ghost from_gives = { λ _ e. e ≡ Memory };

    fn from(_error: AllocError) -> TreeFault {
        TreeFault::Memory
    }
}
