//! Where leaves end.
ghost use Rattle.std.specs.Prelude.{◌≡◌, ◌+◌, ◌<◌, length, map};
ghost use Rattle.stow_leaf.specs.LeafRows.{leaf_rows, first_fence};
ghost use Rattle.stow_leaves.specs.Absorbs.{fence_at};

use std::alloc::Allocator;
use stow_leaf::ends::top_key;
use stow_leaf::leaf::Leaf;
use stow_leaf_cache::stow_tree_model::tenant_key::TenantKey;

/// Where the keys of the leaf at `index` end.
pub(crate) fn high_after<A: Allocator>(leaves: &[Leaf<A>], index: usize) -> TenantKey<'_>
    requires { index < length leaves.now }
    ensures { result.bytes.now ≡ fence_at (map leaf_rows leaves.now) (index + 1) }
{
    match leaves.get(index + 1) {
        Some(leaf) => leaf.low.as_key(),
        None => top_key(),
    }
}

/// Where the keys of these leaves begin, or the end of all where there are none.
pub(crate) fn first_fence<'a, A: Allocator>(
    leaves: &'a [Leaf<A>],
    end: TenantKey<'a>,
) -> TenantKey<'a>
    ensures { result.bytes.now ≡ first_fence end.entry.bytes.now (map leaf_rows leaves.now) }
{
    match leaves.first() {
        Some(leaf) => leaf.low.as_key(),
        None => end,
    }
}
