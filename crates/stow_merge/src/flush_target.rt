//! Where the pages of a flush belong.
ghost use Rattle.std.specs.Prelude.{◌≤◌};
ghost use Rattle.stow_merge.specs.declared.flush_target.TheConstants.{LEAST_LEAF_TARGET, GREATEST_LEAF_TARGET};

use std::alloc::{Allocator, Global};
use stow_page::stow_tree_model::tenant_key_buf::TenantKeyBuf;

/// The lowest leaf target, in bytes of a page.
pub const LEAST_LEAF_TARGET: u32 = 4_096;

/// The highest leaf target, in bytes of a page.
pub const GREATEST_LEAF_TARGET: u32 = 1_048_576;

/// The leaf whose place the pages of a flush take, and how they are cut.
#[derive(Drop)]
pub struct FlushTarget<A: Allocator = Global> {
    /// The lowest key of the leaf's range.
    pub low_fence: TenantKeyBuf<A>,
    /// The bytes of a page, at most, where it has more keys than one.
    pub leaf_target: u32,
    pub ghost is_from_least: { LEAST_LEAF_TARGET ≤ leaf_target },
    pub ghost is_to_greatest: { leaf_target ≤ GREATEST_LEAF_TARGET },
}
