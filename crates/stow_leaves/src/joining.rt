//! Small leaves that become one with a neighbour.
ghost use Rattle.std.specs.Prelude.{◌≡◌, ◌↔◌, IsTrue, ◌<◌, ◌≤◌, ◌++◌, length, map, IfOk, OnOk, OnErr};
ghost use Rattle.stow_leaf.specs.Intervals.{top_key};
ghost use Rattle.stow_leaf.specs.LeafRows.{leaf_rows, LeavesTo};
ghost use Rattle.stow_leaf.specs.StowMerge.Pages.{KeysBelow};
ghost use Rattle.stow_leaf_cache.specs.StowPage.Format.{packed_page};
ghost use Rattle.stow_leaves.specs.Forgets.{Forgets};
ghost use Rattle.stow_leaves.specs.Joins.{IsSmall, AreToJoin, IsJoinOf, Pair, with_joined, JoinsPair, JoinsAll, LosesPair, NoneToJoin};

use std::alloc::{AllocError, Allocator};
use stow_leaf::leaf::Leaf;
use stow_leaf_cache::leaf_cache::LeafCache;
use stow_leaf_cache::stow_page::rows::Rows;

/// Whether the rows' page is below a quarter of the target: four times its bytes are fewer.
fn is_small<A: Allocator>(rows: &Rows<A>, target: u32) -> bool
    ensures { IsTrue result ↔ IsSmall target rows.now }
{
    4 * rows.page_len() < target as usize
}

/// Whether one page of both rows has at most the target's bytes.
fn fit_together<A: Allocator>(lower: &Rows<A>, upper: &Rows<A>, target: u32) -> bool
    ensures { IsTrue result ↔ length (packed_page (lower.now ++ upper.now)) ≤ target }
{
    lower.page_len_with(upper) <= target as usize
}

/// Whether two neighbours' rows are to become one leaf's: one of them is small, and both fit the target.
fn are_to_join<A: Allocator>(lower: &Rows<A>, upper: &Rows<A>, target: u32) -> bool
    ensures { IsTrue result ↔ AreToJoin target lower.now upper.now }
{
    (is_small(lower, target) || is_small(upper, target)) && fit_together(lower, upper, target)
}

/// The rows of both leaves, in a block of their own, if they are to become one.
fn joined_rows<A: Allocator + Copy>(
    alloc: A,
    lower: &Rows<A>,
    upper: &Rows<A>,
    target: u32,
) -> Result<Option<Rows<A>>, AllocError>
    requires { KeysBelow lower.now upper.now }
    ensures { IfOk result (IsJoinOf target lower.now upper.now) }
{
    let _known = (lower.len(), upper.len());
    if !are_to_join(lower, upper, target) {
        return Ok(None);
    }
    Ok(Some(lower.joined(alloc, upper)?))
}

/// Gives the leaf at `index` the rows, and takes out the one above it.
fn put_joined<A: Allocator>(leaves: &mut Vec<Leaf<A>, A>, index: usize, rows: Rows<A>)
    requires { Pair (map leaf_rows leaves.old.items) index }
    ensures { (pair : Pair (map leaf_rows leaves.old.items) index)
        → map leaf_rows leaves.new.items ≡ with_joined pair rows }
{
    let _upper = leaves.remove(index + 1);
    leaves[index].rows = rows;
}

/// Joins the leaf at `index` and the one above it if they are to become one, and answers whether they did. The cache
/// forgets both. Where memory is refused nothing has changed.
fn join_pair<A: Allocator + Copy>(
    alloc: A,
    leaves: &mut Vec<Leaf<A>, A>,
    index: usize,
    target: u32,
    cache: &mut LeafCache<A>,
) -> Result<bool, AllocError>
    requires { Pair (map leaf_rows leaves.old.items) index }
    ensures ok { (pair : Pair (map leaf_rows leaves.old.items) index)
        → IfOk result (JoinsPair target pair (map leaf_rows leaves.new.items)) }
    ensures lost { (pair : Pair (map leaf_rows leaves.old.items) index)
        → IfOk result (LosesPair pair cache.old cache.new) }
    ensures err { OnErr result (leaves.new.items ≡ leaves.old.items) }
    ensures same { OnErr result (cache.new ≡ cache.old) }
    ensures cache { Forgets (map leaf_rows leaves.old.items) (map leaf_rows leaves.new.items)
        cache.old cache.new }
{
    let lower = &leaves[index];
    let upper = &leaves[index + 1];
    let Some(rows) = joined_rows(alloc, &lower.rows, &upper.rows, target)? else {
        return Ok(false);
    };
    cache.forget(lower.low.as_key().bytes);
    cache.forget(upper.low.as_key().bytes);
    put_joined(leaves, index, rows);
    Ok(true)
}

/// Joins small leaves with a neighbour, from the lowest on, until no two are left that are to become one. The cache
/// forgets the leaves that were joined, and no others. Where memory is refused some of them may be joined.
pub(crate) fn join_small<A: Allocator + Copy>(
    alloc: A,
    leaves: &mut Vec<Leaf<A>, A>,
    target: u32,
    cache: &mut LeafCache<A>,
) -> Result<(), AllocError>
    requires some { 0 < length leaves.old.items }
    requires tiled { LeavesTo top_key (map leaf_rows leaves.old.items) }
    ensures joined { JoinsAll target (map leaf_rows leaves.old.items)
        (map leaf_rows leaves.new.items) cache.old cache.new }
    ensures none { OnOk result (NoneToJoin target (map leaf_rows leaves.new.items)) }
    ensures cache { Forgets (map leaf_rows leaves.old.items) (map leaf_rows leaves.new.items)
        cache.old cache.new }
{
    let mut index = 0;
    while index + 1 < leaves.len() {
        if !join_pair(alloc, leaves, index, target, cache)? {
            index += 1;
        }
    }
    Ok(())
}
