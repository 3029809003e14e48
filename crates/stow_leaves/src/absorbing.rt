//! Messages that are merged into leaves of a row.
ghost use Rattle.std.specs.Prelude.{◌≡◌, ◌+◌, ◌<◌, ◌≤◌, ◌++◌, length, take, drop, map, ◌∷◌, [], IfOk, OnErr};
ghost use Rattle.std.specs.Vec.{vec_len, vec_capacity};
ghost use Rattle.stow_leaf.specs.LeafRows.{leaf_rows, LeavesTo};
ghost use Rattle.stow_leaf.specs.StowMerge.Pins.{pins_in};
ghost use Rattle.stow_leaf.specs.Intervals.{top_key};
ghost use Rattle.stow_leaves.specs.Absorbs.{left_above, CanAbsorb, CanPutOthers, CanPutPages, PutsOthers, PutsPages, Merges, StandsFor};
ghost use Rattle.stow_leaves.specs.AbsorbsAll.{CanAbsorbAll, CanGiveWay, GivesWay, MergesAll, StandsForAll};
ghost use Rattle.stow_leaves.specs.Forgets.{Forgets};

use crate::ends::{first_fence, high_after};
use crate::joining::join_small;
use std::alloc::{AllocError, Allocator};
use stow_leaf::leaf::Leaf;
use stow_leaf::stow_merge::flush_result::FlushResult;
use stow_leaf::stow_merge::pins::Pins;
use stow_leaf::stow_message::message_buf::MessageBuf;
use stow_leaf_cache::leaf_cache::LeafCache;
use stow_leaf_cache::stow_tree_model::tenant_key::TenantKey;

/// Puts other leaves in the place of the one at `index`. There is room for them.
fn put_leaves<A: Allocator>(leaves: &mut Vec<Leaf<A>, A>, index: usize, mut others: Vec<Leaf<A>, A>)
    requires inside { index < length leaves.old.items }
    requires room { vec_len leaves.old + vec_len others ≤ vec_capacity leaves.old }
    ensures { leaves.new.items ≡ take index leaves.old.items
        ++ (others.items ++ drop (index + 1) leaves.old.items) }
{
    let _replaced = leaves.remove(index);
    while let Some(leaf) = others.pop() {
        leaves.insert(index, leaf).unwrap();
    }
}

/// The leaves with others in the place of the one at `index`; then small leaves are joined with a neighbour. The cache
/// forgets what is replaced, and nothing else.
fn with_others<A: Allocator + Copy>(
    alloc: A,
    mut leaves: Vec<Leaf<A>, A>,
    index: usize,
    others: Vec<Leaf<A>, A>,
    target: u32,
    cache: &mut LeafCache<A>,
) -> Result<Vec<Leaf<A>, A>, AllocError>
    requires { CanPutOthers (map leaf_rows leaves.items) index (map leaf_rows others.items) }
    ensures puts { IfOk result (λ fresh. PutsOthers (map leaf_rows leaves.items) index
        (map leaf_rows others.items) target (map leaf_rows fresh.items) cache.old cache.new) }
    ensures cache { IfOk result (λ fresh. Forgets (map leaf_rows leaves.items)
        (map leaf_rows fresh.items) cache.old cache.new) }
    ensures err { OnErr result (Forgets (map leaf_rows leaves.items) (map leaf_rows leaves.items)
        cache.old cache.new) }
{
    leaves.reserve(others.len())?;
    cache.forget(leaves[index].low.as_key().bytes);
    put_leaves(&mut leaves, index, others);
    join_small(alloc, &mut leaves, target, cache)?;
    Ok(leaves)
}

/// The leaves with all messages of the buffer for the one at `index` merged into it, under pins: it gives way to leaves
/// that are cut by the target, and then small leaves are joined with a neighbour. The cache forgets what is replaced,
/// and nothing else.
pub fn merged<A: Allocator + Copy>(
    alloc: A,
    leaves: Vec<Leaf<A>, A>,
    index: usize,
    buffer: &MessageBuf<A>,
    pins: &Pins<A>,
    target: u32,
    cache: &mut LeafCache<A>,
) -> Result<Vec<Leaf<A>, A>, AllocError>
    requires { CanAbsorb (map leaf_rows leaves.items) index buffer.now.messages target }
    ensures merged { IfOk result (λ fresh. Merges (map leaf_rows leaves.items) index
        buffer.now.messages (pins_in pins.now) target (map leaf_rows fresh.items)
        cache.old cache.new) }
    ensures stands { IfOk result (λ fresh. StandsFor (map leaf_rows leaves.items) index
        buffer.now.messages (left_above (map leaf_rows leaves.items) index buffer.now.messages)
        (pins_in pins.now) target (map leaf_rows fresh.items)) }
    ensures cache { IfOk result (λ fresh. Forgets (map leaf_rows leaves.items)
        (map leaf_rows fresh.items) cache.old cache.new) }
    ensures err { OnErr result (Forgets (map leaf_rows leaves.items) (map leaf_rows leaves.items)
        cache.old cache.new) }
{
    let high = high_after(leaves.as_slice(), index);
    let others = leaves[index].replacement(alloc, buffer, high, pins, target)?;
    with_others(alloc, leaves, index, others, target, cache)
}

/// The leaves that come in a leaf's place, whose keys end at `high`: all messages of the buffer for it are merged into them
/// (`Leaf::replacement`), and the cache forgets it. Where there are none it stays.
fn given_way<A: Allocator + Copy>(
    alloc: A,
    leaf: Leaf<A>,
    high: TenantKey<'_>,
    buffer: &MessageBuf<A>,
    pins: &Pins<A>,
    target: u32,
    cache: &mut LeafCache<A>,
) -> Result<Vec<Leaf<A>, A>, AllocError>
    requires { CanGiveWay (leaf_rows leaf) high.bytes.now buffer.now.messages target }
    ensures way { IfOk result (λ others. GivesWay (leaf_rows leaf) high.entry.bytes.now
        buffer.now.messages (pins_in pins.now) target (map leaf_rows others.items)
        cache.old cache.new) }
    ensures cache { IfOk result (λ others. Forgets (leaf_rows leaf ∷ [])
        (map leaf_rows others.items) cache.old cache.new) }
    ensures err { OnErr result (cache.new ≡ cache.old) }
{
    if buffer.in_range(leaf.low.as_key(), high).len() == 0 {
        let mut same = Vec::new(alloc);
        same.push(leaf)?;
        return Ok(same);
    }
    let others = leaf.replacement(alloc, buffer, high, pins, target)?;
    cache.forget(leaf.low.as_key().bytes);
    Ok(others)
}

/// The leaves with all messages merged into them that a buffer holds from the first one's fence on and below `end`, where
/// their keys end, under pins: each for which there are messages gives way to leaves that are cut by the target, the highest
/// first, and then small leaves are joined with a neighbour. The cache forgets what is replaced, and nothing else.
pub fn all_merged<A: Allocator + Copy>(
    alloc: A,
    mut leaves: Vec<Leaf<A>, A>,
    end: TenantKey<'_>,
    buffer: &MessageBuf<A>,
    pins: &Pins<A>,
    target: u32,
    cache: &mut LeafCache<A>,
) -> Result<Vec<Leaf<A>, A>, AllocError>
    requires { CanAbsorbAll (map leaf_rows leaves.items) end.bytes.now buffer.now.messages target }
    ensures merged { IfOk result (λ fresh. MergesAll (map leaf_rows leaves.items)
        end.entry.bytes.now buffer.now.messages (pins_in pins.now) target
        (map leaf_rows fresh.items) cache.old cache.new) }
    ensures stands { IfOk result (λ fresh. StandsForAll (map leaf_rows leaves.items)
        end.entry.bytes.now buffer.now.messages (pins_in pins.now) target
        (map leaf_rows fresh.items)) }
    ensures cache { IfOk result (λ fresh. Forgets (map leaf_rows leaves.items)
        (map leaf_rows fresh.items) cache.old cache.new) }
    ensures err { OnErr result (Forgets (map leaf_rows leaves.items) (map leaf_rows leaves.items)
        cache.old cache.new) }
{
    let mut fresh = Vec::new(alloc);
    while let Some(leaf) = leaves.pop() {
        let high = first_fence(fresh.as_slice(), end);
        let mut others = given_way(alloc, leaf, high, buffer, pins, target, cache)?;
        others.append(&mut fresh)?;
        fresh = others;
    }
    join_small(alloc, &mut fresh, target, cache)?;
    Ok(fresh)
}

/// The leaves with the pages of a job's result in the place of the one at `index`, whose job it is; then small leaves are joined
/// with a neighbour. The cache forgets what is replaced, and nothing else.
pub fn installed<A: Allocator + Copy>(
    alloc: A,
    leaves: Vec<Leaf<A>, A>,
    index: usize,
    merge: &FlushResult<A>,
    cache: &mut LeafCache<A>,
) -> Result<Vec<Leaf<A>, A>, AllocError>
    requires { CanPutPages (map leaf_rows leaves.items) index merge.now.job }
    ensures puts { IfOk result (λ fresh. PutsPages (map leaf_rows leaves.items) index
        merge.now.job (map leaf_rows fresh.items)) }
    ensures tiled { IfOk result (λ fresh. LeavesTo top_key (map leaf_rows fresh.items)) }
    ensures cache { IfOk result (λ fresh. Forgets (map leaf_rows leaves.items)
        (map leaf_rows fresh.items) cache.old cache.new) }
    ensures err { OnErr result (Forgets (map leaf_rows leaves.items) (map leaf_rows leaves.items)
        cache.old cache.new) }
{
    let others = leaves[index].installed(alloc, merge)?;
    let target = merge.job.target.leaf_target;
    with_others(alloc, leaves, index, others, target, cache)
}
