//! Messages that are merged into the leaves right below a node.
ghost use Rattle.std.specs.Prelude.{◌≡◌, ◌≤◌, [], map, IfOk, OnErr};
ghost use Rattle.std.specs.Vec.{vec_len, vec_capacity};
ghost use Rattle.stow_leaves.specs.StowMerge.Pins.{pins_in};
ghost use Rattle.stow_leaves.specs.StowLeaf.Intervals.{top_key};
ghost use Rattle.stow_leaves.specs.StowLeaf.LeafRows.{LeavesTo};
ghost use Rattle.stow_leaves.specs.Absorbs.{left_above, CanAbsorb, CanPutPages, Merges, PutsPages, StandsFor};
ghost use Rattle.stow_leaves.specs.AbsorbsAll.{CanAbsorbAll, MergesAll, StandsForAll};
ghost use Rattle.stow_leaves.specs.Forgets.{Forgets};
ghost use Rattle.stow_node.specs.Nodes.{AreLeaves, leaves_of};
ghost use Rattle.stow_node.specs.declared.child.Child.TheVariants as in_child;

use crate::child::Child;
use std::alloc::{AllocError, Allocator};
use stow_leaves::absorbing;
use stow_leaves::stow_leaf::leaf::Leaf;
use stow_leaves::stow_leaf_cache::leaf_cache::LeafCache;
use stow_leaves::stow_merge::flush_result::FlushResult;
use stow_leaves::stow_merge::pins::Pins;
use stow_leaves::stow_message::message_buf::MessageBuf;
use stow_tree_model::tenant_key::TenantKey;

/// The leaves once more: their fences copied, their rows shared.
fn shared<A: Allocator + Copy>(
    alloc: A,
    children: &[Child<A>],
) -> Result<Vec<Leaf<A>, A>, AllocError>
    requires leaves { AreLeaves children.now }
    ensures { IfOk result (λ leaves. map in_child.Leaf leaves.items ≡ children.now) }
{
    let mut leaves = Vec::new(alloc);
    for i in 0..children.len() {
        match &children[i] {
            Child::Leaf(leaf) => leaves.push(leaf.share(alloc)?)?,
            Child::Node(_) => unreachable!(),
        }
    }
    Ok(leaves)
}

/// The leaves as children, in an empty list that has the places.
fn as_children<A: Allocator>(
    leaves: Vec<Leaf<A>, A>,
    mut into: Vec<Child<A>, A>,
) -> Vec<Child<A>, A>
    requires empty { into.items ≡ [] }
    requires places { vec_len leaves ≤ vec_capacity into }
    ensures { result.items ≡ map in_child.Leaf leaves.items }
{
    for leaf in leaves {
        into.push(Child::Leaf(leaf)).unwrap();
    }
    into
}

/// The leaves with all messages of the buffer for the one at `index` merged into it, under pins, and small leaves
/// joined (`stow_leaves::absorbing::merged`). The leaves themselves stay as they are.
pub(crate) fn merged<A: Allocator + Copy>(
    alloc: A,
    children: &[Child<A>],
    index: usize,
    buffer: &MessageBuf<A>,
    pins: &Pins<A>,
    target: u32,
    cache: &mut LeafCache<A>,
) -> Result<Vec<Child<A>, A>, AllocError>
    requires can { CanAbsorb (leaves_of children.now) index buffer.now.messages target }
    requires leaves { AreLeaves children.now }
    ensures leaves { IfOk result (λ fresh. AreLeaves fresh.items) }
    ensures merged { IfOk result (λ fresh. Merges (leaves_of children.now) index
        buffer.now.messages (pins_in pins.now) target (leaves_of fresh.items)
        cache.old cache.new) }
    ensures stands { IfOk result (λ fresh. StandsFor (leaves_of children.now) index
        buffer.now.messages (left_above (leaves_of children.now) index buffer.now.messages)
        (pins_in pins.now) target (leaves_of fresh.items)) }
    ensures cache { IfOk result (λ fresh. Forgets (leaves_of children.now) (leaves_of fresh.items)
        cache.old cache.new) }
    ensures err { OnErr result (Forgets (leaves_of children.now) (leaves_of children.now)
        cache.old cache.new) }
{
    let leaves = shared(alloc, children)?;
    let fresh = absorbing::merged(alloc, leaves, index, buffer, pins, target, cache)?;
    let into = Vec::with_capacity(alloc, fresh.len())?;
    Ok(as_children(fresh, into))
}

/// The leaves with all messages of the buffer for them merged into them, whose keys end at `end`, under pins, and small leaves
/// joined (`stow_leaves::absorbing::all_merged`). The leaves themselves stay as they are.
pub(crate) fn all_merged<A: Allocator + Copy>(
    alloc: A,
    children: &[Child<A>],
    end: TenantKey<'_>,
    buffer: &MessageBuf<A>,
    pins: &Pins<A>,
    target: u32,
    cache: &mut LeafCache<A>,
) -> Result<Vec<Child<A>, A>, AllocError>
    requires can { CanAbsorbAll (leaves_of children.now) end.bytes.now buffer.now.messages target }
    requires leaves { AreLeaves children.now }
    ensures leaves { IfOk result (λ fresh. AreLeaves fresh.items) }
    ensures merged { IfOk result (λ fresh. MergesAll (leaves_of children.now)
        end.entry.bytes.now buffer.now.messages (pins_in pins.now) target
        (leaves_of fresh.items) cache.old cache.new) }
    ensures stands { IfOk result (λ fresh. StandsForAll (leaves_of children.now)
        end.entry.bytes.now buffer.now.messages (pins_in pins.now) target
        (leaves_of fresh.items)) }
    ensures cache { IfOk result (λ fresh. Forgets (leaves_of children.now) (leaves_of fresh.items)
        cache.old cache.new) }
    ensures err { OnErr result (Forgets (leaves_of children.now) (leaves_of children.now)
        cache.old cache.new) }
{
    let leaves = shared(alloc, children)?;
    let fresh = absorbing::all_merged(alloc, leaves, end, buffer, pins, target, cache)?;
    let into = Vec::with_capacity(alloc, fresh.len())?;
    Ok(as_children(fresh, into))
}

/// The leaves with the pages of a job's result in the place of the one at `index`, and small leaves joined
/// (`stow_leaves::absorbing::installed`). The leaves themselves stay as they are.
pub(crate) fn installed<A: Allocator + Copy>(
    alloc: A,
    children: &[Child<A>],
    index: usize,
    merge: &FlushResult<A>,
    cache: &mut LeafCache<A>,
) -> Result<Vec<Child<A>, A>, AllocError>
    requires can { CanPutPages (leaves_of children.now) index merge.now.job }
    requires leaves { AreLeaves children.now }
    ensures leaves { IfOk result (λ fresh. AreLeaves fresh.items) }
    ensures puts { IfOk result (λ fresh. PutsPages (leaves_of children.now) index
        merge.now.job (leaves_of fresh.items)) }
    ensures tiled { IfOk result (λ fresh. LeavesTo top_key (leaves_of fresh.items)) }
    ensures cache { IfOk result (λ fresh. Forgets (leaves_of children.now) (leaves_of fresh.items)
        cache.old cache.new) }
    ensures err { OnErr result (Forgets (leaves_of children.now) (leaves_of children.now)
        cache.old cache.new) }
{
    let leaves = shared(alloc, children)?;
    let fresh = absorbing::installed(alloc, leaves, index, merge, cache)?;
    let into = Vec::with_capacity(alloc, fresh.len())?;
    Ok(as_children(fresh, into))
}
