//! What stands below a node.
ghost use Rattle.std.specs.Prelude.{◌≡◌, ◌<◌, ◌≤◌, IsTrue, length, true};
ghost use Rattle.std.specs.Ordering.{is_lt};
ghost use Rattle.stow_tree_model.specs.StowBytes.Bytes.{bytes_cmp};
ghost use Rattle.stow_node.specs.Nodes.{part_of, parts_of};
ghost use Rattle.stow_node.specs.Moves.{AreReallocated, IsReallocatedChild};
ghost use Rattle.stow_node.specs.Parts.{low_or, high_of, BeginsAbove, BeginsUpTo, IsFor, LiesBetween};
ghost use Rattle.stow_leaves.specs.StowLeaf.Intervals.{top_key, spans};

use crate::node::Node;
use std::alloc::Allocator;
use std::cmp::Ordering;
use stow_leaves::stow_leaf::ends::top_key;
use stow_leaves::stow_leaf::leaf::Leaf;
use stow_tree_model::stow_bytes::compare::compare;
use stow_tree_model::tenant_key::TenantKey;

/// What stands below a node: a leaf, or a node one level lower.
#[cycle(node)]
#[derive(Drop)]
pub enum Child<A: Allocator> {
    Leaf(Leaf<A>),
    Node(Node<A>),
}

impl<A: Allocator> Child<A> {
    /// The lowest key that it may hold.
    pub fn low(&self) -> TenantKey<'_>
        ensures { result.bytes.now ≡ (part_of self.now).low }
    {
        match self {
            Child::Leaf(leaf) => leaf.low.as_key(),
            Child::Node(node) => node.low(),
        }
    }
}

impl<A: Allocator + Copy> Child<A> {
    /// Gives its block back, where it is a node that holds no message (`Node::close`).
    fn close(&mut self, alloc: A)
        ensures { IsReallocatedChild self.old self.new }
    {
        if let Child::Node(node) = self {
            node.close(alloc);
        }
    }
}

/// Each node among them that holds no message gives its block back (`Node::close`).
pub(crate) fn close_all<A: Allocator + Copy>(alloc: A, children: &mut [Child<A>])
    ensures { AreReallocated children.old children.new }
{
    for i in 0..children.len() {
        children[i].close(alloc);
    }
}

/// Whether the key stands below a fence.
#[inline(always)]
fn is_below(key: TenantKey<'_>, fence: TenantKey<'_>) -> bool
    ensures { result ≡ is_lt (bytes_cmp key.entry.bytes.now fence.entry.bytes.now) }
{
    match compare(key.bytes, fence.bytes) {
        Ordering::Less => true,
        Ordering::Equal | Ordering::Greater => false,
    }
}

/// Whether the child for the key stands at a place or behind it.
#[inline(always)]
fn is_from<A: Allocator>(children: &[Child<A>], key: TenantKey<'_>, at: usize) -> bool
    requires there { at < length children.now }
    requires within { spans (low_or top_key (parts_of children.now)) top_key key.bytes.now ≡ true }
    ensures { IsTrue result → BeginsUpTo (parts_of children.now) key.entry.bytes.now at }
{
    if at == 0 {
        return true;
    }
    !is_below(key, children[at].low())
}

/// Whether the child for the key stands before a place.
#[inline(always)]
fn is_before<A: Allocator>(children: &[Child<A>], key: TenantKey<'_>, end: usize) -> bool
    requires { end ≤ length children.now }
    ensures { IsTrue result → BeginsAbove (parts_of children.now) key.entry.bytes.now end }
{
    if end == children.len() {
        return true;
    }
    is_below(key, children[end].low())
}

/// The places from the first one on and before the second, if the child for the key stands there, or else all.
#[inline(always)]
fn narrowed<A: Allocator>(
    children: &[Child<A>],
    key: TenantKey<'_>,
    span: (usize, usize),
) -> (usize, usize)
    requires some { 0 < length children.now }
    requires within { spans (low_or top_key (parts_of children.now)) top_key key.bytes.now ≡ true }
    ensures { LiesBetween (parts_of children.now) key.entry.bytes.now result.0 result.1 }
{
    let (from, to) = (span.0, span.1.min(children.len()));
    if from < to && is_from(children, key, from) && is_before(children, key, to) {
        (from, to)
    } else {
        (0, children.len())
    }
}

/// The place of the child for a key: the last one whose fence is at most the key. It is found by few looks where it is from the first place
/// of the span on and before the second.
#[inline(always)]
pub fn child_within<A: Allocator>(
    children: &[Child<A>],
    key: TenantKey<'_>,
    span: (usize, usize),
) -> usize
    requires some { 0 < length children.now }
    requires within { spans (low_or top_key (parts_of children.now)) top_key key.bytes.now ≡ true }
    ensures { IsFor (parts_of children.now) key.entry.bytes.now result }
{
    let (mut at, mut end) = narrowed(children, key, span);
    while end - at > 1 {
        let middle = at + (end - at) / 2;
        if is_below(key, children[middle].low()) {
            end = middle;
        } else {
            at = middle;
        }
    }
    at
}

/// The place of the child for a key.
pub fn child_for<A: Allocator>(children: &[Child<A>], key: TenantKey<'_>) -> usize
    requires some { 0 < length children.now }
    requires within { spans (low_or top_key (parts_of children.now)) top_key key.bytes.now ≡ true }
    ensures { IsFor (parts_of children.now) key.entry.bytes.now result }
{
    child_within(children, key, (0, children.len()))
}

/// Where the keys of the child at `index` end.
pub fn high_after<A: Allocator>(children: &[Child<A>], index: usize) -> TenantKey<'_>
    requires { index < length children.now }
    ensures { result.bytes.now ≡ high_of (parts_of children.now) index }
{
    match children.get(index + 1) {
        Some(child) => child.low(),
        None => top_key(),
    }
}

/// Where the keys of these children begin, or the upper end of all where there are none.
pub(crate) fn first_low<A: Allocator>(children: &[Child<A>]) -> TenantKey<'_>
    ensures { result.bytes.now ≡ low_or top_key (parts_of children.now) }
{
    match children.first() {
        Some(child) => child.low(),
        None => top_key(),
    }
}
