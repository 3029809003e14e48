//! Where messages stand deepest, and the job of a leaf.
ghost use Rattle.std.specs.Prelude.{◌≡◌, ◌≢◌, ◌↔◌, [], map, None, true, false, IfOk};
ghost use Rattle.stow_leaves.specs.StowLeaf.LeafRows.{leaf_rows};
ghost use Rattle.stow_leaves.specs.StowLeaf.Replacements.{CanReplace};
ghost use Rattle.stow_leaves.specs.StowMerge.Pins.{pins_in};
ghost use Rattle.stow_node.specs.Nodes.{part_of, deepest_of, AreNewer};
ghost use Rattle.stow_node.specs.Plans.{HasLeafTarget, IsDeepestChild, IsLeafJob};
ghost use Rattle.stow_node.specs.Subtree.{lower_height, height_of_some, buffered, deepest_buffer};
ghost use Rattle.stow_tree_model.specs.Merged.{row_message};

use crate::child::Child;
use crate::node::Node;
use crate::pick::Pick;
use crate::shape::Shape;
use std::alloc::{AllocError, Allocator};
use stow_leaves::stow_leaf::leaf::Leaf;
use stow_leaves::stow_merge::flush_job::FlushJob;
use stow_leaves::stow_merge::flush_target::FlushTarget;
use stow_leaves::stow_merge::pins::Pins;
use stow_leaves::stow_message::copying::copied_range;
use stow_leaves::stow_message::message_buf::MessageBuf;
use stow_tree_model::tenant_key::TenantKey;
use stow_tree_model::tenant_key_buf::TenantKeyBuf;

/// The lower one of two heights, where there is one.
fn lower_height(a: Option<u64>, b: Option<u64>) -> Option<u64>
    ensures { result ≡ lower_height a b }
{
    match (a, b) {
        (None, b) => b,
        (Some(a), None) => Some(a),
        (Some(a), Some(b)) => Some(a.min(b)),
    }
}

/// How high a node's own buffer stands, if it holds a message.
fn own_height<A: Allocator>(node: &Node<A>) -> Option<u64>
    ensures { result ≡ height_of_some node.now.height node.now.buffer.messages }
{
    if node.buffer().len() == 0 {
        None
    } else {
        Some(node.height())
    }
}

/// How high the deepest buffer stands that holds a message, of a node and all below it.
#[cycle(deepest)]
fn deepest_buffer<A: Allocator>(node: &Node<A>) -> Option<u64>
    ensures height { result ≡ deepest_buffer node.now }
    ensures none { result ≡ None ↔ buffered node.now ≡ [] }
{
    let children = node.children();
    let mut deepest = None;
    for i in 0..children.len() {
        let below = match &children[i] {
            Child::Leaf(_) => None,
            Child::Node(lower) => deepest_buffer(lower),
        };
        deepest = lower_height(deepest, below);
    }
    lower_height(deepest, own_height(node))
}

/// Whether no buffer of a node and all below it holds a message.
pub(crate) fn is_drained<A: Allocator>(node: &Node<A>) -> bool
    ensures drained { result ≡ true → buffered node.now ≡ [] }
    ensures some { result ≡ false → buffered node.now ≢ [] }
{
    match deepest_buffer(node) {
        None => true,
        Some(_) => false,
    }
}

/// How high the deepest buffer below a node stands that holds a message, in a child and all below it.
fn deepest_of<A: Allocator>(child: &Child<A>) -> Option<u64>
    ensures height { result ≡ deepest_of child.now }
    ensures none { result ≡ None ↔ (part_of child.now).messages ≡ [] }
{
    match child {
        Child::Leaf(_) => None,
        Child::Node(node) => deepest_buffer(node),
    }
}

/// The most bytes that the messages of a buffer at a height take, among those of a node and all below it.
#[cycle(fullest)]
fn fullest_buffer<A: Allocator>(node: &Node<A>, height: u64) -> usize {
    if node.height() == height {
        return node.buffer().live();
    }
    let children = node.children();
    let mut most = 0;
    for i in 0..children.len() {
        let below = match &children[i] {
            Child::Leaf(_) => 0,
            Child::Node(lower) => fullest_buffer(lower, height),
        };
        most = most.max(below);
    }
    most
}

/// The same below a node, in a child and all below it, if a height is given.
fn fullest_of<A: Allocator>(child: &Child<A>, height: Option<u64>) -> usize {
    match (child, height) {
        (Child::Node(node), Some(height)) => fullest_buffer(node, height),
        _ => 0,
    }
}

/// Whether the first height comes before the second one: where it is lower, one that is there than none, or the same where the
/// first is asked for of equals.
fn is_before(a: Option<u64>, b: Option<u64>, of_equals: bool) -> bool
    ensures before { result ≡ true → (lower_height b a ≡ a) × (a ≢ None) }
    ensures not { result ≡ false → lower_height b a ≡ b }
{
    match (a, b) {
        (None, _) => false,
        (Some(_), None) => true,
        (Some(a), Some(b)) => a < b || (a == b && of_equals),
    }
}

/// The place of the child below which the deepest buffer stands that holds a message, if one does: of equals the one to pick.
pub(crate) fn deepest_child<A: Allocator>(children: &[Child<A>], pick: Pick) -> Option<usize>
    ensures { IsDeepestChild children.now result }
{
    let (mut best, mut lowest, mut most) = (0, None, 0);
    for i in 0..children.len() {
        let height = deepest_of(&children[i]);
        let bytes = fullest_of(&children[i], height);
        if is_before(height, lowest, pick.is_first(bytes, most)) {
            best = i;
            lowest = height;
            most = bytes;
        }
    }
    match lowest {
        None => None,
        Some(_) => Some(best),
    }
}

/// The job of a leaf with all messages that a buffer holds for it. Its keys end at `high`.
pub(crate) fn job_for<A: Allocator + Copy>(
    alloc: A,
    leaf: &Leaf<A>,
    high: TenantKey<'_>,
    buffer: &MessageBuf<A>,
    pins: &Pins<A>,
    shape: Shape,
) -> Result<FlushJob<A>, AllocError>
    requires can { CanReplace (leaf_rows leaf.now) high.bytes.now buffer.now.messages
        (pins_in pins.now) shape.leaf }
    requires newer { AreNewer buffer.now.messages (map row_message leaf.now.rows) }
    requires block { buffer.now.capacity ≡ shape.buffer }
    requires target { HasLeafTarget shape }
    ensures { IfOk result (IsLeafJob (leaf_rows leaf.now) high.entry.bytes.now
        buffer.now.messages (pins_in pins.now) shape.leaf) }
{
    let low = leaf.low.as_key();
    let batch = copied_range(alloc, buffer, low, high)?;
    let target = FlushTarget {
        low_fence: TenantKeyBuf::from_key(alloc, low)?,
        leaf_target: shape.leaf,
    };
    Ok(FlushJob::new(leaf.rows.share()?, batch, pins.copied(alloc)?, target))
}
