//! Which child most bytes are buffered for, and the way of its messages.
ghost use Rattle.std.specs.Prelude.{◌≡◌, ◌↔◌, ◌<◌, ◌≤◌, length, slice_index_or, IsTrue, IfOk, IfSome, OnErr, None};
ghost use Rattle.stow_leaves.specs.StowMessage.Rising.{in_range, AreNew};
ghost use Rattle.stow_leaves.specs.Forgets.{Forgets};
ghost use Rattle.stow_leaves.specs.StowMerge.Pins.{pins_in};
ghost use Rattle.stow_node.specs.Moves.{bytes_for, page_bytes, IsHeaviest, CanHandDown, HandsDown};
ghost use Rattle.stow_node.specs.Nodes.{leaves_of, parts_of, AreLeaves};
ghost use Rattle.stow_node.specs.Parts.{Part, high_of};
ghost use Rattle.stow_node.specs.TakesDown.{CanTakeDown, CanUnlade, MaySkip, MayHandDown, MergesDown, TakesDown, Unlades};

use crate::child::{Child, first_low, high_after};
use crate::room::Room;
use std::alloc::{AllocError, Allocator};
use stow_leaves::stow_leaf_cache::leaf_cache::LeafCache;
use stow_leaves::stow_merge::pins::Pins;
use stow_leaves::stow_message::message_buf::MessageBuf;
use stow_tree_model::tenant_key::TenantKey;

/// The bytes that the messages for a child take in the buffer above it, their slots among them.
pub(crate) fn bytes_for<A: Allocator>(
    children: &[Child<A>],
    index: usize,
    buffer: &MessageBuf<A>,
) -> usize
    requires { index < length children.now }
    ensures { (d : Part) → result ≡ bytes_for (parts_of children.now) buffer.now index d }
{
    buffer.range_bytes(children[index].low(), high_after(children, index))
}

/// The same, if they are more than so many.
fn bytes_above<A: Allocator>(
    children: &[Child<A>],
    index: usize,
    buffer: &MessageBuf<A>,
    bytes: usize,
) -> Option<usize>
    requires { index < length children.now }
    ensures more { (d : Part) → IfSome result (λ found. (bytes < found)
        × (found ≡ bytes_for (parts_of children.now) buffer.now index d)) }
    ensures none { (d : Part) → result ≡ None
        → bytes_for (parts_of children.now) buffer.now index d ≤ bytes }
{
    buffer.range_bytes_above(children[index].low(), high_after(children, index), bytes)
}

/// The child for which most bytes are buffered, the leftmost of equals.
pub(crate) fn heaviest<A: Allocator>(children: &[Child<A>], buffer: &MessageBuf<A>) -> usize
    requires { 0 < length children.now }
    ensures { IsHeaviest (parts_of children.now) buffer.now result }
{
    let (mut best, mut most) = (0, bytes_for(children, 0, buffer));
    for index in 1..children.len() {
        if let Some(bytes) = bytes_above(children, index, buffer, most) {
            best = index;
            most = bytes;
        }
    }
    best
}

/// Whether the buffer holds none of the batch's messages of a child's keys.
pub(crate) fn is_apart<A: Allocator>(
    children: &[Child<A>],
    index: usize,
    buffer: &MessageBuf<A>,
    batch: &MessageBuf<A>,
) -> bool
    requires { index < length children.now }
    ensures { (d : Part) → IsTrue result → AreNew (in_range
        (slice_index_or (parts_of children.now) index d).low
        (high_of (parts_of children.now) index) batch.now.messages) buffer.now.messages }
{
    buffer.are_new(&batch.in_range(children[index].low(), high_after(children, index)))
}

/// Moves the messages for a child, a node, into its buffer.
pub(crate) fn hand_down<A: Allocator>(
    children: &mut [Child<A>],
    index: usize,
    buffer: &mut MessageBuf<A>,
)
    requires { CanHandDown children.old index buffer.old }
    ensures { HandsDown children.old index buffer.old children.new buffer.new }
{
    let (front, after) = children.split_at_mut(index + 1);
    let to = first_low(after);
    let (_, child) = front.split_at_mut(index);
    if let Child::Node(node) = &mut child[0] {
        node.accept(buffer, to);
    }
}

/// Whether the pages of leaves have at most so many bytes.
pub(crate) fn are_within<A: Allocator>(children: &[Child<A>], mut bytes: usize) -> bool
    requires { AreLeaves children.now }
    ensures { IsTrue result ↔ page_bytes (leaves_of children.now) ≤ bytes }
{
    for i in 0..children.len() {
        let page = match &children[i] {
            Child::Leaf(leaf) => leaf.rows.page_len(),
            Child::Node(_) => unreachable!(),
        };
        if page > bytes {
            return false;
        }
        bytes -= page;
    }
    true
}

/// Whether of the messages for leaves, whose keys end at `end`, those for the last one take more bytes than the others.
pub(crate) fn are_for_last<A: Allocator>(
    children: &[Child<A>],
    buffer: &MessageBuf<A>,
    end: TenantKey<'_>,
) -> bool
    requires { 0 < length children.now }
{
    let last = children[children.len() - 1].low();
    buffer.range_bytes(children[0].low(), last) < buffer.range_bytes(last, end)
}

/// Merges the messages for a child, a node, straight into its leaves (`Node::merge_from`), where it has no message and would be
/// laden with them. They take so many bytes. Where memory is refused nothing has changed.
fn merge_down<A: Allocator + Copy>(
    alloc: A,
    children: &mut [Child<A>],
    index: usize,
    buffer: &mut MessageBuf<A>,
    bytes: usize,
    pins: &Pins<A>,
    cache: &mut LeafCache<A>,
    above: &[usize],
) -> Result<Option<Room<A>>, AllocError>
    requires can { CanTakeDown children.old index buffer.old }
    requires bytes { (d : Part) → bytes ≡ bytes_for (parts_of children.old) buffer.old index d }
    ensures merges { IfOk result (λ room. MaySkip (MergesDown (pins_in pins.now) children.old index
        buffer.old above.now) room children.old children.new buffer.old buffer.new
        cache.old cache.new) }
    ensures err { OnErr result ((children.new ≡ children.old) × (buffer.new ≡ buffer.old)) }
    ensures kept { OnErr result (Forgets (leaves_of children.old) (leaves_of children.old)
        cache.old cache.new) }
{
    let (front, after) = children.split_at_mut(index + 1);
    let end = first_low(after);
    let (_, child) = front.split_at_mut(index);
    match &mut child[0] {
        Child::Leaf(_) => unreachable!(),
        Child::Node(node) => {
            if node.buffer().len() > 0 || !node.is_laden(bytes) {
                return Ok(None);
            }
            Ok(Some(node.merge_from(alloc, buffer, end, pins, cache, above)?))
        }
    }
}

/// Where the child at `index`, a node, is laden, it merges all its messages into its leaves (`Node::merge_all`). Where memory is
/// refused nothing has changed.
fn unlade<A: Allocator + Copy>(
    alloc: A,
    children: &mut [Child<A>],
    index: usize,
    pins: &Pins<A>,
    cache: &mut LeafCache<A>,
    above: &[usize],
) -> Result<Option<Room<A>>, AllocError>
    requires { CanUnlade children.old index }
    ensures unlades { IfOk result (λ room. Unlades (pins_in pins.now) children.old index above.now
        room children.new cache.old cache.new) }
    ensures err { OnErr result (children.new ≡ children.old) }
    ensures kept { OnErr result (Forgets (leaves_of children.old) (leaves_of children.old)
        cache.old cache.new) }
{
    let (_, rest) = children.split_at_mut(index);
    match &mut rest[0] {
        Child::Leaf(_) => unreachable!(),
        Child::Node(node) => {
            let _known = node.buffer().used();
            if !node.is_laden(0) {
                return Ok(None);
            }
            Ok(Some(node.merge_all(alloc, pins, cache, above)?))
        }
    }
}

/// Moves the messages for a child, a node, into its buffer; where it is laden then, it merges all that it has into its leaves,
/// straight from the buffer above it where it had none before. They take so many bytes. There are the nodes that are to stand behind it, if it
/// merged. Where memory is refused messages may have moved into its buffer, and no more.
pub(crate) fn take_down<A: Allocator + Copy>(
    alloc: A,
    children: &mut [Child<A>],
    index: usize,
    buffer: &mut MessageBuf<A>,
    bytes: usize,
    pins: &Pins<A>,
    cache: &mut LeafCache<A>,
    above: &[usize],
) -> Result<Option<Room<A>>, AllocError>
    requires can { CanTakeDown children.old index buffer.old }
    requires bytes { (d : Part) → bytes ≡ bytes_for (parts_of children.old) buffer.old index d }
    ensures takes { IfOk result (λ room. TakesDown (pins_in pins.now) children.old index buffer.old
        above.now room children.new buffer.new cache.old cache.new) }
    ensures err { OnErr result (MayHandDown children.old index buffer.old
        children.new buffer.new) }
    ensures kept { OnErr result (Forgets (leaves_of children.old) (leaves_of children.old)
        cache.old cache.new) }
{
    let straight = merge_down(alloc, children, index, buffer, bytes, pins, cache, above)?;
    if let Some(room) = straight {
        return Ok(Some(room));
    }
    hand_down(children, index, buffer);
    unlade(alloc, children, index, pins, cache, above)
}
