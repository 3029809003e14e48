//! Room in the root's own buffer.
ghost use Rattle.std.specs.Prelude.{◌≡◌, ◌+◌, ◌≤◌, OnOk, OnErr};
ghost use Rattle.stow_node.specs.StowMerge.Pins.{pins_in};
ghost use Rattle.stow_node.specs.Flushes.{AreShort};
ghost use Rattle.stow_node.specs.StowLeaves.Forgets.{Forgets};
ghost use Rattle.stow_node.specs.Moves.{IsSqueezed};
ghost use Rattle.stow_node.specs.Subtree.{messages_of};
ghost use Rattle.stow_flush.specs.Rooms.{RootStands, BytesFit, FitsSqueezed, FlushesForRoom, MakesRoom};

use std::alloc::{AllocError, Allocator};
use stow_node::node::Node;
use stow_node::stow_leaf_cache::leaf_cache::LeafCache;
use stow_node::stow_merge::pins::Pins;
use stow_node::stow_raw::raw_buf::RawBuf;

/// Flushes until so many bytes fit into the root's own buffer. Where memory is refused, the root means what it did.
fn flush<A: Allocator + Copy>(
    alloc: A,
    root: &mut Node<A>,
    bytes: usize,
    pins: &Pins<A>,
    spare: &mut RawBuf<A>,
    cache: &mut LeafCache<A>,
) -> Result<(), AllocError>
    requires block { root.old.buffer.capacity ≡ root.old.shape.buffer }
    requires few { root.old.width ≤ root.old.shape.fan_out }
    requires shape { 4 ≤ root.old.shape.fan_out }
    requires bytes { bytes ≤ root.old.shape.buffer }
    requires short { AreShort (messages_of root.old) }
    requires spare { root.old.buffer.capacity ≤ spare.old.capacity }
    ensures room { OnOk result (BytesFit bytes root.new) }
    ensures few { root.new.width ≤ root.new.shape.fan_out }
    ensures stands { RootStands (pins_in pins.now) root.old root.new }
    ensures made { OnOk result (FlushesForRoom A bytes (pins_in pins.now) root.old root.new
        cache.old cache.new) }
    ensures cache { Forgets root.old.leaves root.new.leaves cache.old cache.new }
    ensures spare { spare.new.capacity ≡ spare.old.capacity }
{
    while !root.makes_room(bytes, root.shape().ample(bytes), spare) {
        root.step(alloc, pins, spare, cache)?;
    }
    Ok(())
}

/// Makes room for so many bytes in the root's own buffer. Where they fit once dead bytes are dropped, no message moves. Where they don't,
/// messages that newer ones supersede are dropped before any moves. Where memory is refused, the root means what it did.
pub fn make_room<A: Allocator + Copy>(
    alloc: A,
    root: &mut Node<A>,
    bytes: usize,
    pins: &Pins<A>,
    spare: &mut RawBuf<A>,
    cache: &mut LeafCache<A>,
) -> Result<(), AllocError>
    requires block { root.old.buffer.capacity ≡ root.old.shape.buffer }
    requires few { root.old.width ≤ root.old.shape.fan_out }
    requires shape { 4 ≤ root.old.shape.fan_out }
    requires bytes { bytes ≤ root.old.shape.buffer }
    requires short { AreShort (messages_of root.old) }
    requires spare { root.old.buffer.capacity ≤ spare.old.capacity }
    ensures room { OnOk result (BytesFit bytes root.new) }
    ensures few { root.new.width ≤ root.new.shape.fan_out }
    ensures stands { RootStands (pins_in pins.now) root.old root.new }
    ensures made { OnOk result (MakesRoom A bytes (pins_in pins.now) root.old root.new
        cache.old cache.new) }
    ensures unmoved { FitsSqueezed bytes root.old → IsSqueezed root.old root.new }
    ensures cache { Forgets root.old.leaves root.new.leaves cache.old cache.new }
    ensures spare { spare.new.capacity ≡ spare.old.capacity }
{
    if root.makes_room(bytes, bytes, spare) {
        return Ok(());
    }
    root.drop_superseded(alloc, pins);
    flush(alloc, root, bytes, pins, spare, cache)
}
