//! Messages of a node right above leaves that are merged into them.
ghost use Rattle.std.specs.Prelude.{◌≡◌, ◌↔◌, ◌+◌, ◌-◌, ◌<◌, ◌≤◌, IsTrue, length, IfOk, OnErr};
ghost use Rattle.stow_leaves.specs.Forgets.{Forgets};
ghost use Rattle.stow_leaves.specs.StowMerge.Pins.{pins_in};
ghost use Rattle.stow_leaves.specs.StowMessage.MessageBuf.{without_range};
ghost use Rattle.stow_leaves.specs.StowMessage.Rising.{in_range};
ghost use Rattle.stow_node.specs.Flushes.{AreShort};
ghost use Rattle.stow_node.specs.Moves.{accepted, IsLaden};
ghost use Rattle.stow_leaves.specs.StowLeaf.Intervals.{top_key};
ghost use Rattle.stow_node.specs.Regroups.{StepsAsOne, ForgetsCame};
ghost use Rattle.stow_node.specs.Rooms.{HasRoom};
ghost use Rattle.stow_node.specs.Subtree.{messages_of};
ghost use Rattle.stow_node.specs.TakesDown.{CanMergeFrom};
ghost use Rattle.stow_node.specs.Ways.{Goes, MergesInto};

use crate::absorbing::{all_merged, merged};
use crate::child::high_after;
use crate::counting::room_for;
use crate::moving::{are_for_last, are_within, heaviest};
use crate::node::Node;
use crate::room::Room;
use std::alloc::{AllocError, Allocator};
use stow_leaves::stow_leaf::ends::top_key;
use stow_leaves::stow_leaf_cache::leaf_cache::LeafCache;
use stow_leaves::stow_merge::pins::Pins;
use stow_leaves::stow_message::message_buf::MessageBuf;
use stow_tree_model::tenant_key::TenantKey;

impl<A: Allocator + Copy> Node<A> {
    /// Merges all messages for a leaf into it, of a node right above leaves: the leaf for which most bytes are buffered. Then
    /// small leaves are joined with a neighbour. Where memory is refused nothing has changed.
    pub(crate) fn merge_leaf(
        &mut self,
        alloc: A,
        pins: &Pins<A>,
        cache: &mut LeafCache<A>,
        above: &[usize],
    ) -> Result<Room<A>, AllocError>
        requires level { self.old.height ≡ 1 }
        requires some { 0 < length self.old.buffer.messages }
        requires fan_out { 1 ≤ self.old.shape.fan_out }
        requires short { AreShort (messages_of self.old) }
        ensures ok { IfOk result (λ room.
            StepsAsOne (pins_in pins.now) self.old self.new room.came.items) }
        ensures goes { IfOk result (λ room.
            Goes self.old.height (pins_in pins.now) self.old self.new
            room.came.items cache.old cache.new) }
        ensures room { IfOk result (HasRoom self.old.shape above.now) }
        ensures err { OnErr result (self.new ≡ self.old) }
        ensures cache { IfOk result (λ room. ForgetsCame self.old self.new room.came.items
            cache.old cache.new) }
        ensures kept { OnErr result (Forgets self.old.leaves self.old.leaves cache.old cache.new) }
    {
        let index = heaviest(self.children.as_slice(), &self.buffer);
        let target = self.shape.leaf;
        let fresh = merged(
            alloc,
            self.children.as_slice(),
            index,
            &self.buffer,
            pins,
            target,
            cache,
        )?;
        let mut room = room_for(alloc, self.shape, fresh.len(), above)?;
        let full = self.children.len() - index == 1;
        let high = high_after(self.children.as_slice(), index);
        self.buffer.drop_range(self.children[index].low(), high);
        self.children = fresh;
        self.settle(alloc, &mut room, full);
        Ok(room)
    }

    /// Merges all its messages into its leaves, of a node right above leaves. Then small leaves are joined with a neighbour.
    /// Where memory is refused nothing has changed.
    pub(crate) fn merge_all(
        &mut self,
        alloc: A,
        pins: &Pins<A>,
        cache: &mut LeafCache<A>,
        above: &[usize],
    ) -> Result<Room<A>, AllocError>
        requires level { self.old.height ≡ 1 }
        requires some { 0 < length self.old.buffer.messages }
        requires fan_out { 1 ≤ self.old.shape.fan_out }
        requires short { AreShort (messages_of self.old) }
        ensures ok { IfOk result (λ room.
            StepsAsOne (pins_in pins.now) self.old self.new room.came.items) }
        ensures merges { IfOk result (λ room. MergesInto top_key self.old.buffer.messages
            (pins_in pins.now) self.old self.new room.came.items cache.old cache.new) }
        ensures room { IfOk result (HasRoom self.old.shape above.now) }
        ensures err { OnErr result (self.new ≡ self.old) }
        ensures cache { IfOk result (λ room. ForgetsCame self.old self.new room.came.items
            cache.old cache.new) }
        ensures kept { OnErr result (Forgets self.old.leaves self.old.leaves cache.old cache.new) }
    {
        let children = self.children.as_slice();
        let full = are_for_last(children, &self.buffer, top_key());
        let target = self.shape.leaf;
        let fresh = all_merged(
            alloc,
            children,
            top_key(),
            &self.buffer,
            pins,
            target,
            cache,
        )?;
        let mut room = room_for(alloc, self.shape, fresh.len(), above)?;
        self.buffer.reset();
        self.children = fresh;
        self.settle(alloc, &mut room, full);
        Ok(room)
    }

    /// Merges the messages for it, up to where its keys end, out of the buffer above it straight into its leaves, of a node right
    /// above leaves that has no message: as if it had taken them first, but nothing is written to its own block. Where memory
    /// is refused nothing has changed.
    pub(crate) fn merge_from(
        &mut self,
        alloc: A,
        from: &mut MessageBuf<A>,
        end: TenantKey<'_>,
        pins: &Pins<A>,
        cache: &mut LeafCache<A>,
        above: &[usize],
    ) -> Result<Room<A>, AllocError>
        requires { CanMergeFrom from.old.messages end.bytes.now self.old }
        ensures ok { IfOk result (λ room. StepsAsOne (pins_in pins.now)
            (accepted (in_range self.old.low end.entry.bytes.now from.old.messages) self.old)
            self.new room.came.items) }
        ensures left { IfOk result (λ room. from.new
            ≡ without_range self.old.low end.entry.bytes.now from.old) }
        ensures merges { IfOk result (λ room. MergesInto end.entry.bytes.now from.old.messages
            (pins_in pins.now) self.old self.new room.came.items cache.old cache.new) }
        ensures room { IfOk result (HasRoom self.old.shape above.now) }
        ensures err { OnErr result (self.new ≡ self.old) }
        ensures unmoved { OnErr result (from.new ≡ from.old) }
        ensures cache { IfOk result (λ room. ForgetsCame self.old self.new room.came.items
            cache.old cache.new) }
        ensures kept { OnErr result (Forgets self.old.leaves self.old.leaves cache.old cache.new) }
    {
        let _known = from.len();
        let children = self.children.as_slice();
        let full = are_for_last(children, from, end);
        let target = self.shape.leaf;
        let fresh = all_merged(alloc, children, end, from, pins, target, cache)?;
        let mut room = room_for(alloc, self.shape, fresh.len(), above)?;
        from.drop_range(self.low.as_key(), end);
        self.buffer.reset();
        self.children = fresh;
        self.settle(alloc, &mut room, full);
        Ok(room)
    }

    /// Whether it stands right above leaves, and with so many bytes more its buffer holds an eighth of their pages' bytes or
    /// more, dead bytes among what it holds.
    pub(crate) fn is_laden(&self, bytes: usize) -> bool
        requires { self.now.buffer.used + bytes ≤ self.now.buffer.capacity }
        ensures { IsTrue result ↔ IsLaden bytes self.now }
    {
        let _known = self.shape();
        let held = self.buffer.used() + bytes;
        self.height == 1 && are_within(self.children.as_slice(), 8 * held)
    }
}
