//! Whether a job's result can be installed, and how it is.
ghost use Rattle.std.specs.Prelude.{◌≡◌, ◌↔◌, true, IsTrue, ◌≢◌, ◌+◌, ◌-◌, ◌<◌, ◌≤◌, [], ◌∷◌, length, IfOk, IfErr, OnOk, OnErr};
ghost use Rattle.stow_leaves.specs.StowLeaf.Intervals.{top_key, spans, NoneOutside};
ghost use Rattle.stow_leaves.specs.StowMerge.Pins.{pins_in};
ghost use Rattle.stow_node.specs.Installs.{CanInstall, IsAsPlanned, IsLeafOf, AreGone, BatchIsGone, CanComeIn, CoversAll};
ghost use Rattle.stow_tree_model.specs.Value.{bytes_at};
ghost use Rattle.stow_tree_model.specs.Version.{version_of};
ghost use Rattle.stow_leaves.specs.Forgets.{Forgets};
ghost use Rattle.stow_tree_model.specs.Agreement.{TenantPins};
ghost use Rattle.stow_node.specs.Eases.{Eases};
ghost use Rattle.stow_node.specs.Flushes.{KeepsRoot};
ghost use Rattle.stow_node.specs.Nodes.{nearest_in};
ghost use Rattle.stow_node.specs.Regroups.{StepsAsOne, ForgetsCame};
ghost use Rattle.stow_node.specs.Rooms.{HasRoom};
ghost use Rattle.stow_node.specs.declared.child.Child.TheVariants as in_child;
ghost use Rattle.stow_node.specs.declared.installed.Installed.TheVariants as installed;

use crate::absorbing::installed;
use crate::child::{Child, child_for, high_after};
use crate::coming::take_in;
use crate::counting::room_for;
use crate::installed::Installed;
use crate::moving::{bytes_for, hand_down, heaviest, is_apart};
use crate::node::{MOST_HEIGHT, Node};
use crate::room::Room;
use std::alloc::{AllocError, Allocator};
use stow_leaves::stow_leaf::ends::top_key;
use stow_leaves::stow_leaf::leaf::Leaf;
use stow_leaves::stow_leaf_cache::leaf_cache::LeafCache;
use stow_leaves::stow_merge::flush_job::FlushJob;
use stow_leaves::stow_merge::flush_result::FlushResult;
use stow_leaves::stow_merge::pins::Pins;
use stow_leaves::stow_message::message_buf::MessageBuf;
use stow_leaves::stow_page::rows::Rows;
use stow_leaves::stow_raw::raw_buf::RawBuf;
use stow_tree_model::tenant_key::TenantKey;
use stow_tree_model::version::Version;

/// Whether two values, or none, are one.
fn is_same_value(a: Option<&[u8]>, b: Option<&[u8]>) -> bool
    ensures { IsTrue result ↔ bytes_at a.entry ≡ bytes_at b.entry }
{
    match (a, b) {
        (None, None) => true,
        (Some(a), Some(b)) => a == b,
        _ => false,
    }
}

/// Whether two versions are one.
fn is_same_version(a: Version<'_>, b: Version<'_>) -> bool
    ensures { IsTrue result ↔ version_of a.entry ≡ version_of b.entry }
{
    a.key.bytes == b.key.bytes && a.number == b.number && is_same_value(a.value, b.value)
}

/// Whether two leaves' rows are the same.
fn are_same<A: Allocator>(a: &Rows<A>, b: &Rows<A>) -> bool
    ensures { IsTrue result ↔ a.now ≡ b.now }
{
    if a.len() != b.len() {
        return false;
    }
    for i in 0..a.len() {
        if !is_same_version(a.get(i), b.get(i)) {
            return false;
        }
    }
    true
}

/// Whether all messages of the batch are of keys from `low` on and below `high`.
fn is_within<A: Allocator>(batch: &MessageBuf<A>, low: TenantKey<'_>, high: TenantKey<'_>) -> bool
    ensures { IsTrue result
        ↔ NoneOutside low.entry.bytes.now high.entry.bytes.now batch.now.messages }
{
    batch.in_range(low, high).len() == batch.len()
}

/// Whether the leaf has the job's fence and its page.
fn is_leaf_of<A: Allocator + Copy>(leaf: &Leaf<A>, job: &FlushJob<A>) -> bool
    ensures { IsTrue result ↔ IsLeafOf leaf.now job.now }
{
    leaf.low.as_key().bytes == job.target.low_fence.as_key().bytes
        && are_same(&leaf.rows, &job.page)
}

/// Whether the leaf, right below the node, is the job's as it was, and the node has the batch as its oldest messages.
fn is_as_planned<A: Allocator + Copy>(
    node: &Node<A>,
    leaf: &Leaf<A>,
    job: &FlushJob<A>,
    pins: &Pins<A>,
) -> bool
    ensures { IsTrue result ↔ IsAsPlanned leaf.now node.now job.now (pins_in pins.now) }
{
    is_leaf_of(leaf, job)
        && job.target.leaf_target == node.shape().leaf
        && node.buffer().holds_oldest(&job.batch)
        && job.covers(pins)
}

/// Whether the job's leaf is there as it was, right below a node that can take the batch out; of a node that may hold the
/// leaf's fence.
#[cycle(spot)]
fn has_spot<A: Allocator + Copy>(node: &Node<A>, job: &FlushJob<A>, pins: &Pins<A>) -> bool
    requires { spans node.now.low top_key job.now.target.low_fence ≡ true }
    ensures { IsTrue result ↔ CanInstall node.now job.now (pins_in pins.now) }
{
    let children = node.children();
    let low = job.target.low_fence.as_key();
    let index = child_for(children, low);
    if !is_within(&job.batch, low, high_after(children, index)) {
        return false;
    }
    match &children[index] {
        Child::Node(lower) => has_spot(lower, job, pins),
        Child::Leaf(leaf) => is_as_planned(node, leaf, job, pins),
    }
}

/// Whether the node may hold messages of the key.
fn may_hold<A: Allocator>(node: &Node<A>, key: TenantKey<'_>) -> bool
    ensures { result ≡ spans node.now.low top_key key.entry.bytes.now }
{
    key.bytes.cmp(node.low().bytes).is_ge() && key.bytes.cmp(top_key().bytes).is_lt()
}

/// Whether none of the causes is there for which the job's result is stale.
pub(crate) fn can_install<A: Allocator + Copy>(
    node: &Node<A>,
    job: &FlushJob<A>,
    pins: &Pins<A>,
) -> bool
    ensures { IsTrue result ↔ CanInstall node.now job.now (pins_in pins.now) }
{
    let _known = node.shape();
    may_hold(node, job.target.low_fence.as_key()) && has_spot(node, job, pins)
}

impl<A: Allocator + Copy> Node<A> {
    /// Puts the pages of a job's result in its leaf's place, of a node right above leaves, and takes the job's batch out of its
    /// own buffer. Where memory is refused nothing has changed.
    fn install_leaf(
        &mut self,
        alloc: A,
        merge: &FlushResult<A>,
        cache: &mut LeafCache<A>,
        above: &[usize],
    ) -> Result<Room<A>, AllocError>
        requires level { self.old.height ≡ 1 }
        requires some { merge.now.job.batch.messages ≢ [] }
        requires fan_out { 1 ≤ self.old.shape.fan_out }
        requires can { CanComeIn self.old merge.now.job }
        ensures ok { IfOk result (λ room. (pins : TenantPins) → CoversAll merge.now.job pins
            → StepsAsOne pins self.old self.new room.came.items) }
        ensures gone { IfOk result (λ room. AreGone merge.now.job.batch.messages
            (nearest_in (in_child.Node self.new ∷ room.came.items))) }
        ensures room { IfOk result (HasRoom self.old.shape above.now) }
        ensures err { OnErr result (self.new ≡ self.old) }
        ensures cache { IfOk result (λ room. ForgetsCame self.old self.new room.came.items
            cache.old cache.new) }
        ensures kept { OnErr result (Forgets self.old.leaves self.old.leaves cache.old cache.new) }
    {
        let _known = merge.job.batch.len();
        let fence = merge.job.target.low_fence.as_key();
        let index = child_for(self.children.as_slice(), fence);
        let fresh = installed(alloc, self.children.as_slice(), index, merge, cache)?;
        let mut room = room_for(alloc, self.shape, fresh.len(), above)?;
        let full = self.children.len() - index == 1;
        let _taken = self.buffer.take_out(&merge.job.batch);
        self.children = fresh;
        self.settle(alloc, &mut room, full);
        Ok(room)
    }

    /// Puts the pages of a job's result in its leaf's place, and takes the job's batch out of the buffer right above it. The
    /// nodes that are to stand behind this one come with the room for more above it, where nodes of the widths in `above`
    /// stand. Where memory is refused nothing has changed.
    fn install_below(
        &mut self,
        alloc: A,
        merge: &FlushResult<A>,
        cache: &mut LeafCache<A>,
        above: &mut Vec<usize, A>,
    ) -> Result<Room<A>, AllocError>
        requires some { merge.now.job.batch.messages ≢ [] }
        requires few { self.old.width ≤ self.old.shape.fan_out }
        requires fan_out { 4 ≤ self.old.shape.fan_out }
        requires can { CanComeIn self.old merge.now.job }
        ensures ok { IfOk result (λ room. (pins : TenantPins) → CoversAll merge.now.job pins
            → StepsAsOne pins self.old self.new room.came.items) }
        ensures gone { IfOk result (λ room. AreGone merge.now.job.batch.messages
            (nearest_in (in_child.Node self.new ∷ room.came.items))) }
        ensures room { IfOk result (HasRoom self.old.shape above.old.items) }
        ensures err { OnErr result (self.new ≡ self.old) }
        ensures cache { IfOk result (λ room. ForgetsCame self.old self.new room.came.items
            cache.old cache.new) }
        ensures kept { OnErr result (Forgets self.old.leaves self.old.leaves cache.old cache.new) }
    {
        if self.height == 1 {
            return self.install_leaf(alloc, merge, cache, above.as_slice());
        }
        let fence = merge.job.target.low_fence.as_key();
        let index = child_for(self.children.as_slice(), fence);
        let full = self.children.len() - index == 1;
        above.insert(0, self.children.len())?;
        match &mut self.children[index] {
            Child::Leaf(_) => unreachable!(),
            Child::Node(node) => {
                let mut room = node.install_below(alloc, merge, cache, above)?;
                take_in(&mut self.children, index, &mut room);
                self.settle(alloc, &mut room, full);
                Ok(room)
            }
        }
    }

    /// Puts the pages of a job's result in its leaf's place, of a root (`install_below`). Where nodes come behind it, it becomes
    /// higher. A job of no message leaves all as it is. Where memory is refused nothing has changed.
    fn install_result(
        &mut self,
        alloc: A,
        merge: &FlushResult<A>,
        cache: &mut LeafCache<A>,
    ) -> Result<(), AllocError>
        requires block { self.old.buffer.capacity ≡ self.old.shape.buffer }
        requires few { self.old.width ≤ self.old.shape.fan_out }
        requires fan_out { 4 ≤ self.old.shape.fan_out }
        requires can { CanComeIn self.old merge.now.job }
        ensures ok { OnOk result ((pins : TenantPins) → CoversAll merge.now.job pins
            → KeepsRoot pins self.old self.new) }
        ensures gone { OnOk result (BatchIsGone merge.now.job.batch.messages self.new) }
        ensures err { OnErr result (self.new ≡ self.old) }
        ensures cache { Forgets self.old.leaves self.new.leaves cache.old cache.new }
    {
        let _known = self.shape();
        if self.height() > MOST_HEIGHT {
            return Err(AllocError);
        }
        if merge.job.batch.len() == 0 {
            return Ok(());
        }
        let mut above = Vec::new(alloc);
        let mut room = self.install_below(alloc, merge, cache, &mut above)?;
        while !room.came.is_empty() {
            self.rise(alloc, &mut room);
        }
        Ok(())
    }

    /// One move of its messages towards the leaves that merges nothing: those for the child for which most bytes are buffered
    /// move into that child's buffer. Where they don't fit there, dead bytes dropped, the move is that child's own; right
    /// above leaves nothing moves, nor does what holds a message of the batch, nor anything where a block is refused.
    fn ease_below(&mut self, alloc: A, batch: &MessageBuf<A>, spare: &mut RawBuf<A>)
        requires some { 0 < length self.old.buffer.messages }
        requires spare { self.old.shape.buffer ≤ spare.old.capacity }
        ensures eases { Eases batch.now.messages self.old self.new }
        ensures spare { spare.new.capacity ≡ spare.old.capacity }
    {
        let _known = self.buffer.used();
        let _known = self.buffer.len();
        if self.height == 1 {
            return;
        }
        let index = heaviest(self.children.as_slice(), &self.buffer);
        let bytes = bytes_for(self.children.as_slice(), index, &self.buffer);
        let ample = self.shape.ample(bytes);
        match &mut self.children[index] {
            Child::Leaf(_) => unreachable!(),
            Child::Node(node) => {
                let Ok(has_room) = node.gets_room(alloc, bytes, ample, spare) else {
                    return;
                };
                if !has_room {
                    node.ease_below(alloc, batch, spare);
                    return;
                }
            }
        }
        if is_apart(self.children.as_slice(), index, &self.buffer, batch) {
            hand_down(&mut self.children, index, &mut self.buffer);
        }
    }

    /// Eases a root in which a job's batch came in, where its own messages take more than half of its block (`ease_below`): the
    /// next request that wants room there is to find it.
    fn ease(&mut self, alloc: A, batch: &MessageBuf<A>, spare: &mut RawBuf<A>)
        requires spare { self.old.shape.buffer ≤ spare.old.capacity }
        ensures eases { Eases batch.now.messages self.old self.new }
        ensures spare { spare.new.capacity ≡ spare.old.capacity }
    {
        if self.buffer.live() > self.buffer.capacity() / 2 {
            self.order();
            self.ease_below(alloc, batch, spare);
        }
    }

    /// Puts the pages of a job's result in its leaf's place, of a root, and takes the job's batch out of the buffer right above the
    /// leaf: the root means the same under the pins. Then some of its messages may move towards the leaves (`ease`). Where
    /// it can't come any more the result is stale, and nothing changes. Where memory is refused the result comes back, and no
    /// message has moved.
    pub fn install(
        &mut self,
        alloc: A,
        merge: FlushResult<A>,
        pins: &Pins<A>,
        spare: &mut RawBuf<A>,
        cache: &mut LeafCache<A>,
    ) -> Result<Installed, (FlushResult<A>, AllocError)>
        requires block { self.old.buffer.capacity ≡ self.old.shape.buffer }
        requires few { self.old.width ≤ self.old.shape.fan_out }
        requires fan_out { 4 ≤ self.old.shape.fan_out }
        requires spare { self.old.shape.buffer ≤ spare.old.capacity }
        ensures root { KeepsRoot (pins_in pins.now) self.old self.new }
        ensures stale { IfOk result (λ r. r ≡ installed.Stale
            ↔ ¬ CanInstall self.old merge.job (pins_in pins.now)) }
        ensures unmoved { IfOk result (λ r. r ≡ installed.Stale
            → (self.new ≡ self.old) × (cache.new ≡ cache.old)) }
        ensures done { IfOk result (λ r. r ≡ installed.Done
            → BatchIsGone merge.job.batch.messages self.new) }
        ensures err { IfErr result (λ e. (e.0 ≡ merge) × (self.new ≡ self.old)) }
        ensures cache { Forgets self.old.leaves self.new.leaves cache.old cache.new }
        ensures spare { spare.new.capacity ≡ spare.old.capacity }
    {
        if !can_install(self, &merge.job, pins) {
            return Ok(Installed::Stale);
        }
        match self.install_result(alloc, &merge, cache) {
            Ok(()) => {
                self.ease(alloc, &merge.job.batch, spare);
                Ok(Installed::Done)
            }
            Err(refused) => Err((merge, refused)),
        }
    }
}
