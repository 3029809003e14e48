//! Inner nodes.
ghost use Rattle.std.specs.Prelude.{◌≡◌, ◌≢◌, ◌↔◌, ◌+◌, ◌-◌, ◌^◌, ◌<◌, ◌≤◌, ◌++◌, ℕ, IsTrue, [], ◌∷◌, length, true, false, None, IfOk, IfSome, OnOk, OnErr};
ghost use Rattle.std.specs.List.{sum_by};
ghost use Rattle.std.specs.Vec.{vec_capacity};
ghost use Rattle.stow_groups.specs.Groups.{groups};
ghost use Rattle.stow_leaves.specs.Forgets.{Forgets};
ghost use Rattle.stow_leaves.specs.StowMerge.Pins.{pins_in};
ghost use Rattle.stow_leaves.specs.StowMessage.MessageBuf.{Fits, without_range};
ghost use Rattle.stow_leaves.specs.StowMessage.Packed.{message_size};
ghost use Rattle.stow_leaves.specs.StowMessage.Rising.{in_range};
ghost use Rattle.stow_tree_model.specs.Agreement.{TenantPins};
ghost use Rattle.stow_tree_model.specs.TreeMessage.{message_of};
ghost use Rattle.stow_node.specs.Flushes.{AreShort, Flushes};
ghost use Rattle.stow_node.specs.Halves.{AreHalves};
ghost use Rattle.stow_node.specs.Moves.{accepted, CanAccept, IsReallocated, IsSqueezed, StaysInMeaning};
ghost use Rattle.stow_node.specs.Nodes.{AreAmong, AreChildren, AreLeafSizes, HasNodeBlock, leaves_of, nearest_in, node_part};
ghost use Rattle.stow_leaves.specs.StowLeaf.Intervals.{top_key};
ghost use Rattle.stow_node.specs.Parts.{IsTile};
ghost use Rattle.stow_node.specs.Plans.{HasLeafTarget, IsPlanned, Plans, TakesLeaf, TakesOwn};
ghost use Rattle.stow_node.specs.Regroups.{Grows, StepsAsOne, StandAsOne, AreBehind, ForgetsCame};
ghost use Rattle.stow_node.specs.Rooms.{AreShells, HasRoom};
ghost use Rattle.stow_node.specs.Subtree.{Subtree, buffered, first_subtree, messages_of};
ghost use Rattle.stow_node.specs.Ways.{Goes, StepsDown};
ghost use Rattle.stow_node.specs.declared.child.Child.TheVariants as in_child;

use crate::child::{Child, close_all, high_after};
use crate::coming::{moved_from, take_in};
use crate::fence::Fence;
use crate::moving::{bytes_for, hand_down, heaviest, take_down};
use crate::pick::Pick;
use crate::planning::{deepest_child, is_drained, job_for};
use crate::room::Room;
use crate::shape::Shape;
use crate::shell::{MOST_FENCE, Shell};
use std::alloc::{AllocError, Allocator, Global};
use std::marker::Model;
use std::mem;
use stow_groups::sharing::{groups, share_of_last};
use stow_leaves::stow_leaf::ends::top_key;
use stow_leaves::stow_leaf::leaf::Leaf;
use stow_leaves::stow_leaf_cache::leaf_cache::LeafCache;
use stow_leaves::stow_merge::flush_job::FlushJob;
use stow_leaves::stow_merge::pins::Pins;
use stow_leaves::stow_message::message_buf::MessageBuf;
use stow_leaves::stow_message::place::Place;
use stow_leaves::stow_page::packed_rows::PackedRows;
use stow_leaves::stow_page::rows::Rows;
use stow_leaves::stow_raw::raw_buf::RawBuf;
use stow_tree_model::message::Message;
use stow_tree_model::tenant_key::TenantKey;
use stow_tree_model::tenant_key_buf::TenantKeyBuf;

/// The most levels of a root that may become higher. No memory holds as many, each with a block of its own.
pub(crate) const MOST_HEIGHT: u64 = 9_223_372_036_854_775_808;

/// A node with a buffer of messages, and all that stands below it.
#[cycle(node)]
#[derive(Drop)]
pub struct Node<A: Allocator = Global> {
    pub(crate) low: Fence<A>,
    pub(crate) height: u64,
    pub(crate) shape: Shape,
    pub(crate) buffer: MessageBuf<A>,
    pub(crate) children: Vec<Child<A>, A>,
}

impl<A: Allocator> Model for Node<A> {
    ghost use Rattle.stow_node.specs.Subtree.{Subtree};

    ghost Value = { Subtree };

    ghost use Rattle.stow_node.specs.Nodes.{subtree_of, IsNode};

    ghost view = { subtree_of };

    ghost invariant = { IsNode };

    ghost size = { λ s. s.height };

    ghost use Rattle.std.proofs.Common.{arith};
    ghost use Rattle.stow_node.specs.Heights.{deepest_child};

    ghost size_decreases = { λ a h. omega (arith, deepest_child A A.Allocator a.height a.shape a.children.items h.level) };
}

impl<A: Allocator + Copy> Node<A> {
    /// A node above one empty leaf, for all keys.
    pub fn first(alloc: A, shape: Shape) -> Result<Node<A>, AllocError>
        ensures { IfOk result (λ n. n ≡ first_subtree shape) }
    {
        let leaf = Leaf {
            low: TenantKeyBuf::new(alloc, 0, &[])?,
            rows: Rows::new(alloc, PackedRows::new(alloc)?)?,
        };
        let fence = Vec::with_capacity(alloc, MOST_FENCE)?;
        let low = Fence::copied(fence, leaf.low.as_key());
        let mut children = Vec::new(alloc);
        children.push(Child::Leaf(leaf))?;
        Ok(Node {
            low,
            height: 1,
            shape,
            buffer: MessageBuf::with_capacity(alloc, shape.buffer as usize)?,
            children,
        })
    }
}

impl<A: Allocator + Copy> Node<A> {
    /// Cuts it before the child at `at`: the children from there on, with what is theirs, are in the node that is
    /// answered. It asks for no memory.
    fn cut_off(&mut self, at: usize, shell: Shell<A>) -> Node<A>
        requires inside { (0 < at) × (at < self.old.width) }
        requires few { self.old.width ≤ self.old.shape.fan_out + at }
        requires shape { shell ≡ self.old.shape }
        ensures halves { AreHalves self.old self.new result }
        ensures width { self.new.width ≡ at }
    {
        let _known = self.buffer.len();
        let _known = self.buffer.used();
        let (list, mut buffer, fence) = shell.into_parts();
        let mut low = Fence::copied(fence, self.children[at].low());
        let children = moved_from(&mut self.children, at, list);
        low.note(children.as_slice());
        self.low.note(self.children.as_slice());
        self.buffer.move_range(low.as_key(), top_key(), &mut buffer);
        Node {
            low,
            height: self.height,
            shape: self.shape,
            buffer,
            children,
        }
    }

    /// Gives its block back, where it holds no message.
    pub(crate) fn close(&mut self, alloc: A)
        ensures { IsReallocated self.old self.new }
    {
        let _known = self.buffer.used();
        if self.buffer.len() > 0 || self.buffer.capacity() == 0 {
            return;
        }
        if let Ok(none) = MessageBuf::with_capacity(alloc, 0) {
            self.buffer = none;
        }
    }

    /// Gets its block, where it has none. Where memory is refused nothing has changed.
    fn open(&mut self, alloc: A) -> Result<(), AllocError>
        ensures same { IsReallocated self.old self.new }
        ensures block { OnOk result (self.new.buffer.capacity ≡ self.new.shape.buffer) }
        ensures err { OnErr result (self.new ≡ self.old) }
    {
        let _known = self.buffer.used();
        if self.buffer.capacity() == 0 {
            self.buffer = MessageBuf::with_capacity(alloc, self.shape.buffer as usize)?;
        }
        Ok(())
    }

    /// Each child that holds no message gives its block back (`close`), and where they begin is noted.
    fn close_children(&mut self, alloc: A)
        ensures { self.new ≡ self.old }
    {
        close_all(alloc, &mut self.children);
        self.low.note(self.children.as_slice());
    }

    /// Children that hold no message give their blocks back. Then it is cut, where it has too many children, into as few nodes as
    /// hold them, evenly, or full ones first. It keeps the lowest; the others come behind it. It asks for no memory.
    pub(crate) fn settle(&mut self, alloc: A, room: &mut Room<A>, full: bool)
        requires fan_out { 1 ≤ self.old.shape.fan_out }
        requires none { room.old.came.items ≡ [] }
        requires came { groups self.old.shape.fan_out self.old.width
            ≤ vec_capacity room.old.came + 1 }
        requires shells { AreShells (groups self.old.shape.fan_out self.old.width - 1)
            self.old.shape room.old.shells.items }
        ensures settles { (pins : TenantPins)
            → Grows pins self.old self.new room.new.came.items }
        ensures count { length room.new.came.items + 1
            ≡ groups self.old.shape.fan_out self.old.width }
        ensures room { (rest : ℕ) → AreShells ((groups self.old.shape.fan_out self.old.width - 1)
            + rest) self.old.shape room.old.shells.items
            → AreShells rest self.old.shape room.new.shells.items }
        ensures capacity { vec_capacity room.old.came ≤ vec_capacity room.new.came }
        ensures wides { room.new.wides ≡ room.old.wides }
    {
        self.close_children(alloc);
        let fan_out = self.shape().fan_out as usize;
        let mut groups = groups(fan_out, self.width());
        while groups > 1 {
            let width = self.width();
            let at = width - share_of_last(fan_out, width, groups, full);
            let node = self.cut_off(at, room.shell());
            room.bring(node);
            groups -= 1;
        }
    }
}

impl<A: Allocator + Copy> Node<A> {
    /// One step of its messages towards the leaves: those for the child for which most bytes are buffered move into that
    /// child's buffer, and where it is laden then, it merges all its messages into its leaves. Where they don't fit there, dead
    /// bytes dropped, the step is that child's own; right above leaves all messages for one are merged into it. The nodes that
    /// are to stand behind it come with the room for more above it, where nodes of the widths in `above` stand. Where memory is
    /// refused messages may have moved into a child's buffer, and no more.
    fn step_below(
        &mut self,
        alloc: A,
        pins: &Pins<A>,
        spare: &mut RawBuf<A>,
        cache: &mut LeafCache<A>,
        above: &mut Vec<usize, A>,
    ) -> Result<Room<A>, AllocError>
        requires some { 0 < length self.old.buffer.messages }
        requires few { self.old.width ≤ self.old.shape.fan_out }
        requires fan_out { 4 ≤ self.old.shape.fan_out }
        requires short { AreShort (messages_of self.old) }
        requires spare { self.old.shape.buffer ≤ spare.old.capacity }
        ensures ok { IfOk result (λ room.
            StepsAsOne (pins_in pins.now) self.old self.new room.came.items) }
        ensures goes { IfOk result (λ room.
            Goes self.old.height (pins_in pins.now) self.old self.new
            room.came.items cache.old cache.new) }
        ensures room { IfOk result (HasRoom self.old.shape above.old.items) }
        ensures err { OnErr result (StaysInMeaning self.old self.new) }
        ensures cache { IfOk result (λ room. ForgetsCame self.old self.new room.came.items
            cache.old cache.new) }
        ensures kept { OnErr result (Forgets self.old.leaves self.old.leaves cache.old cache.new) }
        ensures spare { spare.new.capacity ≡ spare.old.capacity }
    {
        let _known = self.buffer.used();
        let _known = self.buffer.len();
        if self.height == 1 {
            return self.merge_leaf(alloc, pins, cache, above.as_slice());
        }
        let index = heaviest(self.children.as_slice(), &self.buffer);
        let bytes = bytes_for(self.children.as_slice(), index, &self.buffer);
        let ample = self.shape.ample(bytes);
        let full = self.children.len() - index == 1;
        above.insert(0, self.children.len())?;
        match &mut self.children[index] {
            Child::Leaf(_) => unreachable!(),
            Child::Node(node) => {
                let has_room = node.gets_room(alloc, bytes, ample, spare)?;
                if !has_room {
                    let mut room = node.step_below(alloc, pins, spare, cache, above)?;
                    take_in(&mut self.children, index, &mut room);
                    self.settle(alloc, &mut room, full);
                    return Ok(room);
                }
            }
        }
        let buffer = &mut self.buffer;
        let above = above.as_slice();
        let children = &mut self.children;
        let taken = take_down(alloc, children, index, buffer, bytes, pins, cache, above)?;
        let Some(mut room) = taken else {
            return Ok(Room::none(alloc));
        };
        take_in(&mut self.children, index, &mut room);
        self.settle(alloc, &mut room, full);
        Ok(room)
    }

    /// Puts a node above this one and those that came behind it, or as many as it takes. It asks for no memory.
    pub(crate) fn rise(&mut self, alloc: A, room: &mut Room<A>)
        requires block { self.old.buffer.capacity ≡ self.old.shape.buffer }
        requires came { 0 < length room.old.came.items }
        requires room { HasRoom self.old.shape [] room.old }
        requires fan_out { 4 ≤ self.old.shape.fan_out }
        requires height { self.old.height + 1 < 2 ^ 64 }
        requires are { AreBehind self.old room.old.came.items }
        ensures rises { (pins : TenantPins) (x : Subtree)
            → StandAsOne pins x self.old room.old.came.items
            → StandAsOne pins x self.new room.new.came.items }
        ensures leaves { self.new.leaves ++ leaves_of room.new.came.items
            ≡ self.old.leaves ++ leaves_of room.old.came.items }
        ensures nearest { AreAmong (nearest_in (in_child.Node self.new ∷ room.new.came.items))
            (nearest_in (in_child.Node self.old ∷ room.old.came.items)) }
        ensures fewer { length room.new.came.items < length room.old.came.items }
        ensures room { HasRoom self.old.shape [] room.new }
        ensures height { self.new.height ≡ self.old.height + 1 }
    {
        let shell = room.shell();
        let (list, buffer, fence) = shell.into_parts();
        let low = Fence::copied(fence, self.low.as_key());
        let lower = Node {
            low: mem::replace(&mut self.low, low),
            height: self.height,
            shape: self.shape,
            buffer: mem::replace(&mut self.buffer, buffer),
            children: mem::replace(&mut self.children, list),
        };
        self.children.push(Child::Node(lower)).unwrap();
        take_in(&mut self.children, 0, room);
        self.height += 1;
        self.settle(alloc, room, true);
    }

    /// One step of a root's messages towards the leaves (`step_below`). Where nodes come behind it, it becomes higher. Where
    /// memory is refused messages may have moved into a child's buffer, and no more.
    pub fn step(
        &mut self,
        alloc: A,
        pins: &Pins<A>,
        spare: &mut RawBuf<A>,
        cache: &mut LeafCache<A>,
    ) -> Result<(), AllocError>
        requires some { 0 < length self.old.buffer.messages }
        requires few { self.old.width ≤ self.old.shape.fan_out }
        requires fan_out { 4 ≤ self.old.shape.fan_out }
        requires short { AreShort (messages_of self.old) }
        requires block { self.old.buffer.capacity ≡ self.old.shape.buffer }
        requires spare { self.old.shape.buffer ≤ spare.old.capacity }
        ensures ok { OnOk result (Flushes (pins_in pins.now) self.old self.new) }
        ensures down { OnOk result (StepsDown A (pins_in pins.now) self.old self.new
            cache.old cache.new) }
        ensures err { OnErr result (StaysInMeaning self.old self.new) }
        ensures cache { Forgets self.old.leaves self.new.leaves cache.old cache.new }
        ensures spare { spare.new.capacity ≡ spare.old.capacity }
    {
        let _known = self.shape();
        if self.height() > MOST_HEIGHT {
            return Err(AllocError);
        }
        let mut above = Vec::new(alloc);
        let mut room = self.step_below(alloc, pins, spare, cache, &mut above)?;
        while !room.came.is_empty() {
            self.rise(alloc, &mut room);
        }
        Ok(())
    }
}

impl<A: Allocator + Copy> Node<A> {
    /// Makes its own buffer, which holds no message, a whole empty block. Where memory is refused nothing has changed.
    fn clear(&mut self, alloc: A) -> Result<(), AllocError>
        requires { self.old.buffer.messages ≡ [] }
        ensures same { IsReallocated self.old self.new }
        ensures block { OnOk result (self.new.buffer.capacity ≡ self.new.shape.buffer) }
        ensures empty { OnOk result (self.new.buffer.used ≡ 0) }
        ensures err { OnErr result (self.new ≡ self.old) }
    {
        self.open(alloc)?;
        self.buffer.reset();
        Ok(())
    }

    /// The job of the leaf for which most bytes are buffered, of a node right above leaves.
    fn plan_leaf(&self, alloc: A, pins: &Pins<A>) -> Result<FlushJob<A>, AllocError>
        requires level { self.now.height ≡ 1 }
        requires block { self.now.buffer.capacity ≡ self.now.shape.buffer }
        requires some { 0 < length self.now.buffer.messages }
        requires short { AreShort (messages_of self.now) }
        requires target { HasLeafTarget self.now.shape }
        ensures job { IfOk result (IsPlanned (pins_in pins.now) self.now) }
        ensures way { IfOk result (TakesLeaf self.now self.now) }
    {
        let children = self.children.as_slice();
        let index = heaviest(children, &self.buffer);
        let high = high_after(children, index);
        match &children[index] {
            Child::Leaf(leaf) => job_for(alloc, leaf, high, &self.buffer, pins, self.shape),
            Child::Node(_) => unreachable!(),
        }
    }

    /// The job of its own messages, of a node below which no buffer holds one. Further up the messages for the child for
    /// which most bytes are buffered move into that child's buffer first, and so on down. Where memory is refused they
    /// may have moved too.
    fn plan_own(&mut self, alloc: A, pins: &Pins<A>) -> Result<FlushJob<A>, AllocError>
        requires some { 0 < length self.old.buffer.messages }
        requires none { self.old.deeper ≡ [] }
        requires short { AreShort (messages_of self.old) }
        requires target { HasLeafTarget self.old.shape }
        ensures same { StaysInMeaning self.old self.new }
        ensures job { IfOk result (IsPlanned (pins_in pins.now) self.new) }
        ensures way { IfOk result (TakesOwn self.old.height self.old self.new) }
    {
        let _known = self.buffer.used();
        let _known = self.buffer.len();
        if self.height == 1 {
            return self.plan_leaf(alloc, pins);
        }
        let index = heaviest(self.children.as_slice(), &self.buffer);
        match &mut self.children[index] {
            Child::Leaf(_) => unreachable!(),
            Child::Node(node) => node.clear(alloc)?,
        }
        hand_down(&mut self.children, index, &mut self.buffer);
        match &mut self.children[index] {
            Child::Leaf(_) => unreachable!(),
            Child::Node(node) => node.plan_own(alloc, pins),
        }
    }

    /// The job of the deepest buffer that holds a message, of it and all below it (`plan_own`).
    fn plan_below(
        &mut self,
        alloc: A,
        pins: &Pins<A>,
        pick: Pick,
    ) -> Result<FlushJob<A>, AllocError>
        requires some { buffered self.old ≢ [] }
        requires short { AreShort (messages_of self.old) }
        requires target { HasLeafTarget self.old.shape }
        ensures same { StaysInMeaning self.old self.new }
        ensures job { IfOk result (IsPlanned (pins_in pins.now) self.new) }
        ensures way { IfOk result (Plans self.old.height self.old self.new) }
    {
        let Some(index) = deepest_child(self.children.as_slice(), pick) else {
            return self.plan_own(alloc, pins);
        };
        match &mut self.children[index] {
            Child::Leaf(_) => unreachable!(),
            Child::Node(node) => node.plan_below(alloc, pins, pick),
        }
    }

    /// Orders what was put last into its own buffer, so that all that is there is read fast. No message moves.
    pub(crate) fn order(&mut self)
        ensures { self.new ≡ self.old }
    {
        self.buffer.settle();
    }

    /// A job for a flush outside the lock, under pins, where a buffer holds a message: it is of the deepest such buffer, of equals
    /// the one to pick. Messages may have moved towards the leaves, also where memory is refused.
    pub fn plan(
        &mut self,
        alloc: A,
        pins: &Pins<A>,
        pick: Pick,
    ) -> Result<Option<FlushJob<A>>, AllocError>
        requires short { AreShort (messages_of self.old) }
        requires target { HasLeafTarget self.old.shape }
        ensures same { StaysInMeaning self.old self.new }
        ensures none { IfOk result (λ job. job ≡ None ↔ buffered self.old ≡ []) }
        ensures job { IfOk result (λ job. IfSome job (IsPlanned (pins_in pins.now) self.new)) }
        ensures way { IfOk result (λ job. IfSome job (Plans self.old.height self.old self.new)) }
    {
        if is_drained(self) {
            return Ok(None);
        }
        self.order();
        Ok(Some(self.plan_below(alloc, pins, pick)?))
    }
}

impl<A: Allocator> Node<A> {
    /// The lowest key that it may hold.
    pub fn low(&self) -> TenantKey<'_>
        ensures { result.bytes.now ≡ self.now.low }
    {
        self.low.as_key()
    }

    /// How many levels of nodes there are from here down.
    pub fn height(&self) -> u64
        ensures { result ≡ self.now.height }
    {
        self.height
    }

    /// How many children it has.
    pub fn width(&self) -> usize
        ensures width { result ≡ self.now.width }
        ensures some { 1 ≤ result }
    {
        self.children.len()
    }

    /// How large it may grow. Its buffer's block has the node size, or there is none.
    pub fn shape(&self) -> Shape
        ensures shape { result ≡ self.now.shape }
        ensures block { HasNodeBlock self.now }
        ensures sizes { AreLeafSizes self.now.shape.leaf self.now.leaves }
        ensures tile { IsTile (node_part self.now) top_key }
    {
        self.shape
    }

    /// Its own messages.
    pub fn buffer(&self) -> &MessageBuf<A>
        ensures { result.now ≡ self.now.buffer }
    {
        &self.buffer
    }

    /// What stands right below it, from the lowest: leaves, or nodes one level lower.
    pub fn children(&self) -> &[Child<A>]
        ensures { AreChildren self.now result.now }
    {
        self.children.as_slice()
    }

    /// Between which children the one for a key may stand, for `child_within`: from the first one on, before the second.
    #[inline(always)]
    pub fn span_for(&self, key: TenantKey<'_>) -> (usize, usize) {
        self.low.span_for(key)
    }

    /// Whether there is room for the message in its own buffer.
    pub fn fits(&self, message: Message<'_>) -> bool
        ensures { IsTrue result ↔ Fits self.now.buffer (message_of message.entry) }
    {
        self.buffer.fits(message)
    }

    /// Puts a message into its own buffer.
    pub fn push(&mut self, message: Message<'_>)
        requires { CanAccept (message_of message ∷ []) self.old }
        ensures { self.new ≡ accepted (message_of message.entry ∷ []) self.old }
    {
        self.push_near(message, Place::none());
    }

    /// The same; the search is the shorter the nearer the guess is to the message's place.
    pub fn push_near(&mut self, message: Message<'_>, guess: Place)
        requires { CanAccept (message_of message ∷ []) self.old }
        ensures { self.new ≡ accepted (message_of message.entry ∷ []) self.old }
    {
        self.buffer.push_near(message, guess);
    }

    /// Takes the messages from its own low on and below `to` out of the buffer above it.
    pub(crate) fn accept(&mut self, from: &mut MessageBuf<A>, to: TenantKey<'_>)
        requires { CanAccept (in_range self.old.low to.bytes.now from.old.messages) self.old }
        ensures accepted { self.new
            ≡ accepted (in_range self.old.low to.entry.bytes.now from.old.messages) self.old }
        ensures left { from.new ≡ without_range self.old.low to.entry.bytes.now from.old }
    {
        let _known = from.len();
        from.move_range(self.low.as_key(), to, &mut self.buffer);
    }

    /// Whether so many bytes fit into its own buffer. Where they don't, dead bytes are dropped if `ample` bytes fit then.
    pub fn makes_room(&mut self, bytes: usize, ample: usize, spare: &mut RawBuf<A>) -> bool
        requires spare { self.old.buffer.capacity ≤ spare.old.capacity }
        requires ample { bytes ≤ ample }
        ensures same { IsSqueezed self.old self.new }
        ensures still { self.old.buffer.used + bytes ≤ self.old.buffer.capacity
            → self.new ≡ self.old }
        ensures room { IsTrue result → self.new.buffer.used + bytes ≤ self.new.buffer.capacity }
        ensures full { result ≡ false → self.new.buffer.capacity
            < sum_by message_size self.new.buffer.messages + ample }
        ensures spare { spare.new.capacity ≡ spare.old.capacity }
    {
        let capacity = self.buffer.capacity();
        self.buffer.widen(bytes);
        if bytes <= capacity - self.buffer.used() {
            return true;
        }
        self.buffer.settle();
        if ample > capacity - self.buffer.live() {
            return false;
        }
        self.buffer.squeeze(spare);
        true
    }
}

impl<A: Allocator + Copy> Node<A> {
    /// Gets its block, where it has none, and tells whether so many bytes fit into it (`makes_room`). Where memory is refused
    /// nothing has changed.
    pub(crate) fn gets_room(
        &mut self,
        alloc: A,
        bytes: usize,
        ample: usize,
        spare: &mut RawBuf<A>,
    ) -> Result<bool, AllocError>
        requires spare { self.old.shape.buffer ≤ spare.old.capacity }
        requires ample { bytes ≤ ample }
        ensures same { IsReallocated self.old self.new }
        ensures block { OnOk result (self.new.buffer.capacity ≡ self.new.shape.buffer) }
        ensures room { IfOk result (λ fits. IsTrue fits
            → self.new.buffer.used + bytes ≤ self.new.buffer.capacity) }
        ensures full { IfOk result (λ fits. fits ≡ false → self.new.buffer.capacity
            < sum_by message_size self.new.buffer.messages + ample) }
        ensures err { OnErr result (self.new ≡ self.old) }
        ensures spare { spare.new.capacity ≡ spare.old.capacity }
    {
        self.open(alloc)?;
        Ok(self.makes_room(bytes, ample, spare))
    }
}
