//! Messages of a node's own buffer that newer ones supersede.
ghost use Rattle.std.specs.Prelude.{◌≡◌, IsTrue, false};
ghost use Rattle.stow_leaves.specs.StowMerge.Pins.{pins_in};
ghost use Rattle.stow_node.specs.Superseded.{EachMeansTheSame, LosesHidden, MayDropSuperseded};

use crate::node::Node;
use std::alloc::Allocator;
use stow_leaves::stow_merge::pins::Pins;
use stow_leaves::stow_message::place::Place;
use stow_superseded::hidden::drop_hidden;
use stow_superseded::superseding::without_superseded;

impl<A: Allocator + Copy> Node<A> {
    /// Drops those of its own messages that newer ones of its own supersede under the pins, and dead bytes with them, where a quarter
    /// of its block is free then. Otherwise, and where memory is refused, nothing has changed.
    pub fn drop_superseded(&mut self, alloc: A, pins: &Pins<A>)
        ensures dropped { MayDropSuperseded (pins_in pins.now) self.old self.new }
        ensures means { EachMeansTheSame (pins_in pins.now) self.old self.new }
    {
        let _known = (self.buffer.used(), self.buffer.len(), self.shape.buffer);
        if let Some(fewer) = without_superseded(alloc, &self.buffer, pins) {
            self.buffer = fewer;
        }
    }

    /// Lets the last but one of its own messages before a place go, where the last of them hides it under the pins and no other is moved by
    /// it: whether it did.
    pub fn drop_hidden(&mut self, pins: &Pins<A>, place: Place) -> bool
        ensures dropped { IsTrue result → LosesHidden (pins_in pins.now) self.old self.new }
        ensures none { result ≡ false → self.new ≡ self.old }
        ensures means { EachMeansTheSame (pins_in pins.now) self.old self.new }
    {
        let _known = self.buffer.len();
        drop_hidden(&mut self.buffer, pins, place)
    }
}
