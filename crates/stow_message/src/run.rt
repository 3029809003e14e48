//! Messages of a buffer, lent.
ghost use Rattle.std.specs.Prelude.{◌≡◌, ◌<◌, ◌≤◌, length, slice_index_or};
ghost use Rattle.std.specs.List.{sum_by};
ghost use Rattle.stow_tree_model.specs.TreeMessage.{TreeMessage, message_of};
ghost use Rattle.stow_message.specs.MessageBuf.{AreNoLarger};
ghost use Rattle.stow_message.specs.Packed.{message_bytes, message_size};

use crate::message_buf::MessageBuf;
use std::alloc::{Allocator, Global};
use std::marker::Model;
use stow_tree_model::message::Message;

/// Messages that stand side by side in a buffer, in their order, lent.
#[derive(Drop)]
pub struct Run<'a, A: Allocator = Global> {
    pub(crate) buf: &'a MessageBuf<A>,
    pub(crate) from: usize,
    pub(crate) to: usize,
}

impl<'a, A: Allocator> Model for Run<'a, A> {
    ghost use Rattle.std.specs.Prelude.{◌-◌, ◌^◌, ◌<◌, ◌≤◌, List, length, take, drop};
    ghost use Rattle.std.specs.Coded.{coded_list};
    ghost use Rattle.stow_tree_model.specs.TreeMessage.{TreeMessage};
    ghost use Rattle.stow_message.specs.MessageBuf.{message_code};

    ghost Value = { List TreeMessage };

    ghost coded = { coded_list message_code };

    ghost view = { λ r. take (r.to - r.from) (drop r.from r.buf.now.messages) };

    ghost invariant = { λ r. (r.from ≤ r.to) × (r.to ≤ length r.buf.now.messages)
        × (r.to < 2 ^ 64) };
}

impl<'a, A: Allocator> Run<'a, A> {
    /// How many messages there are.
    pub fn len(&self) -> usize
        ensures { result ≡ length self.now }
    {
        self.to - self.from
    }

    /// The message at `index`.
    pub fn get(&self, index: usize) -> Message<'a>
        requires { index < length self.now }
        ensures { message_of result ≡ slice_index_or self.now index (message_of result) }
    {
        self.buf.message(self.from + index)
    }

    /// How many bytes each message takes at most, its slot among them.
    pub(crate) fn largest(&self) -> usize
        ensures { AreNoLarger result self.now }
    {
        self.buf.largest()
    }

    /// How many bytes all take at most, their slots among them, as their count tells.
    pub(crate) fn most_bytes(&self) -> usize
        ensures { sum_by message_size self.now ≤ result }
    {
        let _known = self.buf.used();
        self.len().saturating_mul(self.largest())
    }

    /// The bytes of the packed message at `index`, lent.
    pub(crate) fn packed(&self, index: usize) -> &'a [u8]
        requires { index < length self.now }
        ensures { (none : TreeMessage)
            → result.now ≡ message_bytes (slice_index_or self.now index none) }
    {
        self.buf.packed(self.from + index)
    }
}
