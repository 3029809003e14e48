//! Buffers on the way down to a leaf.
ghost use Rattle.std.specs.Prelude.{◌≡◌};
ghost use Rattle.stow_tree_model.specs.Messages.{ops_in};
ghost use Rattle.stow_read.specs.NextKey.{IsNextKey};
ghost use Rattle.stow_read.specs.Way.{key_in};

use crate::next_key::next_in_buffer;
use crate::start::Start;
use std::alloc::Allocator;
use stow_node::stow_message::message_buf::MessageBuf;
use stow_tree_model::tenant_key::TenantKey;

/// A buffer on the way down to a leaf, with its next key.
#[derive(Drop)]
pub(crate) struct Level<'a, A: Allocator> {
    pub(crate) buffer: &'a MessageBuf<A>,
    /// The lowest key of an interval that has messages in it.
    pub(crate) next: Option<TenantKey<'a>>,
    /// Where they stand.
    pub(crate) place: usize,
}

impl<'a, A: Allocator> Level<'a, A> {
    /// The buffer with the lowest key from the start on and below `to`, found the faster the nearer the guess is to its place.
    pub(crate) fn new(
        buffer: &'a MessageBuf<A>,
        start: Start<'_>,
        to: TenantKey<'_>,
        guess: usize,
    ) -> Level<'a, A>
        ensures buffer { result.buffer.now ≡ buffer.now }
        ensures next { IsNextKey (ops_in result.buffer.now.messages)
            start.entry.key.bytes.now start.entry.after to.entry.bytes.now (key_in result.next) }
    {
        let mut place = guess;
        let next = next_in_buffer(buffer, start, to, &mut place);
        Level {
            buffer,
            next,
            place,
        }
    }
}
