//! The messages of a key up to a number, at the front of a buffer.
ghost use Rattle.std.specs.Option.{option_map};
ghost use Rattle.std.specs.Prelude.{◌≡◌, ◌-◌, ◌<◌, ◌≤◌, length, slice_index_or};
ghost use Rattle.stow_node.specs.StowMessage.Rising.{message_before};
ghost use Rattle.stow_tree_model.specs.Messages.{ops_in};
ghost use Rattle.stow_tree_model.specs.TreeMessage.{message_of};
ghost use Rattle.stow_read.specs.UpTo.{IsUpTo, IsNewestUpTo};

use std::alloc::Allocator;
use stow_node::stow_message::below::Below;
use stow_node::stow_message::message_buf::MessageBuf;
use stow_node::stow_message::place::Place;
use stow_tree_model::message::Message;
use stow_tree_model::tenant_key::TenantKey;

/// The messages at the front of a buffer that end in the newest one of a key up to a number, if it has one: by one search, which is the
/// shorter the nearer the guess is to their count; for a guess beyond all messages the buffer's filter is asked before.
#[inline(always)]
pub(crate) fn front_up_to<'a, A: Allocator>(
    buffer: &'a MessageBuf<A>,
    key: TenantKey<'_>,
    at: u64,
    guess: Place,
) -> Below<'a>
    ensures count { IsUpTo buffer.now.messages key.entry.bytes.now at result.count }
    ensures last { option_map message_of result.last
        ≡ message_before result.count buffer.now.messages }
{
    if guess.count > buffer.len() && !buffer.may_have(key) {
        return Below::none();
    }
    buffer.below(key, at.saturating_add(1), guess)
}

/// The message with so many behind it among those at the front of a buffer: the last one is lent already.
#[inline(always)]
pub(crate) fn from_last<'a, A: Allocator>(
    buffer: &'a MessageBuf<A>,
    front: Below<'a>,
    index: usize,
) -> Message<'a>
    requires inside { index < front.count }
    requires within { front.count ≤ length buffer.now.messages }
    requires last { option_map message_of front.last
        ≡ message_before front.count buffer.now.messages }
    ensures { message_of result
        ≡ slice_index_or buffer.now.messages (front.entry.count - 1 - index) (message_of result) }
{
    if let Some(last) = front.last {
        if index == 0 {
            return last;
        }
    }
    buffer.message(front.count - 1 - index)
}

/// Where a key's next message may come to stand, behind those at the front: no guess where there are none, which is where the filter
/// told that the key has no message.
pub(crate) fn place_behind(front: &Below<'_>) -> Place {
    if front.count == 0 {
        Place::none()
    } else {
        front.place()
    }
}

/// The newest message of a key up to a number, and behind how many messages the key's next one may come to stand.
#[inline(always)]
pub(crate) fn newest_up_to<'a, A: Allocator>(
    buffer: &'a MessageBuf<A>,
    key: TenantKey<'_>,
    at: u64,
    place: &mut Place,
) -> Option<Message<'a>>
    ensures { IsNewestUpTo (ops_in buffer.now.messages key.entry.bytes.now) at result }
{
    let _known = buffer.len();
    let front = front_up_to(buffer, key, at, Place::none());
    *place = place_behind(&front);
    if front.count == 0 {
        return None;
    }
    let message = from_last(buffer, front, 0);
    if message.key.is_same(key) {
        Some(message)
    } else {
        None
    }
}
