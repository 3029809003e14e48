//! A buffer without the messages that newer ones supersede.
ghost use Rattle.std.specs.Prelude.{◌≡◌, ◌+◌, ◌/◌, ◌<◌, ◌≤◌, ◌^◌, ◌∷◌, IfSome, IsTrue, Some, None, if◌then◌else◌};
ghost use Rattle.std.specs.Option.{option_map};
ghost use Rattle.stow_leaf.specs.StowMerge.Pins.{pins_in};
ghost use Rattle.stow_leaf.specs.StowMessage.MessageBuf.{message_list};
ghost use Rattle.stow_leaf.specs.StowMessage.Packed.{message_size};
ghost use Rattle.stow_superseded.specs.Superseded.{is_whole, is_hidden, buffer_without_superseded};
ghost use Rattle.stow_tree_model.specs.Merged.{same_key, is_pin_within};
ghost use Rattle.stow_tree_model.specs.Op.{op_of};
ghost use Rattle.stow_tree_model.specs.Order.{MessagesRise};
ghost use Rattle.stow_tree_model.specs.TreeMessage.{message_of};
ghost use Rattle.stow_superseded.specs.Passes.{of_key};

use crate::sampling::is_promising;
use std::alloc::Allocator;
use stow_leaf::stow_merge::pins::Pins;
use stow_leaf::stow_message::head::size;
use stow_leaf::stow_message::message_buf::MessageBuf;
use stow_tree_model::message::Message;
use stow_tree_model::op::Op;
use stow_tree_model::tenant_key::TenantKey;

/// Whether what the key has after the operation is the same whatever it had before.
pub(crate) fn is_whole(op: Op<'_>) -> bool
    ensures { result ≡ is_whole (op_of op.entry) }
{
    match op {
        Op::Put(_) | Op::Gone => true,
        Op::Append(_) => false,
    }
}

/// Whether a pin stands from one number on and below another.
fn is_pin_within(pins: &[u64], from: u64, to: u64) -> bool
    ensures { result ≡ is_pin_within pins.now from to }
{
    pins.iter().any(|p| from <= *p && *p < to)
}

/// The message, where it is of the key.
fn of_key<'a>(message: Option<Message<'a>>, key: TenantKey<'_>) -> Option<Message<'a>>
    ensures { option_map message_of result
        ≡ of_key key.entry.bytes.now (option_map message_of message.entry) }
{
    match message {
        Some(message) if key.is_same(message.key) => Some(message),
        _ => None,
    }
}

/// Whether no pin shows the message below a newer put or removal of its key, if there is one.
pub(crate) fn is_hidden<A: Allocator + Copy>(
    pins: &Pins<A>,
    message: Message<'_>,
    newer: Option<Message<'_>>,
) -> bool
    ensures { result
        ≡ is_hidden (pins_in pins.now) (message_of message.entry)
        (option_map message_of newer.entry) }
{
    match newer {
        None => false,
        Some(newer) => {
            let pins = pins.of(message.key.tenant());
            !is_pin_within(pins, message.number, newer.number)
        }
    }
}

/// Puts a message before the others, unless more than so many bytes were in use then.
fn put_first<A: Allocator>(buffer: &mut MessageBuf<A>, message: Message<'_>, most: usize) -> bool
    requires rises { MessagesRise (message_of message ∷ buffer.old.messages) }
    requires room { (buffer.old.used ≤ most) × (most ≤ buffer.old.capacity) }
    ensures put { IsTrue result → buffer.new
        ≡ message_list (message_of message.entry ∷ buffer.old.messages)
        (buffer.old.used + message_size (message_of message.entry)) buffer.old.capacity }
    ensures most { IsTrue result → buffer.new.used ≤ most }
{
    if size(message) > most - buffer.used() {
        return false;
    }
    buffer.push_first(message);
    true
}

/// The messages of a buffer that newer ones don't supersede under the pins, with no dead bytes, in a block of the same size: nothing
/// where less than a quarter of that block is free then, or where memory is refused.
pub fn without_superseded<A: Allocator + Copy>(
    alloc: A,
    buffer: &MessageBuf<A>,
    pins: &Pins<A>,
) -> Option<MessageBuf<A>>
    requires small { buffer.now.capacity < 2 ^ 32 }
    ensures fewer { IfSome result (λ fewer. fewer
        ≡ buffer_without_superseded (pins_in pins.now) buffer.now) }
    ensures ample { IfSome result (λ fewer.
        fewer.used + buffer.now.capacity / 4 ≤ buffer.now.capacity) }
{
    if !is_promising(buffer, pins) {
        return None;
    }
    let capacity = buffer.capacity();
    let most = capacity - capacity / 4;
    let mut fewer = MessageBuf::with_capacity(alloc, capacity).ok()?;
    let mut whole = None;
    let mut left = buffer.len();
    while left > 0 {
        left -= 1;
        let message = buffer.message(left);
        let newer = of_key(whole, message.key);
        if !is_hidden(pins, message, newer) && !put_first(&mut fewer, message, most) {
            return None;
        }
        whole = if is_whole(message.op) {
            Some(message)
        } else {
            newer
        };
    }
    Some(fewer)
}
