//! A message that the one right behind it hides.
ghost use Rattle.std.specs.Prelude.{◌≡◌, IsTrue, false};
ghost use Rattle.stow_leaf.specs.StowMerge.Pins.{pins_in};
ghost use Rattle.stow_superseded.specs.Hidden.{hides, DropsHidden};
ghost use Rattle.stow_tree_model.specs.TreeMessage.{message_of};

use crate::superseding::{is_hidden, is_whole};
use std::alloc::Allocator;
use stow_leaf::stow_merge::pins::Pins;
use stow_leaf::stow_message::message_buf::MessageBuf;
use stow_leaf::stow_message::place::Place;
use stow_tree_model::message::Message;

/// Whether the next message is a put or removal that hides this one, and no pin stands between.
#[inline(always)]
pub(crate) fn hides<A: Allocator + Copy>(
    pins: &Pins<A>,
    message: Message<'_>,
    next: Message<'_>,
) -> bool
    ensures { result ≡ hides (pins_in pins.now) (message_of message.entry) (message_of next.entry) }
{
    is_whole(next.op) && message.key.is_same(next.key) && is_hidden(pins, message, Some(next))
}

/// Lets the last but one of the messages before a place go where the last of them hides it, and its slot is a young one, so that no other is
/// moved.
pub fn drop_hidden<A: Allocator + Copy>(
    buffer: &mut MessageBuf<A>,
    pins: &Pins<A>,
    place: Place,
) -> bool
    ensures dropped { IsTrue result → DropsHidden (pins_in pins.now) buffer.old buffer.new }
    ensures none { result ≡ false → buffer.new ≡ buffer.old }
{
    let Some((message, last)) = buffer.last_two(place) else {
        return false;
    };
    if !hides(pins, message, last) {
        return false;
    }
    buffer.remove_young(Place {
        count: place.count - 2,
        young: place.young.saturating_sub(2),
    })
}
