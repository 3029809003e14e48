//! Whether many messages of a buffer are superseded, by a look at some of them.
ghost use Rattle.std.specs.Prelude.{◌+◌, ◌<◌, length};

use crate::hidden::hides;
use std::alloc::Allocator;
use stow_leaf::stow_merge::pins::Pins;
use stow_leaf::stow_message::message_buf::MessageBuf;

/// The most messages that are looked at.
const LOOKS: usize = 64;

/// Whether the message at `index` is superseded by the one right behind it.
fn is_passed<A: Allocator + Copy>(buffer: &MessageBuf<A>, pins: &Pins<A>, index: usize) -> bool
    requires { index + 1 < length buffer.now.messages }
{
    let _known = buffer.len();
    hides(pins, buffer.message(index), buffer.message(index + 1))
}

/// Whether more than a quarter of some messages, evenly spread, are superseded by those right behind them.
pub(crate) fn is_promising<A: Allocator + Copy>(buffer: &MessageBuf<A>, pins: &Pins<A>) -> bool {
    let len = buffer.len();
    let step = len / LOOKS + 1;
    let (mut at, mut looks, mut found) = (0_usize, 0_usize, 0_usize);
    while at + 1 < len {
        looks += 1;
        if is_passed(buffer, pins, at) {
            found += 1;
        }
        at += step;
    }
    4 * found > looks
}
