//! A part of a buffer's messages once more.
ghost use Rattle.std.specs.Prelude.{◌≡◌, ◌≤◌, ◌^◌, ◌<◌, IfOk};
ghost use Rattle.std.specs.List.{sum_by};
ghost use Rattle.stow_message.specs.MessageBuf.{message_list};
ghost use Rattle.stow_message.specs.Packed.{message_size};
ghost use Rattle.stow_message.specs.Rising.{in_range};

use crate::message_buf::MessageBuf;
use std::alloc::{AllocError, Allocator};
use stow_tree_model::tenant_key::TenantKey;

/// The messages of the keys from `from` on and below `to`, copied into a buffer of exactly their bytes.
pub fn copied_range<A: Allocator + Copy, B: Allocator>(
    alloc: A,
    buffer: &MessageBuf<B>,
    from: TenantKey<'_>,
    to: TenantKey<'_>,
) -> Result<MessageBuf<A>, AllocError>
    requires small { buffer.now.capacity < 2 ^ 32 }
    ensures { IfOk result (λ copy. copy ≡ message_list
        (in_range from.entry.bytes.now to.entry.bytes.now buffer.now.messages)
        (sum_by message_size
        (in_range from.entry.bytes.now to.entry.bytes.now buffer.now.messages))
        (sum_by message_size
        (in_range from.entry.bytes.now to.entry.bytes.now buffer.now.messages))) }
{
    let _known = (buffer.len(), buffer.used());
    let bytes = buffer.range_bytes(from, to);
    let mut copy = MessageBuf::with_capacity(alloc, bytes)?;
    copy.push_all(&buffer.in_range(from, to));
    Ok(copy)
}
