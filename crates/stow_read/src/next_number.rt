//! The next number of a key.
ghost use Rattle.std.specs.Prelude.{map};
ghost use Rattle.stow_tree_model.specs.Merged.{row_message};
ghost use Rattle.stow_tree_model.specs.Messages.{ops_in};
ghost use Rattle.stow_read.specs.Walk.{IsNumberAfter};

use std::alloc::Allocator;
use stow_node::stow_message::message_buf::MessageBuf;
use stow_node::stow_page::rows::Rows;
use stow_tree_model::tenant_key::TenantKey;

/// The least number above this one of the key's messages in a buffer. It is found the faster the nearer the guess is to
/// their place.
pub(crate) fn number_in_buffer<A: Allocator>(
    buffer: &MessageBuf<A>,
    key: TenantKey<'_>,
    at: u64,
    guess: usize,
) -> Option<u64>
    ensures { IsNumberAfter (ops_in buffer.now.messages key.entry.bytes.now) at result }
{
    let place = buffer.count_below(key, at.saturating_add(1), guess);
    if place >= buffer.len() {
        return None;
    }
    let message = buffer.message(place);
    if message.key.is_same(key) {
        Some(message.number)
    } else {
        None
    }
}

/// The least number above this one of the key's rows in a leaf. It is found the faster the nearer the guess is to their
/// place.
pub(crate) fn number_in_rows<A: Allocator>(
    rows: &Rows<A>,
    key: TenantKey<'_>,
    at: u64,
    guess: usize,
) -> Option<u64>
    ensures { IsNumberAfter (ops_in (map row_message rows.now) key.entry.bytes.now) at result }
{
    let len = rows.len();
    let place = rows.count_near(key, at, guess);
    if place >= len {
        return None;
    }
    let version = rows.get(place);
    if version.key.is_same(key) {
        Some(version.number)
    } else {
        None
    }
}
