//! Messages in order, and what stands beside one of them.
ghost use Rattle.std.specs.Prelude.{◌≡◌, ◌<◌, map, reverse, length, slice_get};
ghost use Rattle.std.specs.Option.{option_map};
ghost use Rattle.stow_tree_model.specs.Merged.{begins_with};
ghost use Rattle.stow_tree_model.specs.TreeMessage.{message_of};

use crate::message::Message;
use crate::tenant_key::TenantKey;

/// The message at this place in the order, if there is one.
pub fn nth<'a>(messages: &[Message<'a>], i: usize) -> Option<Message<'a>>
    ensures { option_map message_of result ≡ slice_get (map message_of messages.now) i }
{
    if i < messages.len() {
        Some(messages[i])
    } else {
        None
    }
}

/// Whether the last message is of the key.
pub fn ends_in(messages: &[Message<'_>], key: TenantKey<'_>) -> bool
    ensures { result ≡ begins_with key.entry.bytes.now (reverse (map message_of messages.now)) }
{
    match messages.last() {
        None => false,
        Some(last) => key.is_same(last.key),
    }
}
