//! What a key has at a number.
ghost use Rattle.std.specs.Prelude.{◌≡◌, ◌≤◌, List, map, IfOk};
ghost use Rattle.std.specs.Option.{option_map};
ghost use Rattle.stow_tree_model.specs.Messages.{set_of, value};
ghost use Rattle.stow_tree_model.specs.NumberedValue.{numbered_of};
ghost use Rattle.stow_tree_model.specs.Operations.{numbered};
ghost use Rattle.stow_tree_model.specs.TreeMessage.{message_of};

use super::fold::outcome_of;
use super::sorting::with_messages;
use crate::message::Message;
use crate::numbered_value::NumberedValue;
use crate::tenant_key::TenantKey;
use std::alloc::{AllocError, Allocator};
use stow_bytes::byte_string::ByteString;

/// What the messages give a key at a number. Of two messages of one key and number the first counts.
pub fn value_of_key<A: Allocator + Copy>(
    alloc: A,
    messages: &[Message<'_>],
    key: TenantKey<'_>,
    number: u64,
) -> Result<Option<NumberedValue<A>>, AllocError>
    ensures { IfOk result (λ v. option_map numbered_of v
        ≡ value (set_of (map message_of messages.now)) key.entry.bytes.now number) }
{
    let sorted = with_messages(alloc, Vec::new(alloc), messages)?;
    let mut found: Option<ByteString<A>> = None;
    let mut at = 0;
    let ordered = sorted.as_slice();
    for message in ordered {
        if key.is_same(message.key) && message.number <= number {
            found = outcome_of(alloc, message.op, found)?;
            at = message.number;
        }
    }
    Ok(with_number(at, found))
}

fn with_number<A: Allocator + Copy>(
    number: u64,
    found: Option<ByteString<A>>,
) -> Option<NumberedValue<A>>
    ensures { option_map numbered_of result ≡ numbered number found }
{
    match found {
        None => None,
        Some(value) => Some(NumberedValue { number, value }),
    }
}
