//! What a merge keeps of the joined messages.
ghost use Rattle.std.specs.Prelude.{◌≡◌, ◌+◌, ◌<◌, ◌≤◌, ◌&&◌, ◌++◌, ◌∷◌, [], List, map, reverse, length, slice_get, IfOk, OnOk, if◌then◌else◌, nat_le, nat_lt};
ghost use Rattle.std.specs.List.{list_any};
ghost use Rattle.std.specs.Option.{option_map};
ghost use Rattle.stow_merge.specs.KeptVersion.{kept_version, start_after, is_of_key};
ghost use Rattle.stow_merge.specs.Pins.{pins_in};
ghost use Rattle.stow_page.specs.StowTreeModel.Merged.{begins_with, is_pin_within, is_kept, merged_history};
ghost use Rattle.stow_page.specs.StowTreeModel.Op.{op_of};
ghost use Rattle.stow_page.specs.StowTreeModel.Order.{MessagesRise};
ghost use Rattle.stow_page.specs.StowTreeModel.TreeMessage.{message_of};

use crate::kept_version::KeptVersion;
use crate::pins::Pins;
use std::alloc::{AllocError, Allocator};
use stow_page::stow_tree_model::in_order::nth;
use stow_page::stow_tree_model::message::Message;
use stow_page::stow_tree_model::op::Op;
use stow_page::stow_tree_model::tenant_key::TenantKey;

/// For how many versions there is room from the start; a longer list grows. With room for all of them a store that was loaded in ascending order
/// took a fifth more memory.
const MANY: usize = 8_192;

/// What stays of messages in order under pins, in order.
pub fn keep<'a, A: Allocator + Copy, B: Allocator + Copy>(
    alloc: A,
    joined: &[Message<'a>],
    pins: &Pins<B>,
) -> Result<Vec<KeptVersion<'a>, A>, AllocError>
    requires { MessagesRise (map message_of joined.now) }
    ensures { IfOk result (λ ks. map (kept_version (map message_of joined.now)) ks.items
        ≡ reverse (merged_history (pins_in pins.now) (reverse (map message_of joined.now)))) }
{
    let mut kept = Vec::with_capacity(alloc, joined.len().min(MANY))?;
    let mut follows = false;
    let mut start = None;
    let mut has_older = false;
    for i in 0..joined.len() {
        let message = joined[i];
        let before = if follows { start } else { None };
        start = after(i, message.op, before);
        let has = follows && has_older;
        let newer = nth(joined, i + 1);
        let is_followed = is_of_key(newer, message.key);
        let is_kept = keeps(pins, newer, is_followed, message);
        let is_added = is_kept && (has || start.is_some());
        let version = KeptVersion {
            key: message.key,
            number: message.number,
            from: start,
            to: i + 1,
        };
        add(&mut kept, is_added, version)?;
        has_older = is_kept || has;
        follows = is_followed;
    }
    Ok(kept)
}

/// Adds a version, if it is to be.
fn add<'a, A: Allocator + Copy>(
    kept: &mut Vec<KeptVersion<'a>, A>,
    is_added: bool,
    version: KeptVersion<'a>,
) -> Result<(), AllocError>
    ensures { OnOk result (kept.new.items
        ≡ (if is_added then kept.old.items ++ version.entry ∷ [] else kept.old.items)) }
{
    if is_added {
        kept.push(version)?;
    }
    Ok(())
}

/// Where the bytes of a key's value begin after one more operation.
fn after(at: usize, op: Op<'_>, before: Option<usize>) -> Option<usize>
    ensures { result ≡ start_after at (op_of op.entry) before }
{
    match op {
        Op::Put(_) => Some(at),
        Op::Gone => None,
        Op::Append(_) => Some(before.unwrap_or(at)),
    }
}

/// Whether there is a next newer message, and it is of the key.
fn is_of_key(newer: Option<Message<'_>>, key: TenantKey<'_>) -> bool
    ensures { result ≡ is_of_key key.entry.bytes.now (option_map message_of newer.entry) }
{
    match newer {
        None => false,
        Some(newer) => newer.key.is_same(key),
    }
}

/// Whether a message is the newest of its key, or a pin shows it.
fn keeps<B: Allocator + Copy>(
    pins: &Pins<B>,
    newer: Option<Message<'_>>,
    is_followed: bool,
    message: Message<'_>,
) -> bool
    requires { is_followed ≡ is_of_key message.key.bytes.now (option_map message_of newer) }
    ensures { result
        ≡ is_kept (pins_in pins.now) (option_map message_of newer.entry)
        (message_of message.entry) }
{
    match newer {
        None => true,
        Some(newer) => {
            !is_followed || pin_within(pins.of(message.key.tenant()), message.number, newer.number)
        }
    }
}

/// Whether a pin stands from one number on and below another.
fn pin_within(pins: &[u64], from: u64, to: u64) -> bool
    ensures { result ≡ is_pin_within pins.now from to }
{
    pins.iter().any(|p| from <= *p && *p < to)
}
