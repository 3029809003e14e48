//! A leaf's rows after a batch of messages.
ghost use Rattle.std.specs.Prelude.{◌≡◌, ◌+◌, ◌<◌, ◌≤◌, List, [], ◌∷◌, ◌++◌, map, reverse, length, slice_get, IfOk, OnOk, if◌then◌else◌, ◌==◌, ◌&&◌, nat_le, nat_lt};
ghost use Rattle.std.specs.List.{list_any};
ghost use Rattle.std.specs.Option.{option_map};
ghost use Rattle.stow_tree_model.specs.Keys.{tenant_of};
ghost use Rattle.stow_tree_model.specs.Merged.{begins_with, is_pin_within, is_kept, version_at, merged_history, merged};
ghost use Rattle.stow_tree_model.specs.Order.{MessagesRise};
ghost use Rattle.stow_tree_model.specs.Pin.{pins_of};
ghost use Rattle.stow_tree_model.specs.TreeMessage.{message_of};
ghost use Rattle.stow_tree_model.specs.Version.{version_of};
ghost use Rattle.stow_tree_model.specs.VersionBuf.{version_of_buf};

use super::fold::outcome_of;
use super::sorting::{row_messages, with_messages};
use crate::in_order::{ends_in, nth};
use crate::message::Message;
use crate::pin::Pin;
use crate::tenant_key::TenantKey;
use crate::tenant_key_buf::TenantKeyBuf;
use crate::version::Version;
use crate::version_buf::VersionBuf;
use std::alloc::{AllocError, Allocator};
use stow_bytes::byte_string::ByteString;

/// A leaf's rows after a batch under pins, in order. Where rows and batch have a number of one key, it is the batch's.
pub fn merge<'a, A: Allocator + Copy>(
    alloc: A,
    rows: &[Version<'a>],
    batch: &[Message<'a>],
    pins: &[Pin],
) -> Result<Vec<VersionBuf<A>, A>, AllocError>
    ensures { IfOk result (λ vs. map version_of_buf vs.items
        ≡ merged (map version_of rows.now) (map message_of batch.now) (pins_of pins.now)) }
{
    let row_messages = row_messages(alloc, rows)?;
    let sorted = with_messages(alloc, Vec::new(alloc), row_messages.as_slice())?;
    let joined = with_messages(alloc, sorted, batch)?;
    prune(alloc, joined.as_slice(), pins)
}

/// Folds the operations of each key, and keeps what a pin shows and the newest.
fn prune<A: Allocator + Copy>(
    alloc: A,
    joined: &[Message<'_>],
    pins: &[Pin],
) -> Result<Vec<VersionBuf<A>, A>, AllocError>
    requires { MessagesRise (map message_of joined.now) }
    ensures { IfOk result (λ vs. map version_of_buf vs.items
        ≡ reverse (merged_history (pins_of pins.now) (reverse (map message_of joined.now)))) }
{
    let mut versions = Vec::new(alloc);
    let mut value: Option<ByteString<A>> = None;
    let mut has_older = false;
    for i in 0..joined.len() {
        let message = joined[i];
        let follows = ends_in(&joined[..i], message.key);
        let before = if follows { value } else { None };
        value = outcome_of(alloc, message.op, before)?;
        let has = follows && has_older;
        let is_kept = keeps(pins, nth(joined, i + 1), message);
        let is_added = is_kept && (has || value.is_some());
        add(alloc, &mut versions, is_added, message, &value)?;
        has_older = is_kept || has;
    }
    Ok(versions)
}

/// Adds a message's version, if it is to be.
fn add<A: Allocator + Copy>(
    alloc: A,
    versions: &mut Vec<VersionBuf<A>, A>,
    is_added: bool,
    message: Message<'_>,
    value: &Option<ByteString<A>>,
) -> Result<(), AllocError>
    ensures { let old = map version_of_buf versions.old.items in
        let added = version_at (message_of message.entry) value.now in
        OnOk result (map version_of_buf versions.new.items
        ≡ (if is_added then old ++ added ∷ [] else old)) }
{
    if is_added {
        versions.push(VersionBuf {
            key: TenantKeyBuf::from_key(alloc, message.key)?,
            number: message.number,
            value: copy(alloc, value)?,
        })?;
    }
    Ok(())
}

fn copy<A: Allocator + Copy>(
    alloc: A,
    value: &Option<ByteString<A>>,
) -> Result<Option<ByteString<A>>, AllocError>
    ensures { IfOk result (λ v. v ≡ value.now) }
{
    match value {
        None => Ok(None),
        Some(bytes) => Ok(Some(ByteString::from_slice(alloc, bytes.as_slice())?)),
    }
}

/// Whether a message is the newest of its key, or a pin shows it.
fn keeps(pins: &[Pin], newer: Option<Message<'_>>, message: Message<'_>) -> bool
    ensures { result
        ≡ is_kept (pins_of pins.now) (option_map message_of newer.entry)
        (message_of message.entry) }
{
    match newer {
        None => true,
        Some(newer) => {
            !newer.key.is_same(message.key)
                || pin_within(pins, message.key.tenant(), message.number, newer.number)
        }
    }
}

/// Whether a pin of the tenant stands from one number on and below another.
fn pin_within(pins: &[Pin], tenant: u32, from: u64, to: u64) -> bool
    ensures { result ≡ is_pin_within (pins_of pins.now tenant) from to }
{
    any_within(pins, tenant, from, to)
}

fn any_within(pins: &[Pin], tenant: u32, from: u64, to: u64) -> bool
    ensures { result
        ≡ list_any (λ p. (p.tenant == tenant)
        && (nat_le from p.number && nat_lt p.number to)) pins.now }
{
    pins.iter().any(|p| p.tenant == tenant && (from <= p.number && p.number < to))
}
