//! Replies as texts.
use std::alloc::{AllocError, Allocator};
use stow_bytes::limits::KEY_LIMIT;
use stow_model::item::Item;
use stow_model::items::Items;
use stow_model::refusal::refusal_text;
use stow_model::reply::Reply;
use stow_model::simple_string::SimpleString;
use stow_model::stream_fault::fault_text;

/// Whether a key is the last that there can be.
fn is_last(bytes: &[u8]) -> bool {
    bytes.len() == KEY_LIMIT && bytes[0] == 0xff && bytes[KEY_LIMIT - 1] == 0xff
}

/// Adds a bulk string, by its name where it is the last key that there can be.
fn push_bulk<A: Allocator>(text: &mut Vec<u8, A>, bytes: &[u8]) -> Result<(), AllocError> {
    text.push(b'$')?;
    text.extend_from_slice(if is_last(bytes) { b"LAST" } else { bytes })
}

fn push_item<A: Allocator + Copy>(
    text: &mut Vec<u8, A>,
    alloc: A,
    item: Item<'_>,
) -> Result<(), AllocError> {
    match item {
        Item::Integer(n) => text.extend_from_slice(format!(in alloc; ":{n}")?.as_bytes()),
        Item::Bulk(bytes) => push_bulk(text, bytes),
        Item::Null => text.extend_from_slice(b"nil"),
    }
}

fn push_items<A: Allocator + Copy>(
    text: &mut Vec<u8, A>,
    alloc: A,
    items: &Items<A>,
) -> Result<(), AllocError> {
    text.push(b'[')?;
    for index in 0..items.len() {
        push_item(text, alloc, items.get(index))?;
        text.push(b' ')?;
    }
    text.push(b']')?;
    Ok(())
}

/// A reply's text: `$` before a bulk string, `:` before an integer, brackets around an array.
pub fn reply_text<A: Allocator + Copy>(
    alloc: A,
    reply: &Reply<A>,
) -> Result<Vec<u8, A>, AllocError> {
    let mut text = Vec::new(alloc);
    match reply {
        Reply::Simple(SimpleString::Ok) => text.extend_from_slice(b"OK")?,
        Reply::Simple(SimpleString::Pong) => text.extend_from_slice(b"PONG")?,
        Reply::Error(refusal) => text.extend_from_slice(refusal_text(*refusal))?,
        Reply::ProtocolError(fault) => text.extend_from_slice(fault_text(*fault))?,
        Reply::Integer(n) => push_item(&mut text, alloc, Item::Integer(*n))?,
        Reply::Bulk(bytes) => push_item(&mut text, alloc, Item::Bulk(bytes.as_slice()))?,
        Reply::Null => push_item(&mut text, alloc, Item::Null)?,
        Reply::Array(items) => push_items(&mut text, alloc, items)?,
    }
    Ok(text)
}

/// Whether a reply has this text.
pub fn is_text<A: Allocator + Copy>(
    alloc: A,
    reply: &Reply<A>,
    want: &str,
) -> Result<bool, AllocError> {
    Ok(reply_text(alloc, reply)?.as_slice() == want.as_bytes())
}
