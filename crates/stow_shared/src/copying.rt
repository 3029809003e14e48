//! Copies of words and replies.
ghost use Rattle.std.specs.Prelude.{◌≡◌, IfOk};
ghost use Rattle.stow_model.specs.Reply.{reply_of};

use std::alloc::{AllocError, Allocator};
use stow_bytes::byte_string::ByteString;
use stow_model::item::Item;
use stow_model::items::Items;
use stow_model::reply::Reply;
use stow_model::words::Words;

/// A copy of words.
pub fn copied_words<A: Allocator + Copy>(alloc: A, words: &Words<A>) -> Result<Words<A>, AllocError>
    ensures { IfOk result (λ copy. copy ≡ words.now) }
{
    let mut copy = Words::new(alloc);
    for index in 0..words.len() {
        copy.push(words.lent().get(index))?;
    }
    Ok(copy)
}

/// A copy of an array's replies.
fn copied_items<A: Allocator + Copy>(alloc: A, items: &Items<A>) -> Result<Items<A>, AllocError>
    ensures { IfOk result (λ copy. copy ≡ items.now) }
{
    let mut copy = Items::new(alloc);
    for index in 0..items.len() {
        match items.get(index) {
            Item::Integer(number) => copy.push_integer(number)?,
            Item::Bulk(bytes) => copy.push_bulk(bytes)?,
            Item::Null => copy.push_null()?,
        }
    }
    Ok(copy)
}

/// A copy of a reply.
pub(crate) fn copied_reply<A: Allocator + Copy>(
    alloc: A,
    reply: &Reply<A>,
) -> Result<Reply<A>, AllocError>
    ensures { IfOk result (λ copy. reply_of copy ≡ reply_of reply.now) }
{
    Ok(match reply {
        Reply::Simple(text) => Reply::Simple(*text),
        Reply::Error(refusal) => Reply::Error(*refusal),
        Reply::ProtocolError(fault) => Reply::ProtocolError(*fault),
        Reply::Integer(number) => Reply::Integer(*number),
        Reply::Bulk(bytes) => Reply::Bulk(ByteString::from_slice(alloc, bytes.as_slice())?),
        Reply::Null => Reply::Null,
        Reply::Array(items) => Reply::Array(copied_items(alloc, items)?),
    })
}
