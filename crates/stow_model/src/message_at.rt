//! One request at the front of a stream's bytes.
ghost use Rattle.std.specs.Prelude.{◌≡◌, ◌<◌, ◌≤◌, false, ℕ, List, ◌∷◌, ◌++◌, IfOk};
ghost use Rattle.stow_model.specs.Wire.{array_line, begins_array};
ghost use Rattle.stow_model.specs.Reader.{IsMessageAt};

use crate::bulk_at::{BulkAt, bulk};
use crate::inline_at::{InlineAt, inline, inline_message};
use crate::message::Message;
use crate::number_at::{NumberAt, number};
use crate::stream_fault::StreamFault;
use crate::words::Words;
use std::alloc::{AllocError, Allocator, Global};

/// What is found at the front of a stream's bytes.
#[derive(Drop)]
pub enum MessageAt<'a, A: Allocator = Global> {
    /// The message, and what comes after it.
    Message(Message<A>, &'a [u8]),
    /// The bytes begin a message, and aren't all of it.
    More,
    /// They can become none.
    Faulty(StreamFault),
}

/// The message at the front of the bytes.
pub fn message_at<A: Allocator + Copy>(
    alloc: A,
    bytes: &[u8],
) -> Result<MessageAt<'_, A>, AllocError>
    ensures { IfOk result (λ found. IsMessageAt bytes.now found) }
{
    let Some((sign, after)) = bytes.split_first() else {
        return Ok(MessageAt::More);
    };
    if *sign != b'*' {
        return in_line(alloc, bytes);
    }
    match after.split_first() {
        None => Ok(MessageAt::More),
        Some((first, rest)) => {
            if *first == b'-' {
                return Ok(null_line(rest));
            }
            array(alloc, after)
        }
    }
}

/// What is found where no array begins.
fn in_line<A: Allocator + Copy>(alloc: A, bytes: &[u8]) -> Result<MessageAt<'_, A>, AllocError>
    requires { begins_array bytes.now ≡ false }
    ensures { IfOk result (λ found. IsMessageAt bytes.now found) }
{
    match inline(bytes, 0) {
        InlineAt::Line(line, rest) => Ok(MessageAt::Message(inline_message(alloc, line)?, rest)),
        InlineAt::More => Ok(MessageAt::More),
        InlineAt::TooLong => Ok(MessageAt::Faulty(StreamFault::InlineTooLong)),
    }
}

/// What is found after the first two bytes of a null array's line.
fn null_line<A: Allocator>(rest: &[u8]) -> MessageAt<'_, A>
    ensures { IsMessageAt (42 ∷ 45 ∷ rest.now) result }
{
    let Some((one, after_one)) = rest.split_first() else {
        return MessageAt::More;
    };
    if *one != b'1' {
        return MessageAt::Faulty(StreamFault::InvalidArrayLength);
    }
    let Some((carriage_return, after_return)) = after_one.split_first() else {
        return MessageAt::More;
    };
    if *carriage_return != b'\r' {
        return MessageAt::Faulty(StreamFault::InvalidArrayLength);
    }
    let Some((line_feed, later)) = after_return.split_first() else {
        return MessageAt::More;
    };
    if *line_feed != b'\n' {
        return MessageAt::Faulty(StreamFault::InvalidArrayLength);
    }
    MessageAt::Message(Message::Blank, later)
}

/// What is found after the first byte of an array, where a count is to stand.
fn array<A: Allocator + Copy>(alloc: A, after: &[u8]) -> Result<MessageAt<'_, A>, AllocError>
    requires { (later : List ℕ) → after.now ≡ 45 ∷ later → ⊥ }
    ensures { IfOk result (λ found. IsMessageAt (42 ∷ after.now) found) }
{
    match number(after, 1024) {
        NumberAt::Number(count, rest) => {
            if count == 0 {
                return Ok(MessageAt::Message(Message::Blank, rest));
            }
            elements(alloc, rest, count)
        }
        NumberAt::More => Ok(MessageAt::More),
        NumberAt::Stuck => Ok(MessageAt::Faulty(StreamFault::InvalidArrayLength)),
    }
}

/// What is found after the line that says how many words there are.
fn elements<A: Allocator + Copy>(
    alloc: A,
    rest: &[u8],
    count: u32,
) -> Result<MessageAt<'_, A>, AllocError>
    requires some { 0 < count }
    requires few { count ≤ 1024 }
    ensures { IfOk result (λ found. IsMessageAt (array_line count ++ rest.now) found) }
{
    let mut words = Words::new(alloc);
    let mut left = rest;
    for index in 0..count {
        match bulk(left) {
            BulkAt::Bulk(word, after) => {
                words.push(word)?;
                left = after;
            }
            BulkAt::More => return Ok(MessageAt::More),
            BulkAt::Stuck(fault) => return Ok(MessageAt::Faulty(fault)),
        }
    }
    Ok(MessageAt::Message(Message::Words(words), left))
}
