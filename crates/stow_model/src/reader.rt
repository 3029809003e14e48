//! A plain reader of streams: slow, and as the definitions say it.
ghost use Rattle.std.specs.Prelude.{◌≤◌, length, drop, map, IfOk};
ghost use Rattle.stow_model.specs.Message.{message_of};
ghost use Rattle.stow_model.specs.Wire.{Splits};
ghost use Rattle.stow_model.specs.Reader.{IsRest};

use crate::message_at::{MessageAt, message_at};
use crate::stream_read::StreamRead;
use crate::stream_rest::StreamRest;
use std::alloc::{AllocError, Allocator};

/// Reads the whole messages of a stream, and says what stands after them.
pub fn read_stream<A: Allocator + Copy>(alloc: A, bytes: &[u8]) -> Result<StreamRead<A>, AllocError>
    ensures used { IfOk result (λ read. read.used ≤ length bytes.now) }
    ensures splits { IfOk result
        (λ read. Splits bytes.now (map message_of read.messages.items) (drop read.used bytes.now)) }
    ensures rest { IfOk result (λ read. IsRest (drop read.used bytes.now) read.rest) }
{
    let mut messages = Vec::new(alloc);
    let mut left = bytes;
    loop {
        match message_at(alloc, left)? {
            MessageAt::Message(message, after) => {
                messages.push(message)?;
                left = after;
            }
            MessageAt::More => {
                return Ok(StreamRead {
                    messages,
                    used: bytes.len() - left.len(),
                    rest: StreamRest::Waits,
                });
            }
            MessageAt::Faulty(fault) => {
                return Ok(StreamRead {
                    messages,
                    used: bytes.len() - left.len(),
                    rest: StreamRest::Faulty(fault),
                });
            }
        }
    }
}
