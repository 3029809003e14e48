//! What replies are written as.
use std::alloc::{AllocError, Allocator};
use std::test::Fail;
use stow_bytes::byte_string::ByteString;
use stow_model::items::Items;
use stow_model::refusal::Refusal;
use stow_model::reply::Reply;
use stow_model::simple_string::SimpleString;
use stow_model::stream_fault::StreamFault;
use stow_resp::encode::Encode;

/// What each reply that `reply_of` makes is written as.
const WRITTEN: [&[u8]; 11] = [
    b"+OK\r\n",
    b"+PONG\r\n",
    b"-ERR unknown command\r\n",
    b"-ERR Protocol error: invalid bulk length\r\n",
    b":0\r\n",
    b":-9223372036854775808\r\n",
    b"$0\r\n\r\n",
    b"$2\r\nv1\r\n",
    b"$-1\r\n",
    b"*0\r\n",
    b"*2\r\n$1\r\na\r\n:7\r\n",
];

/// A reply of each kind.
fn reply_of<A: Allocator + Copy>(alloc: A, number: usize) -> Result<Reply<A>, AllocError> {
    Ok(match number {
        0 => Reply::Simple(SimpleString::Ok),
        1 => Reply::Simple(SimpleString::Pong),
        2 => Reply::Error(Refusal::UnknownCommand),
        3 => Reply::ProtocolError(StreamFault::InvalidBulkLength),
        4 => Reply::Integer(0),
        5 => Reply::Integer(i64::MIN),
        6 => Reply::Bulk(ByteString::from_slice(alloc, b"")?),
        7 => Reply::Bulk(ByteString::from_slice(alloc, b"v1")?),
        8 => Reply::Null,
        9 => Reply::Array(Items::new(alloc)),
        _ => pair(alloc)?,
    })
}

/// An array of two replies.
pub(crate) fn pair<A: Allocator + Copy>(alloc: A) -> Result<Reply<A>, AllocError> {
    let mut items = Items::new(alloc);
    items.push_bulk(b"a")?;
    items.push_integer(7)?;
    Ok(Reply::Array(items))
}

/// Whether a reply is written as these bytes.
fn is_written<A: Allocator + Copy>(
    alloc: A,
    number: usize,
    bytes: &[u8],
) -> Result<bool, AllocError> {
    let mut out = Vec::new(alloc);
    reply_of(alloc, number)?.write(&mut out)?;
    Ok(out.as_slice() == bytes)
}

#[test]
fn replies(rt: HostRuntime) -> Result<(), Fail> {
    for (number, bytes) in WRITTEN.iter().enumerate() {
        assert!(rt; is_written(rt.alloc(), number, bytes)?, "reply {number}");
    }
    Ok(())
}
