//! The bytes of replies.
ghost use Rattle.std.specs.Prelude.{◌≡◌, ◌++◌, List, ℕ, codes, OnOk, OnErr};
ghost use Rattle.stow_model.specs.Item.{item_of, item_encoding, integer_encoding, bulk_encoding, line};
ghost use Rattle.stow_model.specs.Reply.{reply_of, encoding, Array};
ghost use Rattle.stow_model.specs.Texts.{fault_text};
ghost use Rattle.stow_resp.specs.Extends.{Extends};

use itoa::Buffer;
use std::alloc::{AllocError, Allocator};
use stow_model::item::Item;
use stow_model::items::Items;
use stow_model::refusal::refusal_text;
use stow_model::reply::Reply;
use stow_model::simple_string::SimpleString;
use stow_model::stream_fault::{StreamFault, fault_text};

/// What has bytes on the wire.
pub trait Encode {
    ghost spelling: { Self → List ℕ };

    /// Writes all of the bytes behind those of `out`, or nothing.
    fn write<B: Allocator>(&self, out: &mut Vec<u8, B>) -> Result<(), AllocError>
        ensures ok { OnOk result (out.new.items ≡ out.old.items ++ spelling self.now) }
        ensures err { OnErr result (out.new.items ≡ out.old.items) };
}

impl<A: Allocator> Encode for Reply<A> {
    ghost spelling = { λ reply. encoding (reply_of reply) };

    fn write<B: Allocator>(&self, out: &mut Vec<u8, B>) -> Result<(), AllocError> {
        let start = out.len();
        let written = write_reply(self, out);
        if written.is_err() {
            out.truncate(start);
        }
        written
    }
}

fn write_reply<A: Allocator, B: Allocator>(
    reply: &Reply<A>,
    out: &mut Vec<u8, B>,
) -> Result<(), AllocError>
    ensures ok { OnOk result (out.new.items ≡ out.old.items ++ encoding (reply_of reply.now)) }
    ensures keeps { Extends out.old.items out.new.items }
{
    match reply {
        Reply::Simple(SimpleString::Ok) => out.extend_from_slice(b"+OK\r\n"),
        Reply::Simple(SimpleString::Pong) => out.extend_from_slice(b"+PONG\r\n"),
        Reply::Error(refusal) => write_line(b'-', refusal_text(*refusal), out),
        Reply::ProtocolError(fault) => write_protocol_error(*fault, out),
        Reply::Integer(number) => write_integer(*number, out),
        Reply::Bulk(bytes) => write_bulk(bytes.as_slice(), out),
        Reply::Null => out.extend_from_slice(b"$-1\r\n"),
        Reply::Array(items) => write_array(items, out),
    }
}

fn write_protocol_error<B: Allocator>(
    fault: StreamFault,
    out: &mut Vec<u8, B>,
) -> Result<(), AllocError>
    ensures ok { OnOk result (out.new.items
        ≡ out.old.items ++ line 45 (codes "ERR Protocol error: " ++ fault_text fault)) }
    ensures keeps { Extends out.old.items out.new.items }
{
    out.extend_from_slice(b"-ERR Protocol error: ")?;
    out.extend_from_slice(fault_text(fault))?;
    out.extend_from_slice(b"\r\n")?;
    Ok(())
}

fn write_array<A: Allocator, B: Allocator>(
    items: &Items<A>,
    out: &mut Vec<u8, B>,
) -> Result<(), AllocError>
    ensures ok { OnOk result (out.new.items ≡ out.old.items ++ encoding (Array items.now)) }
    ensures keeps { Extends out.old.items out.new.items }
{
    write_line(b'*', Buffer::new().format(items.len()).as_bytes(), out)?;
    for index in 0..items.len() {
        write_item(items.get(index), out)?;
    }
    Ok(())
}

fn write_item<B: Allocator>(item: Item<'_>, out: &mut Vec<u8, B>) -> Result<(), AllocError>
    ensures ok { OnOk result (out.new.items
        ≡ out.old.items ++ item_encoding (item_of item.entry)) }
    ensures keeps { Extends out.old.items out.new.items }
{
    match item {
        Item::Integer(number) => write_integer(number, out),
        Item::Bulk(bytes) => write_bulk(bytes, out),
        Item::Null => out.extend_from_slice(b"$-1\r\n"),
    }
}

#[inline(always)]
fn write_integer<B: Allocator>(number: i64, out: &mut Vec<u8, B>) -> Result<(), AllocError>
    ensures ok { OnOk result (out.new.items ≡ out.old.items ++ integer_encoding number) }
    ensures keeps { Extends out.old.items out.new.items }
{
    write_line(b':', Buffer::new().format(number).as_bytes(), out)
}

fn write_bulk<B: Allocator>(bytes: &[u8], out: &mut Vec<u8, B>) -> Result<(), AllocError>
    ensures ok { OnOk result (out.new.items ≡ out.old.items ++ bulk_encoding bytes.now) }
    ensures keeps { Extends out.old.items out.new.items }
{
    write_line(b'$', Buffer::new().format(bytes.len()).as_bytes(), out)?;
    out.extend_from_slice(bytes)?;
    out.extend_from_slice(b"\r\n")
}

/// A line: its first byte, a text, CR, LF.
#[inline(always)]
fn write_line<B: Allocator>(sign: u8, text: &[u8], out: &mut Vec<u8, B>) -> Result<(), AllocError>
    ensures ok { OnOk result (out.new.items ≡ out.old.items ++ line sign text.now) }
    ensures keeps { Extends out.old.items out.new.items }
{
    out.push(sign)?;
    out.extend_from_slice(text)?;
    out.extend_from_slice(b"\r\n")
}
