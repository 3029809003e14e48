//! The head of a packed message: the one place that knows its layout, its size and the kinds of operations.
ghost use Rattle.std.specs.Prelude.{◌≡◌, ◌+◌, ◌≤◌, ◌<◌, length, take};
ghost use Rattle.stow_tree_model.specs.StowBytes.Limits.{value_limit};
ghost use Rattle.stow_tree_model.specs.Op.{op_of, bytes_in};
ghost use Rattle.stow_tree_model.specs.TreeMessage.{message_of};
ghost use Rattle.stow_message.specs.Packed.{kind_of, op_by, head_of, message_size, key_len_at, number_at, kind_at, value_len_at};

use stow_tree_model::message::Message;
use stow_tree_model::op::Op;

/// Bytes of a head.
pub(crate) const HEAD: usize = 15;

/// Bytes of a slot.
pub(crate) const SLOT: usize = 4;

/// Bytes of a message beside its key and its value: its head and its slot.
pub(crate) const OVERHEAD: usize = 19;

/// What a head tells.
#[derive(Clone, Copy)]
pub(crate) struct Head {
    pub(crate) key_len: usize,
    pub(crate) number: u64,
    pub(crate) kind: u8,
    pub(crate) value_len: usize,
}

/// The number that stands for the operation.
pub(crate) fn kind(op: Op<'_>) -> u8
    ensures { result ≡ kind_of (op_of op.entry) }
{
    match op {
        Op::Put(_) => 0,
        Op::Gone => 1,
        Op::Append(_) => 2,
    }
}

/// The operation of a kind, with the bytes that it carries.
pub(crate) fn op_with(kind: u8, bytes: &[u8]) -> Op<'_>
    ensures { op_of result ≡ op_by kind bytes.now }
{
    match kind {
        0 => Op::Put(bytes),
        1 => Op::Gone,
        _ => Op::Append(bytes),
    }
}

/// How many bytes a message takes in a buffer.
pub fn size(message: Message<'_>) -> usize
    ensures { result ≡ message_size (message_of message.entry) }
{
    OVERHEAD + message.key.bytes.len() + message.op.carried().len()
}

pub(crate) fn write_head(message: Message<'_>) -> [u8; HEAD]
    ensures { result ≡ head_of (message_of message.entry) }
{
    let key_len = (message.key.bytes.len() as u16).to_be_bytes();
    let number = message.number.to_be_bytes();
    let value_len = (message.op.carried().len() as u32).to_be_bytes();
    [
        key_len[0],
        key_len[1],
        number[0],
        number[1],
        number[2],
        number[3],
        number[4],
        number[5],
        number[6],
        number[7],
        kind(message.op),
        value_len[0],
        value_len[1],
        value_len[2],
        value_len[3],
    ]
}

/// The length of the key.
pub(crate) fn read_key_len(bytes: &[u8]) -> usize
    requires { 2 ≤ length bytes.now }
    ensures { result ≡ key_len_at bytes.now }
{
    u16::from_be_bytes([bytes[0], bytes[1]]) as usize
}

/// The number of the write.
pub(crate) fn read_number(bytes: &[u8]) -> u64
    requires { 10 ≤ length bytes.now }
    ensures { result ≡ number_at bytes.now }
{
    u64::from_be_bytes([
        bytes[2], bytes[3], bytes[4], bytes[5], bytes[6], bytes[7], bytes[8], bytes[9],
    ])
}

pub(crate) fn read_head(bytes: &[u8]) -> Head
    requires { 15 ≤ length bytes.now }
    ensures key_len { result.key_len ≡ key_len_at bytes.now }
    ensures number { result.number ≡ number_at bytes.now }
    ensures kind { result.kind ≡ kind_at bytes.now }
    ensures value_len { result.value_len ≡ value_len_at bytes.now }
{
    Head {
        key_len: read_key_len(bytes),
        number: read_number(bytes),
        kind: bytes[10],
        value_len: u32::from_be_bytes([bytes[11], bytes[12], bytes[13], bytes[14]]) as usize,
    }
}
