//! All versions of one key.
ghost use Rattle.std.specs.Prelude.{◌≡◌, ◌++◌, ◌∷◌, [], ℕ, map, filter, IfOk, OnOk, option_map};
ghost use Rattle.stow_tree_model.specs.Merged.{same_key, version_at};
ghost use Rattle.stow_tree_model.specs.Messages.{ops_in};
ghost use Rattle.stow_tree_model.specs.Op.{op_of};
ghost use Rattle.stow_tree_model.specs.Operations.{outcome};
ghost use Rattle.stow_tree_model.specs.TreeMessage.{message_of};
ghost use Rattle.stow_tree_model.specs.Value.{bytes_at};
ghost use Rattle.stow_tree_model.specs.Version.{version_of};
ghost use Rattle.stow_tree_model.specs.VersionBuf.{version_of_buf};
ghost use Rattle.stow_node.specs.Subtree.{messages_of};
ghost use Rattle.stow_node.specs.StowPage.Rows.{last_of, value_in_version};
ghost use Rattle.stow_read.specs.Versions.{AreVersionsOf};

use crate::descent::may_hold;
use crate::path::path_of;
use std::alloc::{AllocError, Allocator};
use stow_bytes::byte_string::ByteString;
use stow_node::node::Node;
use stow_node::stow_page::rows::Rows;
use stow_tree_model::message::Message;
use stow_tree_model::op::Op;
use stow_tree_model::tenant_key::TenantKey;
use stow_tree_model::tenant_key_buf::TenantKeyBuf;
use stow_tree_model::version::Version;
use stow_tree_model::version_buf::VersionBuf;

/// A version with memory of its own.
fn copied<A: Allocator + Copy>(alloc: A, version: Version<'_>) -> Result<VersionBuf<A>, AllocError>
    ensures { IfOk result (λ copy. version_of_buf copy ≡ version_of version.entry) }
{
    let value = match version.value {
        None => None,
        Some(bytes) => Some(ByteString::from_slice(alloc, bytes)?),
    };
    Ok(VersionBuf {
        key: TenantKeyBuf::from_key(alloc, version.key)?,
        number: version.number,
        value,
    })
}

/// The versions that a leaf's rows have of a key.
fn rows_of_key<A: Allocator + Copy>(
    alloc: A,
    rows: &Rows<A>,
    key: TenantKey<'_>,
) -> Result<Vec<VersionBuf<A>, A>, AllocError>
    ensures { IfOk result (λ versions. map version_of_buf versions.items
        ≡ filter (λ v. same_key key.entry.bytes.now v.key) rows.now) }
{
    let len = rows.len();
    let mut versions = Vec::new(alloc);
    for at in rows.count_up_to(key, 0)..len {
        let version = rows.get(at);
        if !key.is_same(version.key) {
            return Ok(versions);
        }
        let copy = copied(alloc, version)?;
        versions.push(copy)?;
    }
    Ok(versions)
}

/// The value of the last version.
fn last_value<A: Allocator>(versions: &[VersionBuf<A>]) -> Option<&[u8]>
    ensures { bytes_at result ≡ value_in_version (last_of (map version_of_buf versions.now)) }
{
    let last = versions.last()?;
    match &last.value {
        None => None,
        Some(value) => Some(value.as_slice()),
    }
}

/// Bytes, and then more of them, copied once.
fn joined<A: Allocator + Copy>(
    alloc: A,
    bytes: &[u8],
    more: &[u8],
) -> Result<ByteString<A>, AllocError>
    ensures { IfOk result (λ value. value ≡ bytes.now ++ more.now) }
{
    let mut joined = Vec::with_capacity(alloc, bytes.len().saturating_add(more.len()))?;
    joined.extend_from_slice(bytes)?;
    joined.extend_from_slice(more)?;
    Ok(ByteString::from_vec(joined))
}

/// What an operation makes of a value.
fn outcome_on<A: Allocator + Copy>(
    alloc: A,
    op: Op<'_>,
    before: Option<&[u8]>,
) -> Result<Option<ByteString<A>>, AllocError>
    ensures { IfOk result (λ value. value ≡ outcome (op_of op.entry) (bytes_at before.entry)) }
{
    match op {
        Op::Put(value) => Ok(Some(ByteString::from_slice(alloc, value)?)),
        Op::Gone => Ok(None),
        Op::Append(suffix) => match before {
            None => Ok(Some(ByteString::from_slice(alloc, suffix)?)),
            Some(value) => Ok(Some(joined(alloc, value, suffix)?)),
        },
    }
}

/// Puts the version that a message makes of the last one behind it.
fn add_version<A: Allocator + Copy>(
    alloc: A,
    versions: &mut Vec<VersionBuf<A>, A>,
    message: Message<'_>,
) -> Result<(), AllocError>
    ensures { OnOk result (map version_of_buf versions.new.items
        ≡ map version_of_buf versions.old.items
        ++ version_at (message_of message.entry) (outcome (op_of message.entry.op)
        (value_in_version (last_of (map version_of_buf versions.old.items)))) ∷ []) }
{
    let value = outcome_on(alloc, message.op, last_value(versions.as_slice()))?;
    let key = TenantKeyBuf::from_key(alloc, message.key)?;
    let number = message.number;
    versions.push(VersionBuf { key, number, value })?;
    Ok(())
}

/// All versions of the key by all messages of the node, from the oldest. A removal's version has no value.
pub fn versions<A: Allocator + Copy>(
    alloc: A,
    node: &Node<A>,
    key: TenantKey<'_>,
) -> Result<Vec<VersionBuf<A>, A>, AllocError>
    ensures { IfOk result (λ versions. AreVersionsOf
        (ops_in (messages_of node.now) key.entry.bytes.now) key.entry.bytes.now
        (map version_of_buf versions.items)) }
{
    let _known = node.children();
    if !may_hold(node, key) {
        return Ok(Vec::new(alloc));
    }
    let path = path_of(alloc, node, key)?;
    let rows = &path.leaf.rows;
    let _known = rows.len();
    let mut versions = rows_of_key(alloc, rows, key)?;
    let count = path.messages.len();
    for i in 0..count {
        add_version(alloc, &mut versions, path.messages[count - 1 - i])?;
    }
    Ok(versions)
}
