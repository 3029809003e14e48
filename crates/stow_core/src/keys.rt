//! Keys of all tenants in one order.
ghost use Rattle.std.specs.Prelude.{◌≡◌, [], OnOk};
ghost use Rattle.stow_tree_model.specs.Keys.{packed};

use std::alloc::{AllocError, Allocator};
use stow_model::words::Words;

/// Writes a tenant's key, among the keys of all, in place of what the buffer has.
pub fn pack_into<A: Allocator>(
    buffer: &mut Vec<u8, A>,
    tenant: u32,
    key: &[u8],
) -> Result<(), AllocError>
    ensures { OnOk result (buffer.new.items ≡ packed tenant key.now) }
{
    buffer.clear();
    buffer.reserve(key.len().saturating_add(4))?;
    buffer.extend_from_slice(&tenant.to_be_bytes())?;
    buffer.extend_from_slice(key)
}

/// The list without its keys, which keeps their memory.
pub fn emptied<A: Allocator>(keys: Words<A>) -> Words<A>
    ensures { result ≡ [] }
{
    let (mut block, mut spans) = keys.into_parts();
    block.clear();
    spans.clear();
    Words::from_parts(block, spans)
}
