//! What an operation makes of a value.
ghost use Rattle.std.specs.Prelude.{◌≡◌, ◌++◌, IfOk};
ghost use Rattle.stow_tree_model.specs.Op.{op_of};
ghost use Rattle.stow_tree_model.specs.Operations.{outcome};

use crate::op::Op;
use std::alloc::{AllocError, Allocator};
use stow_bytes::byte_string::ByteString;

/// What an operation makes of a value.
pub fn outcome_of<A: Allocator + Copy>(
    alloc: A,
    op: Op<'_>,
    before: Option<ByteString<A>>,
) -> Result<Option<ByteString<A>>, AllocError>
    ensures { IfOk result (λ v. v ≡ outcome (op_of op.entry) before) }
{
    match op {
        Op::Put(value) => Ok(Some(ByteString::from_slice(alloc, value)?)),
        Op::Gone => Ok(None),
        Op::Append(suffix) => match before {
            None => Ok(Some(ByteString::from_slice(alloc, suffix)?)),
            Some(value) => Ok(Some(extended(value, suffix)?)),
        },
    }
}

/// A value, and then more bytes.
fn extended<A: Allocator + Copy>(
    value: ByteString<A>,
    more: &[u8],
) -> Result<ByteString<A>, AllocError>
    ensures { IfOk result (λ v. v ≡ value ++ more.now) }
{
    let mut bytes = value.into_vec();
    bytes.extend_from_slice(more)?;
    Ok(ByteString::from_vec(bytes))
}
