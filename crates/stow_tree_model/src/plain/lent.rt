//! Messages and versions of parts that may be out of range.
ghost use Rattle.std.specs.Prelude.{◌≡◌, ◌≤◌, length, IfSome, IfNone, IsTrue, ◌↔◌};
ghost use Rattle.stow_bytes.specs.Limits.{number_limit, value_limit};
ghost use Rattle.stow_tree_model.specs.Keys.{IsOfTenant};
ghost use Rattle.stow_tree_model.specs.Op.{op_of, bytes_in};
ghost use Rattle.stow_tree_model.specs.TreeMessage.{message_of};
ghost use Rattle.stow_tree_model.specs.Value.{bytes_at, IsValue};
ghost use Rattle.stow_tree_model.specs.Version.{version_of};

use crate::message::Message;
use crate::op::Op;
use crate::tenant_key::TenantKey;
use crate::version::Version;
use stow_bytes::limits::{NUMBER_LIMIT, TENANT_LIMIT, VALUE_LIMIT};

/// The message of these parts. `None` where the key is no tenant's, or the number or the bytes are out of range.
pub fn message<'a>(key: TenantKey<'a>, number: u64, op: Op<'a>) -> Option<Message<'a>>
    ensures made { IfSome result (λ m. message_of m
        ≡ record { key = key.entry.bytes.now; number = number; op = op_of op.entry }) }
    ensures refused { IfNone result (IsOfTenant key.entry.bytes.now → 1 ≤ number
        → number ≤ number_limit
        → length (bytes_in (op_of op.entry)) ≤ value_limit → ⊥) }
{
    if is_in_range(key, number) && op.carried().len() <= VALUE_LIMIT {
        Some(Message { key, number, op })
    } else {
        None
    }
}

/// The version of these parts. `None` where the key is no tenant's, or the number or the value is out of range.
pub fn version<'a>(key: TenantKey<'a>, number: u64, value: Option<&'a [u8]>) -> Option<Version<'a>>
    ensures made { IfSome result (λ v. version_of v
        ≡ record { key = key.entry.bytes.now; number = number; value = bytes_at value.entry }) }
    ensures refused { IfNone result (IsOfTenant key.entry.bytes.now → 1 ≤ number
        → number ≤ number_limit
        → IsValue (bytes_at value.entry) → ⊥) }
{
    let is_short = match value {
        None => true,
        Some(bytes) => bytes.len() <= VALUE_LIMIT,
    };
    if is_in_range(key, number) && is_short {
        Some(Version { key, number, value })
    } else {
        None
    }
}

fn is_in_range(key: TenantKey<'_>, number: u64) -> bool
    ensures { IsTrue result ↔ (IsOfTenant key.entry.bytes.now × (1 ≤ number)
        × (number ≤ number_limit)) }
{
    let tenant = key.tenant();
    1 <= tenant && tenant <= TENANT_LIMIT && 1 <= number && number <= NUMBER_LIMIT
}
