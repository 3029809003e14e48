//! A tenant file's table, read.
ghost use Rattle.std.specs.Prelude.{◌≡◌, ◌⊎◌, ◌≤◌, length, map, IfOk, IfErr, Ok, Err, option_map, option_and_then};
ghost use Rattle.std.specs.List.{list_all};
ghost use Rattle.toml.specs.Data.{get_member};
ghost use Rattle.toml.specs.View.{view, items_view, table_view};
ghost use Rattle.stow_login.specs.Entries.{entry_of};
ghost use Rattle.stow_login.specs.TenantFile.{items_in, tables_of, are_tables, entries_of, entry_in, four_fields, text_at, number_at, is_name, is_name_byte, is_used, salt_in, digest_in, quota_in};

use crate::tenant::Tenant;
use crate::tenants::Tenants;
use crate::tenants_fault::TenantsFault;
use hex::{FromHex, FromHexError};
use std::alloc::Allocator;
use stow_model::stow_bytes::byte_string::ByteString;
use stow_model::stow_bytes::limits;
use toml::{Table, Value};

/// The most tenants of a file.
pub(crate) const TENANT_LIMIT: usize = limits::TENANT_LIMIT as usize;

/// The most bytes of a name.
const NAME_LIMIT: usize = 64;

/// How many fields a tenant has.
const FIELDS: usize = 4;

/// The most bytes of a salt.
const SALT_LIMIT: usize = 64;

/// The tenants of a file's table, in the file's order, or the first fault.
pub(crate) fn read_table<A: Allocator + Copy>(
    alloc: A,
    table: &Table,
) -> Result<Tenants<A>, TenantsFault>
    ensures ok { IfOk result (λ tenants. entries_of (table_view table.now) ≡ Ok tenants) }
    ensures err { IfErr result (λ fault. (fault ≡ TenantsFault.OutOfMemory)
        ⊎ (entries_of (table_view table.now) ≡ Err fault)) }
{
    let items = items_in(table)?;
    if items.is_empty() || items.len() > TENANT_LIMIT {
        return Err(TenantsFault::WrongCount);
    }
    let mut tenants = Tenants::new(alloc);
    for item in items {
        let tenant = read_tenant(alloc, &tenants, item)?;
        tenants.add(alloc, tenant)?;
    }
    Ok(tenants)
}

/// The tables under the file's only key, `tenant`.
pub(crate) fn items_in(table: &Table) -> Result<&[Value], TenantsFault>
    ensures ok { IfOk result (λ items. items_in (table_view table.now)
        ≡ Ok (items_view items.now)) }
    ensures err { IfErr result (λ fault. items_in (table_view table.now) ≡ Err fault) }
{
    if table.is_empty() {
        Err(TenantsFault::WrongCount)
    } else if table.len() == 1 {
        tables_at(table, "tenant").ok_or(TenantsFault::WrongShape)
    } else {
        Err(TenantsFault::WrongShape)
    }
}

/// The array of tables at a key.
fn tables_at<'a>(table: &'a Table, key: &str) -> Option<&'a [Value]>
    ensures { option_map (λ items. items_view items.now) result
        ≡ option_and_then tables_of (get_member key.now (table_view table.now)) }
{
    match table.get(key) {
        Some(value) => tables_of(value),
        None => None,
    }
}

fn tables_of(value: &Value) -> Option<&[Value]>
    ensures { option_map (λ items. items_view items.now) result ≡ tables_of (view value.now) }
{
    match value.as_array() {
        Some(items) if are_tables(items.as_slice()) => Some(items.as_slice()),
        _ => None,
    }
}

fn are_tables(items: &[Value]) -> bool
    ensures { result ≡ are_tables (items_view items.now) }
{
    for item in items {
        if !item.is_table() {
            return false;
        }
    }
    true
}

/// The tenant of one of the file's tables, after the tenants before it.
pub(crate) fn read_tenant<A: Allocator + Copy>(
    alloc: A,
    earlier: &Tenants<A>,
    value: &Value,
) -> Result<Tenant<A>, TenantsFault>
    ensures ok { IfOk result (λ tenant. entry_in earlier.now (view value.now)
        ≡ Ok (entry_of tenant)) }
    ensures err { IfErr result (λ fault. (fault ≡ TenantsFault.OutOfMemory)
        ⊎ (entry_in earlier.now (view value.now) ≡ Err fault)) }
{
    let fields = four_fields(value).ok_or(TenantsFault::WrongShape)?;
    let name = text_at(fields, "name").ok_or(TenantsFault::WrongShape)?;
    let salt_text = text_at(fields, "salt").ok_or(TenantsFault::WrongShape)?;
    let digest_text = text_at(fields, "digest").ok_or(TenantsFault::WrongShape)?;
    let number = number_at(fields, "quota").ok_or(TenantsFault::WrongShape)?;
    if !is_name(name.as_bytes()) {
        return Err(TenantsFault::BadName);
    }
    if earlier.has(name.as_bytes()) {
        return Err(TenantsFault::NameUsed);
    }
    let salt = salt_in(alloc, salt_text)?;
    let digest = digest_in(digest_text)?;
    let quota = quota_in(number)?;
    let name = ByteString::from_slice(alloc, name.as_bytes())?;
    Ok(Tenant {
        name,
        salt,
        digest,
        quota,
    })
}

/// A tenant's table, which has four fields.
fn four_fields(value: &Value) -> Option<&Table>
    ensures { option_map (λ table. table_view table.now) result ≡ four_fields (view value.now) }
{
    match value.as_table() {
        Some(table) if table.len() == FIELDS => Some(table),
        _ => None,
    }
}

/// The text of a field.
pub(crate) fn text_at<'a>(table: &'a Table, key: &str) -> Option<&'a str>
    ensures { option_map (λ text. text.now) result ≡ text_at key.now (table_view table.now) }
{
    match table.get(key) {
        Some(value) => value.as_str(),
        None => None,
    }
}

/// The number of a field.
pub(crate) fn number_at(table: &Table, key: &str) -> Option<i64>
    ensures { result ≡ number_at key.now (table_view table.now) }
{
    match table.get(key) {
        Some(value) => value.as_integer(),
        None => None,
    }
}

pub(crate) fn is_name(name: &[u8]) -> bool
    ensures { result ≡ is_name name.now }
{
    !name.is_empty() && name.len() <= NAME_LIMIT && has_name_bytes(name)
}

fn has_name_bytes(name: &[u8]) -> bool
    ensures { result ≡ list_all is_name_byte name.now }
{
    name.iter().all(|byte| is_name_byte(*byte))
}

fn is_name_byte(byte: u8) -> bool
    ensures { result ≡ is_name_byte byte }
{
    byte.is_ascii_alphanumeric() || matches!(byte, b'-' | b'_' | b'.')
}

/// The bytes of a salt.
pub(crate) fn salt_in<A: Allocator>(alloc: A, text: &str) -> Result<ByteString<A>, TenantsFault>
    ensures ok { IfOk result (λ salt. salt_in text.now ≡ Ok salt) }
    ensures err { IfErr result (λ fault. (fault ≡ TenantsFault.OutOfMemory)
        ⊎ (salt_in text.now ≡ Err fault)) }
{
    match hex::decode(alloc, text) {
        Ok(salt) if salt.len() <= SALT_LIMIT => Ok(ByteString::from_vec(salt)),
        Err(FromHexError::OutOfMemory) => Err(TenantsFault::OutOfMemory),
        _ => Err(TenantsFault::BadHexadecimal),
    }
}

/// The bytes of a digest.
fn digest_in(text: &str) -> Result<[u8; 32], TenantsFault>
    ensures { result ≡ digest_in text.now }
{
    match <[u8; 32]>::from_hex(text) {
        Ok(digest) => Ok(digest),
        Err(_) => Err(TenantsFault::BadHexadecimal),
    }
}

/// A quota that isn't negative.
pub(crate) fn quota_in(number: i64) -> Result<u64, TenantsFault>
    ensures { result ≡ quota_in number }
{
    match u64::try_from(number) {
        Ok(quota) => Ok(quota),
        Err(_) => Err(TenantsFault::QuotaOutOfRange),
    }
}
