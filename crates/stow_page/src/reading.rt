//! Pages that come from elsewhere, read field by field.
ghost use Rattle.std.specs.Prelude.{◌≡◌, ◌≢◌, ◌↔◌, IsTrue, ◌<◌, ◌^◌, ◌∷◌, ◌++◌, length, Some, IfOk, IfErr};
ghost use Rattle.std.specs.Int.{to_be_bytes, w64};
ghost use Rattle.stow_tree_model.specs.Value.{bytes_at};
ghost use Rattle.stow_tree_model.specs.Version.{version_of};
ghost use Rattle.stow_page.specs.Format.{entry, format_byte, format_of, header, packed_page, IsTold};
ghost use Rattle.stow_page.specs.declared.page_fault.PageFault.TheVariants.{FormatByte};
ghost use Rattle.stow_page.specs.Faults.{IsKeyLength, IsTenantIndex, IsVersionNumber, IsKeyRead, IsTailRead, IsFaultInKey, IsFaultBehindKey, IsFaultBehindNumber, IsEntryFault, IsPageFault, IsRefusal};

use crate::big_endian::{u16_at_front, u32_at_front, u64_at_front};
use crate::format::Format;
use crate::packed_rows::PackedRows;
use crate::page_fault::PageFault;
use crate::rows::Rows;
use std::alloc::Allocator;
use stow_tree_model::stow_bytes::limits::{KEY_LIMIT, NUMBER_LIMIT, TENANT_LIMIT, VALUE_LIMIT};
use stow_tree_model::tenant_key::TenantKey;
use stow_tree_model::version::Version;

/// A tenant's key with its index can have this many bytes.
fn is_key_length(length: usize) -> bool
    ensures { IsTrue result ↔ IsKeyLength length }
{
    4 <= length && length <= 4 + KEY_LIMIT
}

/// A tenant can have this index.
fn is_tenant_index(tenant: u32) -> bool
    ensures { IsTrue result ↔ IsTenantIndex tenant }
{
    1 <= tenant && tenant <= TENANT_LIMIT
}

/// A version can have this number.
fn is_number(number: u64) -> bool
    ensures { IsTrue result ↔ IsVersionNumber number }
{
    1 <= number && number <= NUMBER_LIMIT
}

/// The key at the front of an entry, and what follows it.
fn read_key(bytes: &[u8]) -> Result<(TenantKey<'_>, &[u8]), PageFault>
    ensures ok { IfOk result (λ p. IsKeyRead bytes.now p.0.bytes.now p.1.now) }
    ensures err { IfErr result (λ f. IsFaultInKey f bytes.now) }
{
    if bytes.len() < 2 {
        return Err(PageFault::Truncated);
    }
    let length = u16_at_front(bytes) as usize;
    if !is_key_length(length) {
        return Err(PageFault::LengthOrField);
    }
    let (_, rest) = bytes.split_at(2);
    if rest.len() < 4 {
        return Err(PageFault::Truncated);
    }
    let tenant = u32_at_front(rest);
    if !is_tenant_index(tenant) {
        return Err(PageFault::LengthOrField);
    }
    if rest.len() < length {
        return Err(PageFault::Truncated);
    }
    let (key, after) = rest.split_at(length);
    Ok((TenantKey { bytes: key }, after))
}

/// The number that follows a key, and what follows it.
fn read_number(bytes: &[u8]) -> Result<(u64, &[u8]), PageFault>
    ensures ok { IfOk result (λ p. (bytes.now ≡ to_be_bytes w64 p.0 ++ p.1.now)
        × IsVersionNumber p.0) }
    ensures err { IfErr result (λ f. IsFaultBehindKey f bytes.now) }
{
    if bytes.len() < 8 {
        return Err(PageFault::Truncated);
    }
    let number = u64_at_front(bytes);
    if !is_number(number) {
        return Err(PageFault::LengthOrField);
    }
    Ok((number, bytes.split_at(8).1))
}

/// The value whose tail follows a number, and what follows it.
fn read_tail(format: Format, bytes: &[u8]) -> Result<(Option<&[u8]>, &[u8]), PageFault>
    ensures ok { IfOk result (λ p. IsTailRead format bytes.now (bytes_at p.0) p.1.now) }
    ensures err { IfErr result (λ f. IsFaultBehindNumber format f bytes.now) }
{
    let Some((kind, after)) = bytes.split_first() else {
        return Err(PageFault::Truncated);
    };
    if *kind == 1 {
        return Ok((None, after));
    }
    if *kind != 0 {
        return Err(PageFault::LengthOrField);
    }
    let (value, rest) = read_value(format, after)?;
    Ok((Some(value), rest))
}

/// The value of a put, with its length, and what follows it.
fn read_value(format: Format, bytes: &[u8]) -> Result<(&[u8], &[u8]), PageFault>
    ensures ok { IfOk result (λ p. IsTailRead format (0 ∷ bytes.now) (Some p.0.now) p.1.now) }
    ensures err { IfErr result (λ f. IsFaultBehindNumber format f (0 ∷ bytes.now)) }
{
    let width = format.length_width();
    if bytes.len() < width {
        return Err(PageFault::Truncated);
    }
    let length = format.length_at_front(bytes);
    if VALUE_LIMIT < length {
        return Err(PageFault::LengthOrField);
    }
    let (_, rest) = bytes.split_at(width);
    if rest.len() < length {
        return Err(PageFault::Truncated);
    }
    Ok(rest.split_at(length))
}

/// The version whose entry stands at the front of the bytes, and what follows it.
pub fn read_entry(format: Format, bytes: &[u8]) -> Result<(Version<'_>, &[u8]), PageFault>
    ensures ok { IfOk result (λ p. bytes.now ≡ entry format (version_of p.0) ++ p.1.now) }
    ensures told { IfOk result (λ p. IsTold format (bytes_at p.0.value)) }
    ensures err { IfErr result (λ f. IsEntryFault format f bytes.now) }
{
    let (key, after_key) = read_key(bytes)?;
    let (number, after_number) = read_number(after_key)?;
    let (value, rest) = read_tail(format, after_number)?;
    let version = Version { key, number, value };
    Ok((version, rest))
}

/// What stands before a page's entries.
#[derive(Clone, Copy)]
struct Header {
    format: Format,
    count: u32,
}

/// The format that the byte tells.
fn read_format(byte: u8) -> Result<Format, PageFault>
    ensures ok { IfOk result (λ f. byte ≡ format_byte f) }
    ensures err { IfErr result (λ f. (f ≡ FormatByte) × (byte ≢ 1) × (byte ≢ 2)) }
{
    match byte {
        1 => Ok(Format::One),
        2 => Ok(Format::Two),
        _ => Err(PageFault::FormatByte),
    }
}

/// The format and the number of entries, and what follows the header.
fn read_header(bytes: &[u8]) -> Result<(Header, &[u8]), PageFault>
    ensures ok { IfOk result (λ p. bytes.now ≡ header p.0.format p.0.count ++ p.1.now) }
    ensures err { IfErr result (λ f. IsPageFault f bytes.now) }
{
    let Some((byte, rest)) = bytes.split_first() else {
        return Err(PageFault::Truncated);
    };
    let format = read_format(*byte)?;
    if rest.len() < 4 {
        return Err(PageFault::Truncated);
    }
    let count = u32_at_front(rest);
    Ok((Header { format, count }, rest.split_at(4).1))
}

/// Whether the page of the versions has the format.
fn is_format_of<A: Allocator>(format: Format, rows: &PackedRows<A>) -> bool
    ensures { IsTrue result ↔ (format_of rows.now ≡ format) }
{
    rows.format().is_same(format)
}

/// The rows whose page the bytes are.
pub fn read_rows<A: Allocator + Copy>(alloc: A, bytes: &[u8]) -> Result<Rows<A>, PageFault>
    requires { length bytes.now < 2 ^ 32 }
    ensures ok { IfOk result (λ r. bytes.now ≡ packed_page r) }
    ensures err { IfErr result (λ f. IsRefusal f bytes.now) }
{
    let (header, entries) = read_header(bytes)?;
    let mut rows = PackedRows::new(alloc)?;
    let mut rest = entries;
    while rows.len() < header.count as usize {
        let (version, after) = read_entry(header.format, rest)?;
        if !rows.is_below(version) {
            return Err(PageFault::Order);
        }
        rows.push(version)?;
        rest = after;
    }
    if !rest.is_empty() {
        return Err(PageFault::LengthOrField);
    }
    if !is_format_of(header.format, &rows) {
        return Err(PageFault::LengthOrField);
    }
    Ok(Rows::new(alloc, rows)?)
}
