//! One version in packed form.
ghost use Rattle.std.specs.Prelude.{◌≡◌, ◌+◌, ◌≤◌, cond, nat_lt, [], ◌∷◌, ◌++◌, Some, take, drop, length, OnOk, OnErr};
ghost use Rattle.stow_tree_model.specs.StowBytes.Limits.{key_limit, value_limit};
ghost use Rattle.stow_page.specs.Rows.{length_in, version_in, value_in, entry_of, IsAtFront, IsTail};
ghost use Rattle.stow_page.specs.Format.{entry, place_bytes, tail, length_bytes, length_width, longest, format_of, short_limit, IsTold};
ghost use Rattle.stow_page.specs.declared.format.Format.TheVariants.{One, Two};
ghost use Rattle.stow_tree_model.specs.Value.{bytes_at, IsValue};
ghost use Rattle.stow_tree_model.specs.Version.{version_of};

use crate::big_endian::{u16_at_front, u64_at_front};
use crate::format::Format;
use std::alloc::{AllocError, Allocator};
use stow_tree_model::tenant_key::TenantKey;
use stow_tree_model::version::Version;

/// Bytes of the longest value whose length two bytes tell.
const SHORT_LIMIT: usize = 65_535;

/// The version whose entry stands at the front of the bytes, lent.
pub fn lent_version(format: Format, bytes: &[u8]) -> Version<'_>
    requires { IsAtFront format (version_in format bytes.now) bytes.now }
    ensures { version_of result ≡ version_in format bytes.now }
{
    let length = u16_at_front(bytes) as usize;
    let (_, rest) = bytes.split_at(2);
    let (key, after) = rest.split_at(length);
    let number = u64_at_front(after);
    let (_, tail) = after.split_at(8);
    Version {
        key: TenantKey { bytes: key },
        number,
        value: lent_value(format, tail),
    }
}

/// The value whose tail stands at the front of the bytes, lent.
fn lent_value(format: Format, bytes: &[u8]) -> Option<&[u8]>
    requires { IsTail format (value_in format bytes.now) bytes.now }
    ensures { bytes_at result ≡ value_in format bytes.now }
{
    let (kind, after) = bytes.split_first()?;
    if *kind != 0 {
        return None;
    }
    Some(lent_put(format, after))
}

/// The value that stands at the front of the bytes with its length, lent.
fn lent_put(format: Format, bytes: &[u8]) -> &[u8]
    requires width { length_width format ≤ length bytes.now }
    requires whole { length_width format + length_in format bytes.now ≤ length bytes.now }
    ensures { result.now
        ≡ take (length_in format bytes.now) (drop (length_width format) bytes.now) }
{
    let length = format.length_at_front(bytes);
    let (_, rest) = bytes.split_at(format.length_width());
    rest.split_at(length).0
}

/// The format that a page of the version alone has.
pub(crate) fn format_of(version: Version<'_>) -> Format
    ensures { result ≡ format_of (version_of version.entry ∷ []) }
{
    match version.value {
        None => Format::One,
        Some(value) => format_of_length(value.len()),
    }
}

/// The format that a value of so many bytes makes a page have.
fn format_of_length(length: usize) -> Format
    ensures { result ≡ cond (nat_lt short_limit length) Two One }
{
    if SHORT_LIMIT < length {
        Format::Two
    } else {
        Format::One
    }
}

/// How many bytes the version's entry has in the format.
pub fn entry_size(format: Format, version: Version<'_>) -> usize
    ensures size { result ≡ length (entry format (version_of version.entry)) }
    ensures few { result ≤ 1049619 }
{
    10 + version.key.bytes.len() + tail_size(format, version.value)
}

/// How many bytes the tail of a value has in the format, or that of none.
fn tail_size(format: Format, value: Option<&[u8]>) -> usize
    requires { IsValue (bytes_at value) }
    ensures size { result ≡ length (tail format (bytes_at value.entry)) }
    ensures few { result ≤ 1048581 }
{
    match value {
        None => 1,
        Some(value) => 1 + format.length_width() + value.len(),
    }
}

/// Writes the version's entry behind the bytes. Where memory is refused a part of it may stand there.
#[tactic(auto, using(std::proofs::Common::append_assoc), unfolding(crate::specs::Format::entry))]
pub fn append_entry<A: Allocator>(
    bytes: &mut Vec<u8, A>,
    format: Format,
    version: Version<'_>,
) -> Result<(), AllocError>
    requires { IsTold format (bytes_at version.value) }
    ensures ok { OnOk result
        (bytes.new.items ≡ bytes.old.items ++ entry_of format version.entry) }
    ensures err { OnErr result (take (length bytes.old.items) bytes.new.items ≡ bytes.old.items) }
{
    append_place(bytes, version.key.bytes, version.number)?;
    append_tail(bytes, format, version.value)?;
    Ok(())
}

/// Writes a key with its length, and a number, behind the bytes.
fn append_place<A: Allocator>(
    bytes: &mut Vec<u8, A>,
    key: &[u8],
    number: u64,
) -> Result<(), AllocError>
    requires { length key.now ≤ 4 + key_limit }
    ensures ok { OnOk result (bytes.new.items ≡ bytes.old.items ++ place_bytes key.now number) }
    ensures err { OnErr result (take (length bytes.old.items) bytes.new.items ≡ bytes.old.items) }
{
    let length = key.len() as u16;
    bytes.extend_from_slice(&length.to_be_bytes())?;
    bytes.extend_from_slice(key)?;
    bytes.extend_from_slice(&number.to_be_bytes())
}

/// Writes the tail of a value, or of none, behind the bytes.
fn append_tail<A: Allocator>(
    bytes: &mut Vec<u8, A>,
    format: Format,
    value: Option<&[u8]>,
) -> Result<(), AllocError>
    requires { IsTold format (bytes_at value) }
    ensures ok { OnOk result
        (bytes.new.items ≡ bytes.old.items ++ tail format (bytes_at value.entry)) }
    ensures err { OnErr result (take (length bytes.old.items) bytes.new.items ≡ bytes.old.items) }
{
    match value {
        None => bytes.extend_from_slice(&[1]),
        Some(value) => append_value(bytes, format, value),
    }
}

/// Writes a put's tail behind the bytes.
fn append_value<A: Allocator>(
    bytes: &mut Vec<u8, A>,
    format: Format,
    value: &[u8],
) -> Result<(), AllocError>
    requires { length value.now ≤ longest format }
    ensures ok { OnOk result
        (bytes.new.items ≡ bytes.old.items ++ tail format (Some value.now)) }
    ensures err { OnErr result (take (length bytes.old.items) bytes.new.items ≡ bytes.old.items) }
{
    bytes.extend_from_slice(&[0])?;
    append_length(bytes, format, value.len())?;
    bytes.extend_from_slice(value)
}

/// Writes the length of a value behind the bytes.
fn append_length<A: Allocator>(
    bytes: &mut Vec<u8, A>,
    format: Format,
    length: usize,
) -> Result<(), AllocError>
    requires { length ≤ longest format }
    ensures ok { OnOk result (bytes.new.items ≡ bytes.old.items ++ length_bytes format length) }
    ensures err { OnErr result (bytes.new.items ≡ bytes.old.items) }
{
    match format {
        Format::One => bytes.extend_from_slice(&(length as u16).to_be_bytes()),
        Format::Two => bytes.extend_from_slice(&(length as u32).to_be_bytes()),
    }
}
