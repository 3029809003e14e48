//! KeptVersion versions in pages.
ghost use Rattle.std.specs.Prelude.{◌≡◌, ◌≢◌, ◌+◌, ◌<◌, ◌≤◌, ◌^◌, [], ◌∷◌, ◌++◌, length, map, take, drop, IfOk, OnOk};
ghost use Rattle.std.specs.List.{flat_map, AllByRecursion};
ghost use Rattle.stow_merge.specs.KeptVersion.{kept_version};
ghost use Rattle.stow_merge.specs.Pages.{read_in_order};
ghost use Rattle.stow_merge.specs.Writing.{version_in, versions_in, keys_in, IsKeyRun, AreRuns, IsFolded, CanPack, pages_at};
ghost use Rattle.stow_page.specs.StowTreeModel.Op.{bytes_in};
ghost use Rattle.stow_page.specs.StowTreeModel.TreeMessage.{message_of};
ghost use Rattle.stow_page.specs.StowTreeModel.Value.{bytes_at, IsValue};
ghost use Rattle.stow_page.specs.StowTreeModel.Version.{version_of};

use crate::kept_version::KeptVersion;
use crate::merging::HEADER_SIZE;
use crate::survey::{Survey, between};
use std::alloc::{AllocError, Allocator};
use stow_page::packed_rows::PackedRows;
use stow_page::rows::Rows;
use stow_page::stow_tree_model::message::Message;
use stow_page::stow_tree_model::tenant_key::TenantKey;
use stow_page::stow_tree_model::version::Version;

/// The kept versions key by key, lent.
pub(crate) fn by_key<'k, A: Allocator + Copy>(
    alloc: A,
    kept: &'k [KeptVersion<'k>],
) -> Result<Vec<&'k [KeptVersion<'k>], A>, AllocError>
    ensures { IfOk result (λ keys. AreRuns kept.now (map (λ key. key.now) keys.items)) }
{
    let mut keys = Vec::with_capacity(alloc, kept.len())?;
    let mut at = 0;
    while at < kept.len() {
        let rest = &kept[at..];
        let length = 1 + run_length(rest[0].key, &rest[1..]);
        keys.push(&rest[..length])?;
        at += length;
    }
    Ok(keys)
}

/// How many versions at the front are of the key.
fn run_length(key: TenantKey<'_>, kept: &[KeptVersion<'_>]) -> usize
    ensures run { IsKeyRun key.entry.bytes.now (take result kept.now) (drop result kept.now) }
    ensures within { result ≤ length kept.now }
{
    for i in 0..kept.len() {
        if !key.is_same(kept[i].key) {
            return i;
        }
    }
    kept.len()
}

/// Folds a version's value into the bytes where more than one message carries it.
pub(crate) fn fold<B: Allocator + Copy, C: Allocator + Copy>(
    survey: &Survey<'_, B>,
    version: KeptVersion<'_>,
    bytes: &mut Vec<u8, C>,
) -> Result<(), AllocError>
    ensures { OnOk result (IsFolded survey.now version.entry bytes.new.items) }
{
    if let Some(from) = version.from {
        if between(survey.joined.as_slice(), from, version.to).len() != 1 {
            bytes.clear();
            survey.append_value(version, bytes)?;
        }
    }
    Ok(())
}

/// Writes a kept version behind those of a page.
fn write_version<'s, A: Allocator + Copy, B: Allocator + Copy>(
    packed: &mut PackedRows<A>,
    survey: &'s Survey<'s, B>,
    version: KeptVersion<'s>,
    folded: &'s [u8],
) -> Result<(), AllocError>
    requires pack { CanPack (packed.old ++ version_in survey.now version ∷ []) }
    requires value { IsValue (version_in survey.now version).value }
    requires folded { IsFolded survey.now version folded.now }
    ensures { OnOk result (packed.new ≡ packed.old ++ version_in survey.now version.entry ∷ []) }
{
    packed.push(lent_version(survey, version, folded))
}

/// A kept version, its value lent by the one message that carries it, or by the bytes that more were folded into.
pub(crate) fn lent_version<'s, B: Allocator + Copy>(
    survey: &'s Survey<'s, B>,
    version: KeptVersion<'s>,
    folded: &'s [u8],
) -> Version<'s>
    requires value { IsValue (version_in survey.now version).value }
    requires folded { IsFolded survey.now version folded.now }
    ensures { version_of result ≡ version_in survey.now version.entry }
{
    Version {
        key: version.key,
        number: version.number,
        value: value_of(survey, version, folded),
    }
}

/// A kept version's value, lent.
fn value_of<'s, B: Allocator + Copy>(
    survey: &'s Survey<'s, B>,
    version: KeptVersion<'s>,
    folded: &'s [u8],
) -> Option<&'s [u8]>
    requires { IsFolded survey.now version folded.now }
    ensures { bytes_at result ≡ (version_in survey.now version.entry).value }
{
    match version.from {
        None => None,
        Some(from) => Some(carried_or(between(survey.joined.as_slice(), from, version.to), folded)),
    }
}

/// The bytes of the one message, or those that more were folded into.
fn carried_or<'s>(messages: &'s [Message<'s>], folded: &'s [u8]) -> &'s [u8]
    requires { length messages.now ≢ 1
        → folded.now ≡ flat_map (λ m. bytes_in m.op) (map message_of messages.now) }
    ensures { result.now ≡ flat_map (λ m. bytes_in m.op) (map message_of messages.now) }
{
    if messages.len() == 1 {
        messages[0].op.carried()
    } else {
        folded
    }
}

/// Writes a key's versions behind those of a page.
fn write_key<A: Allocator + Copy, B: Allocator + Copy>(
    packed: &mut PackedRows<A>,
    survey: &Survey<'_, B>,
    key: &[KeptVersion<'_>],
    folded: &mut Vec<u8, A>,
) -> Result<(), AllocError>
    requires { CanPack (packed.old ++ versions_in survey.now key.now) }
    ensures { OnOk result (packed.new ≡ packed.old ++ versions_in survey.now key.now) }
{
    for i in 0..key.len() {
        let version = key[i];
        fold(survey, version, folded)?;
        write_version(packed, &*survey, version, folded.as_slice())?;
    }
    Ok(())
}

/// How many versions keys have.
fn count_of(keys: &[&[KeptVersion<'_>]]) -> usize {
    let mut count = 0usize;
    for i in 0..keys.len() {
        count = count.saturating_add(keys[i].len());
    }
    count
}

/// How many bytes a page has whose keys are those from one to before another.
pub(crate) fn page_size(sizes: &[u32], from: usize, to: usize) -> usize {
    let sizes = between(sizes, from, to);
    let mut size = HEADER_SIZE as usize;
    for i in 0..sizes.len() {
        size = size.saturating_add(sizes[i] as usize);
    }
    size
}

/// The page of some keys, in a block of so many bytes.
fn write_page<A: Allocator + Copy, B: Allocator + Copy>(
    alloc: A,
    survey: &Survey<'_, B>,
    keys: &[&[KeptVersion<'_>]],
    size: usize,
    folded: &mut Vec<u8, A>,
) -> Result<Rows<A>, AllocError>
    requires { CanPack (read_in_order (keys_in survey.now keys.now)) }
    ensures { IfOk result (λ page. page ≡ read_in_order (keys_in survey.now keys.now)) }
{
    let mut packed = PackedRows::with_room(alloc, size, count_of(keys))?;
    for i in 0..keys.len() {
        write_key(&mut packed, survey, keys[i], folded)?;
    }
    Rows::new(alloc, packed)
}

/// The pages of keys, each up to before one of these keys. Each takes a block of its size, by the sizes of keys.
pub(crate) fn write_pages<A: Allocator + Copy, B: Allocator + Copy>(
    alloc: A,
    survey: &Survey<'_, B>,
    keys: &[&[KeptVersion<'_>]],
    ends: &[usize],
    sizes: &[u32],
) -> Result<Vec<Rows<A>, A>, AllocError>
    requires { AllByRecursion CanPack (pages_at (keys_in survey.now keys.now) 0 ends.now) }
    ensures { IfOk result (λ pages. pages.items
        ≡ pages_at (keys_in survey.now keys.now) 0 ends.now) }
{
    let mut folded = Vec::new(alloc);
    let mut pages = Vec::new(alloc);
    let mut from = 0;
    for i in 0..ends.len() {
        let size = page_size(sizes, from, ends[i]);
        let page = write_page(
            alloc,
            survey,
            between(keys, from, ends[i]),
            size,
            &mut folded,
        )?;
        pages.push(page)?;
        from = ends[i];
    }
    Ok(pages)
}
