//! How many bytes kept versions have in a page. All of them are measured in one format, which a page of them all has.
//! Where they are cut into more pages, none is larger for it: a page's own format is no wider.
ghost use Rattle.std.specs.Prelude.{◌≡◌, ℕ, ◌+◌, ◌≤◌, List, length, map, Some, IfOk};
ghost use Rattle.std.specs.List.{flat_map, AllByRecursion};
ghost use Rattle.stow_page.specs.StowBytes.Limits.{value_limit};
ghost use Rattle.stow_merge.specs.Pages.{HaveShortValues};
ghost use Rattle.stow_merge.specs.Writing.{version_in, versions_in, keys_in, AreFewAndShort, AreSizes};
ghost use Rattle.stow_page.specs.Format.{entry, entries, tail, is_long, format_of};
ghost use Rattle.stow_page.specs.StowTreeModel.Op.{bytes_in};
ghost use Rattle.stow_page.specs.StowTreeModel.TreeMessage.{message_of};
ghost use Rattle.stow_page.specs.StowTreeModel.Value.{IsValue};

use crate::kept_version::KeptVersion;
use crate::survey::{Survey, between};
use std::alloc::{AllocError, Allocator};
use stow_page::format::Format;
use stow_page::stow_tree_model::message::Message;

/// The longest value whose length format 1 can tell, in bytes.
const SHORT_LIMIT: usize = 65_535;

/// The format of a page of all kept versions.
pub(crate) fn format_of<B: Allocator + Copy>(survey: &Survey<'_, B>) -> Format
    requires { HaveShortValues (versions_in survey.now survey.now.kept.items) }
    ensures { result ≡ format_of (versions_in survey.now survey.now.kept.items) }
{
    let kept = survey.kept.as_slice();
    for i in 0..kept.len() {
        if is_long(survey, kept[i]) {
            return Format::Two;
        }
    }
    Format::One
}

/// Whether the length of a version's value is more than format 1 can tell.
fn is_long<B: Allocator + Copy>(survey: &Survey<'_, B>, version: KeptVersion<'_>) -> bool
    requires { IsValue (version_in survey.now version).value }
    ensures { result ≡ is_long (version_in survey.now version.entry).value }
{
    match version.from {
        None => false,
        Some(from) => {
            carried_size(between(survey.joined.as_slice(), from, version.to)) > SHORT_LIMIT
        }
    }
}

/// How many bytes the entries of each key have.
pub(crate) fn sizes_of<A: Allocator + Copy, B: Allocator + Copy>(
    alloc: A,
    survey: &Survey<'_, B>,
    keys: &[&[KeptVersion<'_>]],
    format: Format,
) -> Result<Vec<u32, A>, AllocError>
    requires { AllByRecursion AreFewAndShort (keys_in survey.now keys.now) }
    ensures { IfOk result (λ sizes. AreSizes format (keys_in survey.now keys.now) sizes.items) }
{
    let mut sizes = Vec::with_capacity(alloc, keys.len())?;
    for i in 0..keys.len() {
        sizes.push(key_size(survey, keys[i], format))?;
    }
    Ok(sizes)
}

/// How many bytes the entries of a key's versions have.
fn key_size<B: Allocator + Copy>(
    survey: &Survey<'_, B>,
    key: &[KeptVersion<'_>],
    format: Format,
) -> u32
    requires { AreFewAndShort (versions_in survey.now key.now) }
    ensures size { result ≡ length (entries format (versions_in survey.now key.now)) }
    ensures small { result ≤ 68225235 }
{
    let mut size = 0;
    for i in 0..key.len() {
        size += size_of(survey, key[i], format);
    }
    size
}

/// How many bytes a version's entry has.
fn size_of<B: Allocator + Copy>(
    survey: &Survey<'_, B>,
    version: KeptVersion<'_>,
    format: Format,
) -> u32
    requires { IsValue (version_in survey.now version).value }
    ensures size { result ≡ length (entry format (version_in survey.now version.entry)) }
    ensures small { result ≤ 1049619 }
{
    (10 + version.key.bytes.len() + tail_size(survey, version, format)) as u32
}

/// How many bytes the tail of a version's value has, or that of none.
fn tail_size<B: Allocator + Copy>(
    survey: &Survey<'_, B>,
    version: KeptVersion<'_>,
    format: Format,
) -> usize
    requires { IsValue (version_in survey.now version).value }
    ensures size { result ≡ length (tail format (version_in survey.now version.entry).value) }
    ensures small { result ≤ 1048581 }
{
    match version.from {
        None => 1,
        Some(from) => {
            let value = between(survey.joined.as_slice(), from, version.to);
            before_value(format) + carried_size(value)
        }
    }
}

/// How many bytes a value's tail has before the value.
fn before_value(format: Format) -> usize
    ensures size { (value : List ℕ) → length (tail format (Some value)) ≡ result + length value }
    ensures small { result ≤ 5 }
{
    match format {
        Format::One => 3,
        Format::Two => 5,
    }
}

/// How many bytes messages carry, which are together within the limit of values.
fn carried_size(messages: &[Message<'_>]) -> usize
    requires { length (flat_map (λ m. bytes_in m.op) (map message_of messages.now)) ≤ value_limit }
    ensures size { result ≡ length (flat_map (λ m. bytes_in m.op) (map message_of messages.now)) }
    ensures small { result ≤ value_limit }
{
    let mut size = 0;
    for i in 0..messages.len() {
        size += messages[i].op.carried().len();
    }
    size
}
