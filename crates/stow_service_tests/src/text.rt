//! What a core tells of a line.
use crate::making::{call, give};
use std::alloc::{AllocError, Allocator};
use stow_house::stow_core::Core;
use stow_model::reply::Reply;
use stow_testing::lines::words_of;
use stow_testing::replies::is_text;

/// The names in a usage report, in its order.
const USAGE: &str = "rows charge quota writes commands refusals snapshots";

/// Adds a name and its number to a usage report's text.
fn push_item<A: Allocator + Copy>(
    text: &mut String<A>,
    alloc: A,
    name: &str,
    number: &str,
) -> Result<(), AllocError> {
    text.push_str(format!(in alloc; "${name} :{number} ")?.as_str())
}

/// The text of a usage report of these numbers.
fn usage_of<A: Allocator + Copy>(alloc: A, numbers: &str) -> Result<String<A>, AllocError> {
    let mut text = String::from_str(alloc, "[")?;
    for (name, number) in USAGE.split(' ').zip(numbers.split(' ')) {
        push_item(&mut text, alloc, name, number)?;
    }
    text.push(']')?;
    Ok(text)
}

/// Whether a reply is this, of which `U` and seven numbers stand for a usage report.
pub(crate) fn is_reply<A: Allocator + Copy>(
    alloc: A,
    reply: &Reply<A>,
    want: &str,
) -> Result<bool, AllocError> {
    match want.strip_prefix("U ") {
        Some(numbers) => is_text(alloc, reply, usage_of(alloc, numbers)?.as_str()),
        None => is_text(alloc, reply, want),
    }
}

/// What a tenant's words are told.
pub(crate) fn told<A: Allocator + Copy>(
    core: &mut Core<A>,
    alloc: A,
    tenant: u32,
    line: &str,
) -> Result<Reply<A>, AllocError> {
    Ok(call(core, alloc, tenant, &words_of(alloc, line)?))
}

/// Whether the tenant's words are told this.
pub(crate) fn is_told<A: Allocator + Copy>(
    core: &mut Core<A>,
    alloc: A,
    tenant: u32,
    line: &str,
    want: &str,
) -> Result<bool, AllocError> {
    is_reply(alloc, &told(core, alloc, tenant, line)?, want)
}

/// The number that a word is, or else 0.
pub(crate) fn number(word: &str) -> u32 {
    word.parse::<u32>().unwrap_or(0)
}

/// What stands before and behind an arrow.
pub(crate) fn row_of(line: &'static str) -> (&'static str, &'static str) {
    line.split_once(" => ").unwrap_or((line, ""))
}

/// Whether a core tells this to the words behind a tenant's number; `QUOTA` gives the tenant a quota.
fn is_answered<A: Allocator + Copy>(
    core: &mut Core<A>,
    alloc: A,
    asked: &str,
    want: &str,
) -> Result<bool, AllocError> {
    let (tenant, line) = asked.split_once(" ").unwrap_or((asked, ""));
    match line.strip_prefix("QUOTA ") {
        Some(quota) => {
            give(core, number(tenant), number(quota));
            Ok(true)
        }
        None => is_told(core, alloc, number(tenant), line, want),
    }
}

/// Whether a core tells what a row of a table says.
pub(crate) fn is_row_told<A: Allocator + Copy>(
    core: &mut Core<A>,
    alloc: A,
    row: &'static str,
) -> Result<bool, AllocError> {
    let (asked, want) = row_of(row);
    is_answered(core, alloc, asked, want)
}

/// The first row of a table that a core tells otherwise.
pub(crate) fn first_other<A: Allocator + Copy>(
    core: &mut Core<A>,
    alloc: A,
    table: &'static str,
) -> Result<Option<&'static str>, AllocError> {
    for row in table.lines() {
        if !is_row_told(core, alloc, row)? {
            return Ok(Some(row));
        }
    }
    Ok(None)
}
