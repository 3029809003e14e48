//! A merge key by key, into one block.
ghost use Rattle.std.specs.Prelude.{◌≡◌, ◌≢◌, ◌+◌, ◌^◌, [], ◌<◌, ◌≤◌, ◌++◌, List, length, slice_get, take, drop, map, IfOk, IfSome, IsTrue, Some};
ghost use Rattle.stow_merge.specs.OneKey.{rows_of, IsRowOf, IsRunOf};
ghost use Rattle.stow_merge.specs.Pages.{HaveShortValues};
ghost use Rattle.stow_merge.specs.Pins.{pins_in};
ghost use Rattle.stow_page.specs.StowTreeModel.Merged.{merged};
ghost use Rattle.stow_page.specs.StowTreeModel.Order.{MessagesRise, VersionsRise};
ghost use Rattle.stow_page.specs.StowTreeModel.TreeMessage.{message_of};

use crate::one_key::add_key;
use crate::pins::Pins;
use std::alloc::{AllocError, Allocator};
use stow_page::packed_rows::PackedRows;
use stow_page::rows::Rows;
use stow_page::stow_tree_model::message::Message;
use stow_page::stow_tree_model::tenant_key::TenantKey;
use stow_page::stow_tree_model::version::Version;

/// Bytes of a message's entry beside key and value, at most.
const BESIDE: usize = 15;

/// What a merge of a leaf's rows with a batch keeps under pins, in one block: rows of keys without messages are copied in runs, as they
/// stand, and each other key is merged for itself. `None` where the rows aren't known to be values, each alone of its key, or where the
/// block has no room for all, or would be of another format.
pub(crate) fn merged_by_keys<A: Allocator + Copy, B: Allocator + Copy, C: Allocator>(
    alloc: A,
    rows: &Rows<C>,
    batch: &[Message<'_>],
    pins: &Pins<B>,
) -> Result<Option<PackedRows<A>>, AllocError>
    requires batch { MessagesRise (map message_of batch.now) }
    requires values { HaveShortValues
        (merged rows.now (map message_of batch.now) (pins_in pins.now)) }
    ensures { IfOk result (λ block. IfSome block (λ packed. packed
        ≡ merged rows.now (map message_of batch.now) (pins_in pins.now))) }
{
    if !rows.are_alone() {
        return Ok(None);
    }
    let len = rows.len();
    let count = len.saturating_add(batch.len());
    let mut packed = PackedRows::with_room(alloc, size_of(rows, batch), count)?;
    let mut bytes = Vec::new(alloc);
    let mut from = 0;
    let mut next = 0;
    while next < batch.len() {
        let later = &batch[next..];
        let key = later[0].key;
        let to = rows.count_from(key, 0, from);
        let row = row_of(rows, to, key);
        let count = count_of_key(key, later);
        if !add_run(&mut packed, rows, from, to)? {
            return Ok(None);
        }
        if !add_key(&mut packed, row, &later[..count], pins, &mut bytes)? {
            return Ok(None);
        }
        from = behind(to, row);
        next += count;
    }
    if !add_run(&mut packed, rows, from, len)? {
        return Ok(None);
    }
    Ok(Some(packed))
}

/// How many bytes a page of all rows and messages would have, at most.
fn size_of<C: Allocator>(rows: &Rows<C>, batch: &[Message<'_>]) -> usize {
    let mut size = rows.page_len();
    for i in 0..batch.len() {
        let message = batch[i];
        let carried = message.op.carried().len().saturating_add(BESIDE);
        size = size.saturating_add(message.key.bytes.len().saturating_add(carried));
    }
    size
}

/// The row with this index, if it is there and of the key.
fn row_of<'r, C: Allocator>(
    rows: &'r Rows<C>,
    index: usize,
    key: TenantKey<'_>,
) -> Option<Version<'r>>
    ensures { IsRowOf rows.now index key.entry.bytes.now (rows_of result) }
{
    if index >= rows.len() {
        return None;
    }
    let row = rows.get(index);
    if row.key.is_same(key) {
        Some(row)
    } else {
        None
    }
}

/// The index behind a row, or the same where there is none.
fn behind(index: usize, row: Option<Version<'_>>) -> usize
    requires { index + length (rows_of row) < 2 ^ 64 }
    ensures { result ≡ index + length (rows_of row.entry) }
{
    match row {
        None => index,
        Some(_) => index + 1,
    }
}

/// How many messages at the front are of the key.
fn count_of_key(key: TenantKey<'_>, batch: &[Message<'_>]) -> usize
    ensures { IsRunOf key.entry.bytes.now (map message_of batch.now) result }
{
    for i in 0..batch.len() {
        if !key.is_same(batch[i].key) {
            return i;
        }
    }
    batch.len()
}

/// Adds a leaf's rows above the versions of a block, as they stand. `false` where the block has no room, or another format.
fn add_run<A: Allocator + Copy, C: Allocator>(
    packed: &mut PackedRows<A>,
    rows: &Rows<C>,
    from: usize,
    to: usize,
) -> Result<bool, AllocError>
    requires order { from ≤ to }
    requires within { to ≤ length rows.now }
    requires rise { VersionsRise (packed.old ++ drop from (take to rows.now)) }
    ensures { IfOk result (λ added. IsTrue added
        → packed.new ≡ packed.old ++ drop from (take to rows.now)) }
{
    if !packed.can_take(rows.packed(), from, to) {
        return Ok(false);
    }
    packed.push_rows(rows.packed(), from, to)?;
    Ok(true)
}
