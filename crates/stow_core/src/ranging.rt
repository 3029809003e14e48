//! The rows of an interval of a tenant's keys.
ghost use Rattle.std.specs.Prelude.{◌≡◌, ◌++◌, ◌≤◌, IfOk, OnOk, length, map};
ghost use Rattle.std.specs.List.{flat_map, AllByRecursion};
ghost use Rattle.stow_bytes.specs.Limits.{key_limit, tenant_limit};
ghost use Rattle.stow_core.specs.State.{told_rows};
ghost use Rattle.stow_core.specs.Ends.{upper_end, row_bulks};
ghost use Rattle.stow_tree_model.specs.Intervals.{AreKeyBytes, IsWholeKey};
ghost use Rattle.stow_tree_model.specs.Keys.{IsTenantKey};
ghost use Rattle.stow_dropping.specs.StowRead.Range.{key_value};
ghost use Rattle.stow_ledger.specs.StowState.Rows.{rows_at};
ghost use Rattle.stow_dropping.specs.StowTree.TreeState.{tree_messages, IsRead};

use crate::interval::Interval;
use crate::keys::pack_into;
use std::alloc::{AllocError, Allocator};
use stow_dropping::stow_read::row::Row;
use stow_dropping::stow_tree::tree::Tree;
use stow_model::items::Items;
use stow_tree_model::tenant_key::TenantKey;
use stow_tree_model::tenant_key_buf::TenantKeyBuf;

/// Rows that were read, and a key of each leaf that they are of, among the keys of all.
#[derive(Drop)]
struct ReadRows<A: Allocator> {
    items: Items<A>,
    leaf_keys: Vec<TenantKeyBuf<A>, A>,
}

/// The first rows of an interval at a number, `count` at most, in the order of their keys: of each its tenant's own key
/// and its value, copied. Their leaves are held, where there is memory.
pub fn first_rows<A: Allocator + Copy>(
    tree: &mut Tree<A>,
    buffer: &mut Vec<u8, A>,
    alloc: A,
    interval: Interval<'_>,
    at: u64,
    count: u32,
) -> Result<Items<A>, AllocError>
    requires index { interval.tenant ≤ tenant_limit }
    requires from { length interval.from.now ≤ key_limit }
    requires to { length interval.to.now ≤ key_limit }
    ensures rows { IfOk result (λ items. items
        ≡ told_rows (rows_at (tree_messages tree.old) interval.entry.tenant at)
        interval.entry count) }
    ensures same { IsRead tree.old tree.new }
{
    let ReadRows { items, leaf_keys } = read_rows(tree, buffer, alloc, interval, at, count)?;
    for index in 0..leaf_keys.len() {
        tree.offer(leaf_keys[index].as_key());
    }
    Ok(items)
}

/// The same rows, with a key of each of their leaves.
fn read_rows<A: Allocator + Copy>(
    tree: &Tree<A>,
    buffer: &mut Vec<u8, A>,
    alloc: A,
    interval: Interval<'_>,
    at: u64,
    count: u32,
) -> Result<ReadRows<A>, AllocError>
    requires index { interval.tenant ≤ tenant_limit }
    requires from { length interval.from.now ≤ key_limit }
    requires to { length interval.to.now ≤ key_limit }
    ensures { IfOk result (λ read. read.items
        ≡ told_rows (rows_at (tree_messages tree.now) interval.entry.tenant at)
        interval.entry count) }
{
    pack_into(buffer, interval.tenant, interval.from)?;
    let to = end_of(alloc, interval.tenant, interval.to)?;
    let from = TenantKey::from_packed(buffer.as_slice());
    let rows = tree.range(alloc, from, to.as_key(), at, count as usize)?;
    let items = items_of(alloc, rows.as_slice())?;
    let leaf_keys = tree.leaf_keys(alloc, rows.as_slice())?;
    Ok(ReadRows { items, leaf_keys })
}

/// The upper end among the keys of all. Where the interval has none, it is the first key of the next index.
fn end_of<A: Allocator>(alloc: A, tenant: u32, to: &[u8]) -> Result<TenantKeyBuf<A>, AllocError>
    requires index { tenant ≤ tenant_limit }
    requires to { length to.now ≤ key_limit }
    ensures { IfOk result (λ key. key ≡ upper_end tenant to.now) }
{
    if to.is_empty() {
        TenantKeyBuf::new(alloc, tenant + 1, b"")
    } else {
        TenantKeyBuf::new(alloc, tenant, to)
    }
}

/// The bytes of the keys and values of rows.
fn bytes_of<A: Allocator>(rows: &[Row<'_, A>]) -> usize {
    let mut total = 0usize;
    for row in rows {
        total = total
            .saturating_add(row.key.bytes.len())
            .saturating_add(row.value.bytes().len());
    }
    total
}

/// The own keys of rows with their values, in their order, in a block that is got once.
fn items_of<A: Allocator + Copy>(alloc: A, rows: &[Row<'_, A>]) -> Result<Items<A>, AllocError>
    ensures items { IfOk result (λ items. items ≡ flat_map row_bulks (map key_value rows.now)) }
    ensures keys { IfOk result (λ _. AllByRecursion IsWholeKey
        (map (λ row. row.0) (map key_value rows.now))) }
{
    let mut items = Items::with_capacity(alloc, 2 * rows.len(), bytes_of(rows))?;
    for index in 0..rows.len() {
        let row = &rows[index];
        push_row(&mut items, row.key.bytes, row.value.bytes())?;
    }
    Ok(items)
}

/// Adds a row's own key and its value, copied.
fn push_row<A: Allocator>(items: &mut Items<A>, key: &[u8], value: &[u8]) -> Result<(), AllocError>
    requires { IsTenantKey key.now }
    ensures items { OnOk result (items.new ≡ items.old ++ row_bulks (key.now, value.now)) }
    ensures bytes { AreKeyBytes key.now }
{
    items.push_bulk(&key[4..])?;
    items.push_bulk(value)
}
