//! The rows of one tenant, as a sorted map.
ghost use Rattle.std.specs.Prelude.{◌≡◌, ◌+◌, ◌<◌, ◌^◌, ◌++◌, ◌∷◌, [], map as list_map};
ghost use Rattle.std.specs.Prelude.{IfOk, OnOk, OnErr};
ghost use Rattle.std.specs.Option.{option_copied, SomeIff};
ghost use Rattle.std.specs.List.{flat_map};
ghost use Rattle.std.specs.FinMap as map;
ghost use Rattle.stow_model.specs.LentWords.{words_in};
ghost use Rattle.stow_ledger.specs.Shown.{is_in};
ghost use Rattle.stow_model.specs.Reply.{reply_of};
ghost use Rattle.stow_model.specs.Store.{count_rows, get_reply, item_or_null, length_or_zero, row_items, rows_within, rows_without, value_in};
ghost use Rattle.stow_model.specs.Store as meant;
ghost use Rattle.stow_plain.specs.Contents.{cost_beside, shown_in};
ghost use Rattle.stow_plain.specs.PlainMap.{version_of};

use crate::plain_snapshot::PlainSnapshot;
use crate::plain_version::PlainVersion;
use std::alloc::{AllocError, Allocator, Global};
use std::collections::BTreeMap;
use std::marker::Model;
use stow_bytes::byte_string::ByteString;
use stow_model::items::Items;
use stow_model::lent_words::LentWords;
use stow_model::reply::Reply;

/// Keys in byte order, each with its version.
#[derive(Drop)]
pub struct PlainRows<A: Allocator = Global> {
    rows: BTreeMap<Vec<u8, A>, PlainVersion<A>, A>,
}

impl<A: Allocator> Model for PlainRows<A> {
    ghost use Rattle.stow_model.specs.Store.{Rows};

    ghost Value = { Rows };

    ghost use Rattle.stow_plain.specs.PlainMap.{rows_code, rows_of};

    ghost coded = { rows_code };

    ghost view = { λ s. rows_of (λ k. k.items) s.rows.entries };
}

impl<A: Allocator + Copy> PlainRows<A> {
    /// No rows.
    pub fn new(alloc: A) -> PlainRows<A>
        ensures { result ≡ map.empty }
    {
        PlainRows {
            rows: BTreeMap::new(alloc),
        }
    }

    /// How many rows there are.
    pub fn len(&self) -> usize
        ensures len { result ≡ map.len self.now }
        ensures small { result < 2 ^ 63 }
    {
        self.rows.len()
    }

    /// The value of a key.
    pub fn value(&self, key: &[u8]) -> Option<&[u8]>
        ensures { option_copied result ≡ value_in (map.get self.now key.now) }
    {
        match self.rows.get(key) {
            None => None,
            Some(version) => Some(version.value.as_slice()),
        }
    }

    /// The length of a key's value, 0 where the key is missing.
    pub fn value_len(&self, key: &[u8]) -> usize
        ensures len { result ≡ length_or_zero (map.get self.now key.now) }
        ensures small { result < 2 ^ 63 }
    {
        match self.value(key) {
            None => 0,
            Some(value) => value.len(),
        }
    }

    /// Adds the value of a key, or `Null`.
    pub fn push_item(&self, key: &[u8], items: &mut Items<A>) -> Result<(), AllocError>
        ensures { OnOk result
            (items.new ≡ items.old ++ item_or_null (map.get self.now key.now) ∷ []) }
    {
        match self.value(key) {
            None => items.push_null(),
            Some(value) => items.push_bulk(value),
        }
    }

    /// The value of each key, or `Null`.
    pub fn items(&self, alloc: A, keys: LentWords<'_>) -> Result<Items<A>, AllocError>
        ensures { IfOk result (λ items. items
            ≡ list_map (λ key. item_or_null (map.get self.now key)) (words_in keys.entry)) }
    {
        let mut items = Items::new(alloc);
        let mut left = keys;
        while let Some((key, later)) = left.split_first() {
            self.push_item(key, &mut items)?;
            left = later;
        }
        Ok(items)
    }

    /// What a GET of the key is told.
    pub fn get(&self, alloc: A, key: &[u8]) -> Result<Reply<A>, AllocError>
        ensures { IfOk result (λ r. reply_of r ≡ get_reply key.now self.now) }
    {
        match self.value(key) {
            None => Ok(Reply::Null),
            Some(value) => Ok(Reply::Bulk(ByteString::from_slice(alloc, value)?)),
        }
    }

    /// How many of the keys have a row, each as often as it is named.
    pub fn count(&self, keys: LentWords<'_>) -> usize
        ensures count { result ≡ count_rows self.now (words_in keys.entry) }
        ensures small { result < 2 ^ 63 }
    {
        let mut count = 0;
        for index in 0..keys.len() {
            if self.value(keys.get(index)).is_some() {
                count += 1;
            }
        }
        count
    }

    /// Keys and values in turn of the first rows from a key on and below another, of which an empty one is no end.
    pub fn items_within(
        &self,
        alloc: A,
        from: &[u8],
        to: &[u8],
        count: u32,
    ) -> Result<Items<A>, AllocError>
        ensures { IfOk result (λ items. items
            ≡ flat_map row_items (rows_within from.now to.now count self.now)) }
    {
        let mut items = Items::new(alloc);
        let mut left = count;
        for (key, version) in self.rows.iter() {
            if left == 0 {
                return Ok(items);
            }
            if is_within(from, to, key.as_slice()) {
                items.push_bulk(key.as_slice())?;
                items.push_bulk(version.value.as_slice())?;
                left -= 1;
            }
        }
        Ok(items)
    }

    /// Whether a key has this version.
    pub fn has(&self, key: &[u8], version: &PlainVersion<A>) -> bool
        ensures { result ≡ is_in (key.now, version_of version.now) (map.entries self.now) }
    {
        match self.rows.get(key) {
            None => false,
            Some(own) => version.number == own.number
                && version.value.as_slice() == own.value.as_slice(),
        }
    }

    /// What a sum becomes by the rows that none of the copies shows, if it stays below 2^64: by each, the bytes of its key
    /// and of its value, and 16.
    pub fn cost_beside(&self, sum: u64, copies: &[PlainSnapshot<A>]) -> Option<u64>
        ensures { SomeIff result (sum + cost_beside self.now (shown_in copies.now) < 2 ^ 64)
            (sum + cost_beside self.now (shown_in copies.now)) }
    {
        let mut total = sum;
        for (key, version) in self.rows.iter() {
            if !is_shown(copies, key.as_slice(), version) {
                total = total
                    .checked_add(key.len() as u64)?
                    .checked_add(version.value.len() as u64)?
                    .checked_add(16)?;
            }
        }
        Some(total)
    }

    /// A copy of the rows in which a key has this version.
    pub fn with(
        &self,
        alloc: A,
        key: &[u8],
        number: u64,
        value: &[u8],
    ) -> Result<PlainRows<A>, AllocError>
        ensures { IfOk result (λ rows. rows
            ≡ map.insert self.now key.now (record { number = number; value = value.now })) }
    {
        let mut rows = self.clone()?;
        rows.insert(alloc, key, number, value)?;
        Ok(rows)
    }

    /// Gives a key a version. An `Err` changes nothing.
    pub fn insert(
        &mut self,
        alloc: A,
        key: &[u8],
        number: u64,
        value: &[u8],
    ) -> Result<(), AllocError>
        ensures ok { OnOk result (self.new
            ≡ map.insert self.old key.now (record { number = number; value = value.now })) }
        ensures err { OnErr result (self.new ≡ self.old) }
    {
        let key = Vec::from_slice(alloc, key)?;
        let version = PlainVersion {
            number,
            value: ByteString::from_slice(alloc, value)?,
        };
        self.rows.insert(key, version)?;
        Ok(())
    }

    /// Takes a key out, if it is there.
    pub fn remove(&mut self, key: &[u8])
        ensures { self.new ≡ map.remove self.old key.now }
    {
        let _removed = self.rows.remove(key);
    }

    /// A copy of the rows without these keys.
    pub fn without(&self, keys: LentWords<'_>) -> Result<PlainRows<A>, AllocError>
        ensures { IfOk result (λ rows. rows ≡ rows_without (words_in keys.entry) self.now) }
    {
        let mut rows = self.clone()?;
        let mut left = keys;
        while let Some((key, later)) = left.split_first() {
            rows.remove(key);
            left = later;
        }
        Ok(rows)
    }
}

impl<A: Allocator + Clone> Clone for PlainRows<A> {
    ghost is_clone = { λ s t. t ≡ s };

    fn clone(&self) -> Result<PlainRows<A>, AllocError> {
        Ok(PlainRows {
            rows: self.rows.clone()?,
        })
    }
}

/// Whether a copy has this version of the key.
fn is_shown<A: Allocator + Copy>(
    copies: &[PlainSnapshot<A>],
    key: &[u8],
    version: &PlainVersion<A>,
) -> bool
    ensures { result ≡ is_in (key.now, version_of version.now) (shown_in copies.now) }
{
    for copy in copies {
        if copy.rows.has(key, version) {
            return true;
        }
    }
    false
}

/// Whether the key is in an interval, which an empty upper end leaves open.
fn is_within(from: &[u8], to: &[u8], key: &[u8]) -> bool
    ensures { result ≡ meant.is_within from.now to.now key.now }
{
    from.cmp(key).is_le() && (to.is_empty() || key.cmp(to).is_lt())
}
