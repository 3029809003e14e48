//! Replies that are read from a tenant's rows, as they are or as a snapshot shows them.
ghost use Rattle.std.specs.Prelude.{◌≡◌, ◌++◌, ◌∷◌, [], ℕ, List, Some, IfOk, IfSome, OnOk, is_some, pos, map};
ghost use Rattle.std.specs.FinMap as finite;
ghost use Rattle.stow_ledger.specs.Accounts.{IsAccountOf};
ghost use Rattle.stow_ledger.specs.Shown.{sized_option};
ghost use Rattle.stow_model.specs.LentWords.{words_in};
ghost use Rattle.stow_model.specs.Reply.{reply_of};
ghost use Rattle.stow_model.specs.Reply as reply;
ghost use Rattle.stow_model.specs.Login.{IsTenant};
ghost use Rattle.stow_model.specs.Store.{count_rows, get_reply, item_or_null, length_or_zero, range_reply, value_in};
ghost use Rattle.stow_tree_model.specs.Keys.{packed, IsTenantKey};
ghost use Rattle.stow_tree_model.specs.Value.{IsValue};
ghost use Rattle.stow_core.specs.Legal.{IsShortKey, AreShortKeys};
ghost use Rattle.stow_ledger.specs.StowState.State.{IsSound};
ghost use Rattle.stow_core.specs.RowLengths.{IsToldOfRow};
ghost use Rattle.stow_core.specs.State.{row_at, rows_in, shared_of, store_of, Keeps};
ghost use Rattle.stow_core.specs.Tenancies.{tenancy_at, tenancy_of};
ghost use Rattle.stow_core.specs.Writes.{row_of};

use crate::Core;
use crate::charging::sized;
use crate::interval::Interval;
use crate::keys::pack_into;
use crate::ranging::first_rows;
use crate::rows_at::RowsAt;
use crate::sized_row::SizedRow;
use crate::tenancy::Tenancy;
use std::alloc::{AllocError, Allocator};
use stow_bytes::byte_string::ByteString;
use stow_dropping::stow_message::place::Place;
use stow_dropping::stow_read::found::Found;
use stow_dropping::stow_read::glance::Glance;
use stow_dropping::stow_read::newest::Newest;
use stow_ledger::sized_version::SizedVersion;
use stow_model::items::Items;
use stow_model::lent_words::LentWords;
use stow_model::reply::Reply;
use stow_tree_model::tenant_key::TenantKey;

/// How many bytes of each value have room from the start where several are read.
const SHORT_VALUE: usize = 64;

/// Of how many of them.
const FEW_VALUES: usize = 64;

impl<A: Allocator + Copy> Core<A> {
    /// What a tenant has beside its rows.
    pub(crate) fn tenancy(&self, tenant: u32) -> &Tenancy<A>
        requires { IsTenant self.now.entries tenant }
        ensures own { tenancy_at tenant self.now.tenancies ≡ Some (tenancy_of result.now) }
        ensures account { IsAccountOf (store_of self.now tenant) result.now.account }
        ensures sound { IsSound (shared_of self.now) }
    {
        &self.tenancies[tenant as usize - 1]
    }

    /// A tenant's rows as they are.
    pub(crate) fn present(&self, tenant: u32) -> RowsAt
        requires { IsTenant self.now.entries tenant }
        ensures tenant { result.tenant ≡ tenant }
        ensures rows { rows_in self.now result ≡ (store_of self.now tenant).rows }
    {
        RowsAt {
            tenant,
            number: self.tenancy(tenant).versions.last(),
        }
    }

    /// The row of a key. The buffer then has the key among the keys of all.
    pub(crate) fn row(
        &self,
        buffer: &mut Vec<u8, A>,
        alloc: A,
        rows: RowsAt,
        key: &[u8],
    ) -> Result<Option<Found<'_, A>>, AllocError>
        requires is_tenant { IsTenant self.now.entries rows.tenant }
        requires short { IsShortKey key.now }
        ensures row { IfOk result (λ row. row_of row ≡ finite.get (rows_in self.now rows) key.now) }
        ensures short { IfOk result (λ row. IsValue (value_in (row_of row))) }
        ensures buffer { OnOk result (buffer.new.items ≡ packed rows.tenant key.now) }
        ensures is_key { OnOk result (IsTenantKey buffer.new.items) }
    {
        self.row_with_place(buffer, alloc, rows, key, &mut Place::none())
    }

    /// What `row` answers. The place is then where the key's next message may come to stand, if a guess was
    /// made.
    #[inline(always)]
    pub(crate) fn row_with_place(
        &self,
        buffer: &mut Vec<u8, A>,
        alloc: A,
        rows: RowsAt,
        key: &[u8],
        place: &mut Place,
    ) -> Result<Option<Found<'_, A>>, AllocError>
        requires is_tenant { IsTenant self.now.entries rows.tenant }
        requires short { IsShortKey key.now }
        ensures row { IfOk result (λ row. row_of row ≡ finite.get (rows_in self.now rows) key.now) }
        ensures short { IfOk result (λ row. IsValue (value_in (row_of row))) }
        ensures buffer { OnOk result (buffer.new.items ≡ packed rows.tenant key.now) }
        ensures is_key { OnOk result (IsTenantKey buffer.new.items) }
    {
        let tree = &self.tree;
        pack_into(buffer, rows.tenant, key)?;
        let key = TenantKey::from_packed(buffer.as_slice());
        tree.get_with_place(alloc, key, rows.number, place)
    }

    /// What the newest message of a key, or its row in a leaf, tells of the row that the key has. The buffer then has the key among
    /// the keys of all.
    #[inline(always)]
    fn glance(
        &self,
        buffer: &mut Vec<u8, A>,
        rows: RowsAt,
        key: &[u8],
    ) -> Result<Glance, AllocError>
        requires is_tenant { IsTenant self.now.entries rows.tenant }
        requires short { IsShortKey key.now }
        ensures told { IfOk result (λ glance. IsToldOfRow
            (finite.get (rows_in self.now rows) key.now) glance.newest) }
        ensures buffer { OnOk result (buffer.new.items ≡ packed rows.tenant key.now) }
        ensures is_key { OnOk result (IsTenantKey buffer.new.items) }
    {
        let tree = &self.tree;
        pack_into(buffer, rows.tenant, key)?;
        let key = TenantKey::from_packed(buffer.as_slice());
        Ok(tree.glance(key, rows.number))
    }

    /// The row that a tenant's key has now, without its bytes. Its value is read only where appends make it and its length
    /// isn't held. The buffer then has the key among the keys of all.
    #[inline(always)]
    pub(crate) fn sized_row(
        &self,
        buffer: &mut Vec<u8, A>,
        alloc: A,
        tenant: u32,
        key: &[u8],
    ) -> Result<SizedRow, AllocError>
        requires is_tenant { IsTenant self.now.entries tenant }
        requires short { IsShortKey key.now }
        ensures row { IfOk result (λ row. row.version
            ≡ sized_option (row_at self.now tenant key.now)) }
        ensures buffer { OnOk result (buffer.new.items ≡ packed tenant key.now) }
        ensures is_key { OnOk result (IsTenantKey buffer.new.items) }
    {
        let rows = self.present(tenant);
        let glance = self.glance(buffer, rows, key)?;
        let place = glance.place;
        if let Some(version) = self.told_version(tenant, glance.newest) {
            return Ok(SizedRow { version, place });
        }
        let row = self.row(buffer, alloc, rows, key)?;
        let version = sized(&row);
        Ok(SizedRow { version, place })
    }

    /// The version of a tenant's row as it is now, or that there is no row, by what its newest message tells. None where the length
    /// of a value that appends make isn't held.
    #[inline(always)]
    fn told_version(&self, tenant: u32, newest: Newest) -> Option<Option<SizedVersion>>
        ensures { (key : List ℕ) → IsToldOfRow (row_at self.now tenant key) newest
            → IfSome result (λ version. version ≡ sized_option (row_at self.now tenant key)) }
    {
        match newest {
            Newest::Missing => Some(None),
            Newest::Whole(head) => Some(Some(SizedVersion {
                number: head.number,
                length: head.length,
            })),
            Newest::Extended(number) => match self.lengths.length_of(tenant, number) {
                Some(length) => Some(Some(SizedVersion { number, length })),
                None => None,
            },
        }
    }

    /// Whether a key has a row.
    fn has_row(&self, buffer: &mut Vec<u8, A>, rows: RowsAt, key: &[u8]) -> Result<bool, AllocError>
        requires is_tenant { IsTenant self.now.entries rows.tenant }
        requires short { IsShortKey key.now }
        ensures { IfOk result (λ has. has
            ≡ is_some (finite.get (rows_in self.now rows) key.now)) }
    {
        match self.glance(buffer, rows, key)?.newest {
            Newest::Missing => Ok(false),
            Newest::Whole(_) => Ok(true),
            Newest::Extended(_) => Ok(true),
        }
    }

    /// The value of a key, or null.
    #[inline(always)]
    pub(crate) fn value(
        &self,
        buffer: &mut Vec<u8, A>,
        alloc: A,
        rows: RowsAt,
        key: &[u8],
    ) -> Result<Reply<A>, AllocError>
        requires is_tenant { IsTenant self.now.entries rows.tenant }
        requires short { IsShortKey key.now }
        ensures { IfOk result (λ r. reply_of r ≡ get_reply key.now (rows_in self.now rows)) }
    {
        match self.row(buffer, alloc, rows, key)? {
            Some(found) => {
                let value = ByteString::from_slice(alloc, found.bytes())?;
                Ok(Reply::Bulk(value))
            }
            None => Ok(Reply::Null),
        }
    }

    /// The value of each key, or null.
    pub(crate) fn values(
        &self,
        buffer: &mut Vec<u8, A>,
        alloc: A,
        rows: RowsAt,
        keys: LentWords<'_>,
    ) -> Result<Reply<A>, AllocError>
        requires is_tenant { IsTenant self.now.entries rows.tenant }
        requires short { AreShortKeys (words_in keys) }
        ensures { IfOk result (λ r. reply_of r ≡ reply.Array
            (map (λ key. item_or_null (finite.get (rows_in self.now rows) key))
            (words_in keys.entry))) }
    {
        let room = SHORT_VALUE * keys.len().min(FEW_VALUES);
        let mut items = Items::with_capacity(alloc, keys.len(), room)?;
        for index in 0..keys.len() {
            let row = self.row(buffer, alloc, rows, keys.get(index))?;
            push_value(&mut items, &row)?;
        }
        Ok(Reply::Array(items))
    }

    /// How many of the keys have a row, each as often as it is named.
    pub(crate) fn count_rows(
        &self,
        buffer: &mut Vec<u8, A>,
        rows: RowsAt,
        keys: LentWords<'_>,
    ) -> Result<Reply<A>, AllocError>
        requires is_tenant { IsTenant self.now.entries rows.tenant }
        requires short { AreShortKeys (words_in keys) }
        ensures { IfOk result (λ r. reply_of r
            ≡ reply.Integer (pos (count_rows (rows_in self.now rows) (words_in keys.entry)))) }
    {
        let mut count: usize = 0;
        for index in 0..keys.len() {
            if self.has_row(buffer, rows, keys.get(index))? {
                count += 1;
            }
        }
        Ok(Reply::Integer(count as i64))
    }

    /// The length of the value that a tenant's key has now, 0 where there is none.
    pub(crate) fn value_length(
        &self,
        buffer: &mut Vec<u8, A>,
        alloc: A,
        tenant: u32,
        key: &[u8],
    ) -> Result<Reply<A>, AllocError>
        requires is_tenant { IsTenant self.now.entries tenant }
        requires short { IsShortKey key.now }
        ensures { IfOk result (λ r. reply_of r
            ≡ reply.Integer (pos (length_or_zero (row_at self.now tenant key.now)))) }
    {
        match self.sized_row(buffer, alloc, tenant, key)?.version {
            Some(version) => Ok(Reply::Integer(version.length as i64)),
            None => Ok(Reply::Integer(0)),
        }
    }

    /// The first rows of an interval at a number, `count` at most: key, value, key, value.
    pub(crate) fn rows_within(
        &mut self,
        buffer: &mut Vec<u8, A>,
        alloc: A,
        interval: Interval<'_>,
        number: u64,
        count: u32,
    ) -> Result<Reply<A>, AllocError>
        requires is_tenant { IsTenant self.old.entries interval.tenant }
        requires from { IsShortKey interval.from.now }
        requires to { IsShortKey interval.to.now }
        ensures reply { IfOk result (λ r. reply_of r ≡ range_reply interval.entry.from.now
            interval.entry.to.now count
            (rows_in self.old (record { tenant = interval.entry.tenant; number = number }))) }
        ensures keeps { Keeps self.old self.new }
    {
        let items = first_rows(&mut self.tree, buffer, alloc, interval, number, count)?;
        Ok(Reply::Array(items))
    }
}

/// Adds the row's value, or null.
fn push_value<A: Allocator>(
    items: &mut Items<A>,
    row: &Option<Found<'_, A>>,
) -> Result<(), AllocError>
    ensures { OnOk result (items.new ≡ items.old ++ item_or_null (row_of row.now) ∷ []) }
{
    match row {
        Some(found) => items.push_bulk(found.bytes()),
        None => items.push_null(),
    }
}
