//! Changes of one row.
ghost use Rattle.std.specs.Prelude.{◌≡◌, ◌∷◌, [], IfOk, OnOk, length};
ghost use Rattle.stow_ledger.specs.Shown.{sized_option};
ghost use Rattle.stow_model.specs.Reply.{reply_of};
ghost use Rattle.stow_model.specs.Login.{IsTenant};
ghost use Rattle.stow_ledger.specs.StowState.State.{IsSound};
ghost use Rattle.stow_tree_model.specs.Keys.{own_key, packed, IsTenantKey};
ghost use Rattle.stow_core.specs.Keys.{AreKeysOf};
ghost use Rattle.stow_core.specs.Legal.{IsShortKey};
ghost use Rattle.stow_core.specs.State.{shared_of, row_at};
ghost use Rattle.stow_core.specs.Prepared.{IsPrepared, changes, gives};
ghost use Rattle.stow_core.specs.Writes.{given_op, row_of, IsLengthAfter, IsRowAnswer, StaysShort};
ghost use Rattle.stow_commands.specs.Commands.{update_of};
ghost use Rattle.stow_commands.specs.Outcomes.{value_of};
ghost use Rattle.stow_model.specs.Store.{outcome, value_in};

use crate::Core;
use crate::charging::sized;
use crate::found_change::FoundChange;
use crate::given::Given;
use crate::places::Places;
use crate::prepared::Prepared;
use crate::preparing::only_counted;
use crate::row_answer::{RowAnswer, add, append, set};
use crate::sized_row::SizedRow;
use crate::write::Write;
use std::alloc::{AllocError, Allocator};
use stow_commands::update::Update;
use stow_dropping::stow_message::place::Place;
use stow_dropping::stow_read::found::Found;
use stow_ledger::row_change::RowChange;
use stow_ledger::sized_version::SizedVersion;
use stow_model::reply::Reply;

impl<A: Allocator + Copy> Core<A> {
    /// Finds what a change of a key's row says, by the value that the row has.
    #[inline(always)]
    pub(crate) fn prepare_change<'a>(
        &mut self,
        buffer: &mut Vec<u8, A>,
        alloc: A,
        tenant: u32,
        key: &[u8],
        update: Update<'a>,
    ) -> Result<Prepared<'a, A>, AllocError>
        requires is_tenant { IsTenant self.old.entries tenant }
        requires sound { IsSound (shared_of self.old) }
        requires short { IsShortKey key.now }
        ensures { IsPrepared self.old tenant (changes key.now update.entry) self.new result }
    {
        let FoundChange { answer, row } = self.find_change(buffer, alloc, tenant, key, update)?;
        match answer {
            Ok(RowAnswer::Written(given, reply)) => {
                self.prepare_row(buffer, alloc, tenant, row, given, reply)
            }
            Ok(RowAnswer::Unchanged(reply)) => Ok(only_counted(tenant, reply)),
            Err(refusal) => Ok(only_counted(tenant, Reply::Error(refusal))),
        }
    }

    /// What a change of a key's row leads to. Only an addition asks for the value that the row has; a SET and an APPEND ask for
    /// its length. The buffer then has the key among the keys of all.
    #[tactic(auto, unfolding(stow_model::specs::Store::outcome))]
    #[inline(always)]
    fn find_change<'a>(
        &self,
        buffer: &mut Vec<u8, A>,
        alloc: A,
        tenant: u32,
        key: &[u8],
        update: Update<'a>,
    ) -> Result<FoundChange<'a, A>, AllocError>
        requires is_tenant { IsTenant self.now.entries tenant }
        requires short { IsShortKey key.now }
        ensures answer { IfOk result (λ found. IsRowAnswer found.answer
            (value_in (row_at self.now tenant key.now))
            (outcome (update_of update.entry) (value_in (row_at self.now tenant key.now)))) }
        ensures row { IfOk result (λ found. found.row.version
            ≡ sized_option (row_at self.now tenant key.now)) }
        ensures buffer { OnOk result (buffer.new.items ≡ packed tenant key.now) }
        ensures is_key { OnOk result (IsTenantKey buffer.new.items) }
    {
        match update {
            Update::Set(value, condition) => {
                let row = self.sized_row(buffer, alloc, tenant, key)?;
                let answer = set(value, condition, row.version);
                Ok(FoundChange { answer, row })
            }
            Update::Append(suffix) => {
                let row = self.sized_row(buffer, alloc, tenant, key)?;
                let answer = append(suffix, row.version);
                Ok(FoundChange { answer, row })
            }
            Update::Add(amount) => {
                let mut place = Place::none();
                let rows = self.present(tenant);
                let found = self.row_with_place(buffer, alloc, rows, key, &mut place)?;
                let answer = add(amount, value_in(&found));
                let version = sized(&found);
                let row = SizedRow { version, place };
                Ok(FoundChange { answer, row })
            }
        }
    }

    /// Makes room for what the key that the buffer has, among the keys of all, is given.
    #[inline(always)]
    fn prepare_row<'a>(
        &mut self,
        buffer: &mut Vec<u8, A>,
        alloc: A,
        tenant: u32,
        row: SizedRow,
        given: Given<'a>,
        reply: Reply<A>,
    ) -> Result<Prepared<'a, A>, AllocError>
        requires is_tenant { IsTenant self.old.entries tenant }
        requires sound { IsSound (shared_of self.old) }
        requires own_key { AreKeysOf tenant (buffer.old.items ∷ []) }
        requires is_key { IsTenantKey buffer.old.items }
        requires row { row.version
            ≡ sized_option (row_at self.old tenant (own_key buffer.old.items)) }
        requires short { StaysShort (given_op given)
            (value_in (row_at self.old tenant (own_key buffer.old.items))) }
        ensures { IsPrepared self.old tenant
            (gives (buffer.old.items ∷ []) (given_op given.entry) (reply_of reply))
            self.new result }
    {
        let change = row_change(buffer.as_slice(), row.version, &given);
        let charge = self.charge_of_write(tenant, &change);
        let length = given.kept_length(change.after);
        let keys = self.only_key(alloc, buffer)?;
        let mut places = Places::none();
        places.set(0, row.place);
        let write = Write {
            keys,
            given,
            charge,
            length,
        };
        self.prepare_write(alloc, tenant, write, places, reply)
    }
}

/// What a write changes of the row of a key, which is one among the keys of all.
#[inline(always)]
fn row_change(key: &[u8], before: Option<SizedVersion>, given: &Given<'_>) -> RowChange
    requires { IsTenantKey key.now }
    ensures key { result.key ≡ length (own_key key.now) }
    ensures before { result.before ≡ before }
    ensures after { IsLengthAfter (given_op given.now) before result.after }
{
    RowChange {
        key: (key.len() - 4) as u32,
        before,
        after: given.length_after(before),
    }
}

/// The value of a row.
fn value_in<'a, A: Allocator>(row: &'a Option<Found<'_, A>>) -> Option<&'a [u8]>
    ensures { value_of result ≡ value_in (row_of row.now) }
{
    match row {
        Some(found) => Some(found.bytes()),
        None => None,
    }
}
