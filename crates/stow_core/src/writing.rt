//! Preparing writes.
ghost use Rattle.std.specs.Prelude.{◌≡◌, ◌∷◌, [], IfOk, nat_lt};
ghost use Rattle.stow_bytes.specs.Limits.{number_limit};
ghost use Rattle.stow_model.specs.Reply.{reply_of};
ghost use Rattle.stow_model.specs.Login.{IsTenant};
ghost use Rattle.stow_ledger.specs.StowState.State.{IsSound};
ghost use Rattle.stow_core.specs.State.{store_of, shared_of};
ghost use Rattle.stow_core.specs.Prepared.{IsPrepared, IsPriced, CanGive, CanWrite, TellsLength, after_written, next_number, writes};
ghost use Rattle.stow_core.specs.Writes.{given_op};

use crate::Core;
use crate::change::Change;
use crate::keys::emptied;
use crate::places::Places;
use crate::prepared::Prepared;
use crate::preparing::{only_counted, only_refused};
use crate::write::Write;
use crate::writes::reserve;
use itoa::Buffer;
use std::alloc::{AllocError, Allocator};
use std::mem;
use stow_bytes::limits::NUMBER_LIMIT;
use stow_model::refusal::Refusal;
use stow_model::reply::Reply;
use stow_model::span::Span;
use stow_model::words::Words;

impl<A: Allocator + Copy> Core<A> {
    /// Makes room for a write whose messages may come to stand at these places, unless no number is left for it, or it exceeds
    /// the tenant's quota.
    #[inline(always)]
    pub(crate) fn prepare_write<'a>(
        &mut self,
        alloc: A,
        tenant: u32,
        write: Write<'a, A>,
        places: Places,
        reply: Reply<A>,
    ) -> Result<Prepared<'a, A>, AllocError>
        requires is_tenant { IsTenant self.old.entries tenant }
        requires sound { IsSound (shared_of self.old) }
        requires can_give { CanGive self.old tenant write.keys (given_op write.given) }
        requires priced { IsPriced self.old tenant write.charge
            (after_written write (store_of self.old tenant)) }
        requires length { TellsLength self.old tenant write }
        ensures { IsPrepared self.old tenant (writes write.entry (reply_of reply))
            self.new result }
    {
        if !self.can_write(tenant) {
            self.keep_keys(write.keys);
            return Ok(only_counted(tenant, Reply::Error(Refusal::WriteNumbersUsedUp)));
        }
        if !self.tenancy(tenant).account.allows(write.charge) {
            self.keep_keys(write.keys);
            return Ok(only_refused(tenant));
        }
        let number = self.next_number(tenant);
        self.places = places;
        let mut text = Buffer::new();
        let (op, keys) = (write.given.op(&mut text), write.keys.lent());
        reserve(
            &mut self.tree,
            alloc,
            &self.pins,
            number,
            op,
            keys,
            &mut self.places,
        )?;
        Ok(Prepared {
            tenant,
            change: Change::Write(write),
            reply,
        })
    }

    /// A list with no key, in the memory that is kept for keys.
    pub(crate) fn spare_keys(&mut self, alloc: A) -> Words<A>
        ensures none { result ≡ [] }
        ensures same { self.new ≡ self.old }
    {
        emptied(mem::replace(&mut self.keys, Words::new(alloc)))
    }

    /// A list of the key that the buffer has, without a copy: the buffer gets the memory that is kept for keys.
    #[inline(always)]
    pub(crate) fn only_key(
        &mut self,
        alloc: A,
        buffer: &mut Vec<u8, A>,
    ) -> Result<Words<A>, AllocError>
        ensures key { IfOk result (λ keys. keys ≡ buffer.old.items ∷ []) }
        ensures same { self.new ≡ self.old }
    {
        let kept = mem::replace(&mut self.keys, Words::new(alloc));
        let (spare, mut spans) = kept.into_parts();
        spans.clear();
        let end = buffer.len();
        spans.push(Span { start: 0, end })?;
        Ok(Words::from_parts(mem::replace(buffer, spare), spans))
    }

    /// Keeps the memory of keys for the next write.
    pub(crate) fn keep_keys(&mut self, keys: Words<A>)
        ensures { self.new ≡ self.old }
    {
        self.keys = keys;
    }

    /// Whether a number is left for a write of the tenant's.
    pub(crate) fn can_write(&self, tenant: u32) -> bool
        requires { IsTenant self.now.entries tenant }
        ensures { result ≡ nat_lt (store_of self.now tenant).last number_limit }
    {
        self.tenancy(tenant).versions.last() < NUMBER_LIMIT
    }

    /// The number of the tenant's next write.
    pub(crate) fn next_number(&self, tenant: u32) -> u64
        requires is_tenant { IsTenant self.now.entries tenant }
        requires can_write { CanWrite self.now tenant }
        ensures { result ≡ next_number self.now tenant }
    {
        self.tenancy(tenant).versions.last() + 1
    }
}
