//! Finding answers, with all the memory that they take.
ghost use Rattle.std.specs.Prelude.{◌≡◌, IfOk, IsOk, IsTrue, ◌↔◌};
ghost use Rattle.stow_model.specs.Command.{Ping};
ghost use Rattle.stow_model.specs.declared.refusal.Refusal.TheVariants as refusal;
ghost use Rattle.stow_model.specs.declared.reply.Reply.TheVariants as told;
ghost use Rattle.stow_model.specs.Reply.{reply_of};
ghost use Rattle.stow_model.specs.Reply as reply;
ghost use Rattle.stow_model.specs.Login.{IsTenant};
ghost use Rattle.stow_ledger.specs.StowState.State.{IsSound};
ghost use Rattle.stow_core.specs.Legal.{HasLegalKeys};
ghost use Rattle.stow_core.specs.State.{shared_of};
ghost use Rattle.stow_core.specs.Prepared.{IsPrepared, OnlyCounts, serves};
ghost use Rattle.stow_commands.specs.Commands.{command_of};

use crate::Core;
use crate::change::Change;
use crate::interval::Interval;
use crate::prepared::Prepared;
use std::alloc::{AllocError, Allocator};
use std::mem;
use stow_bytes::byte_string::ByteString;
use stow_commands::command::Command;
use stow_model::refusal::Refusal;
use stow_model::reply::Reply;
use stow_model::simple_string::SimpleString;

impl<A: Allocator + Copy> Core<A> {
    pub(crate) fn is_tenant(&self, tenant: u32) -> bool
        ensures is { IsTrue result ↔ IsTenant self.now.entries tenant }
        ensures sound { IsSound (shared_of self.now) }
    {
        tenant != 0 && tenant as usize <= self.tenancies.len()
    }

    /// Finds what a command says in the tenant's own rows, with the memory that is there; a PING without a text needs none. Its keys
    /// are packed in the core's buffer.
    #[inline(never)]
    pub(crate) fn prepare_once<'a>(
        &mut self,
        alloc: A,
        tenant: u32,
        command: Command<'a>,
    ) -> Result<Prepared<'a, A>, AllocError>
        requires is_tenant { IsTenant self.old.entries tenant }
        requires sound { IsSound (shared_of self.old) }
        requires legal { HasLegalKeys (command_of command) }
        ensures prepared { IsPrepared self.old tenant (serves (command_of command.entry))
            self.new result }
        ensures needless { command_of command.entry ≡ Ping → IsOk result }
    {
        let mut buffer = mem::replace(&mut self.buffer, Vec::new(alloc));
        let prepared = self.prepare_in(&mut buffer, alloc, tenant, command);
        self.buffer = buffer;
        prepared
    }

    /// The same with keys packed in a buffer.
    #[inline(always)]
    pub(crate) fn prepare_in<'a>(
        &mut self,
        buffer: &mut Vec<u8, A>,
        alloc: A,
        tenant: u32,
        command: Command<'a>,
    ) -> Result<Prepared<'a, A>, AllocError>
        requires is_tenant { IsTenant self.old.entries tenant }
        requires sound { IsSound (shared_of self.old) }
        requires legal { HasLegalKeys (command_of command) }
        ensures prepared { IsPrepared self.old tenant (serves (command_of command.entry))
            self.new result }
        ensures needless { command_of command.entry ≡ Ping → IsOk result }
    {
        let rows = self.present(tenant);
        match command {
            Command::Ping => Ok(only_counted(tenant, Reply::Simple(SimpleString::Pong))),
            Command::Echo(text) => counted(tenant, echo(alloc, text)),
            Command::Get(key) => counted(tenant, self.value(buffer, alloc, rows, key)),
            Command::GetMany(keys) => counted(tenant, self.values(buffer, alloc, rows, keys)),
            Command::Exists(keys) => counted(tenant, self.count_rows(buffer, rows, keys)),
            Command::Length(key) => counted(tenant, self.value_length(buffer, alloc, tenant, key)),
            Command::Range(from, to, count) => {
                let interval = Interval { tenant, from, to };
                let number = rows.number;
                counted(
                    tenant,
                    self.rows_within(buffer, alloc, interval, number, count),
                )
            }
            Command::Del(keys) => self.prepare_del(buffer, alloc, tenant, keys),
            Command::TakeSnapshot => self.prepare_take(tenant),
            Command::ListSnapshots => counted(tenant, self.snapshot_ids(alloc, tenant)),
            Command::DropSnapshot(id) => self.prepare_drop(alloc, tenant, id),
            Command::GetInSnapshot(id, key) => { self.prepare_get(buffer, alloc, tenant, id, key) }
            Command::RangeInSnapshot(id, from, to, count) => {
                let interval = Interval { tenant, from, to };
                self.prepare_range(buffer, alloc, interval, id, count)
            }
            Command::ReportUsage => counted(tenant, self.usage_reply(alloc, tenant)),
            Command::Change(key, update) => {
                self.prepare_change(buffer, alloc, tenant, key, update)
            }
        }
    }
}

/// An answer that changes nothing but the count.
pub(crate) fn only_counted<'a, A: Allocator>(tenant: u32, reply: Reply<A>) -> Prepared<'a, A>
    ensures { result ≡ record { tenant = tenant; change = Change.Count; reply = reply } }
{
    Prepared {
        tenant,
        change: Change::Count,
        reply,
    }
}

/// The same of a reply that may have been refused memory.
pub(crate) fn counted<'a, A: Allocator>(
    tenant: u32,
    reply: Result<Reply<A>, AllocError>,
) -> Result<Prepared<'a, A>, AllocError>
    ensures { OnlyCounts tenant reply result }
{
    match reply {
        Ok(reply) => Ok(only_counted(tenant, reply)),
        Err(refused) => Err(refused),
    }
}

/// The answer to a write that the quota refuses.
pub(crate) fn only_refused<'a, A: Allocator>(tenant: u32) -> Prepared<'a, A>
    ensures { result ≡ record {
      tenant = tenant;
      change = Change.Refuse;
      reply = told.Error refusal.QuotaExceeded;
    } }
{
    Prepared {
        tenant,
        change: Change::Refuse,
        reply: Reply::Error(Refusal::QuotaExceeded),
    }
}

/// The text, told again.
fn echo<A: Allocator>(alloc: A, text: &[u8]) -> Result<Reply<A>, AllocError>
    ensures { IfOk result (λ r. reply_of r ≡ reply.Bulk text.now) }
{
    Ok(Reply::Bulk(ByteString::from_slice(alloc, text)?))
}
