//! One tenant's own store: slow, and as the definitions say it.
ghost use Rattle.std.specs.Prelude.{◌≡◌, ◌++◌, ◌∷◌, [], ◌≤◌, pos, Result, IfOk, OnOk, OnErr};
ghost use Rattle.stow_bytes.specs.Limits.{number_limit};
ghost use Rattle.stow_commands.specs.Commands.{command_of, reading_of, update_of};
ghost use Rattle.stow_commands.specs.Outcomes.{IsOutcome};
ghost use Rattle.stow_model.specs.Command as command;
ghost use Rattle.stow_model.specs.Item.{Bulk, Integer};
ghost use Rattle.stow_model.specs.LentWords.{words_in};
ghost use Rattle.stow_model.specs.Store as store;
ghost use Rattle.stow_model.specs.Reply.{reply_of};
ghost use Rattle.stow_plain.specs.OwnRun.{request_of, store_of, Tells};

use crate::plain_contents::PlainContents;
use crate::plain_number::PlainNumber;
use crate::plain_request::PlainRequest;
use crate::plain_rows::PlainRows;
use std::alloc::{AllocError, Allocator, Global};
use stow_bytes::byte_string::ByteString;
use stow_commands::command::Command;
use stow_commands::outcome::Outcome;
use stow_commands::outcome_fault::OutcomeFault;
use stow_commands::update::Update;
use stow_model::items::Items;
use stow_model::lent_words::LentWords;
use stow_model::refusal::Refusal;
use stow_model::reply::Reply;
use stow_model::simple_string::SimpleString;
use stow_model::usage::Usage;

/// What one tenant has.
#[derive(Drop)]
pub struct PlainStore<A: Allocator = Global> {
    /// The most bytes that may be charged.
    pub quota: PlainNumber,
    /// The rows, and the snapshots with their copies.
    pub contents: PlainContents<A>,
    /// The number of the last write.
    pub last: PlainNumber,
    /// How many requests were answered.
    pub commands: PlainNumber,
    /// How many writes were refused because of the quota.
    pub refusals: PlainNumber,
}

impl<A: Allocator + Copy> PlainStore<A> {
    /// An empty store, and its quota in bytes.
    pub fn new(alloc: A, quota: u64) -> PlainStore<A>
        requires { quota ≤ number_limit }
        ensures { store_of result ≡ store.empty_store quota }
    {
        PlainStore {
            quota: PlainNumber::new(quota),
            contents: PlainContents::new(alloc),
            last: PlainNumber::new(0),
            commands: PlainNumber::new(0),
            refusals: PlainNumber::new(0),
        }
    }

    /// The present rows.
    pub fn rows(&self) -> &PlainRows<A>
        ensures { result.now ≡ (store_of self.now).rows }
    {
        self.contents.rows()
    }

    /// The usage report.
    pub fn usage(&self) -> Usage
        ensures usage { result ≡ store.usage (store_of self.now) }
        ensures within { store.AreWithin result }
    {
        Usage {
            rows: self.rows().len() as u64,
            charge: self.contents.charge(),
            quota: self.quota.get(),
            writes: self.last.get(),
            commands: self.commands.get(),
            refusals: self.refusals.get(),
            snapshots: self.contents.live() as u64,
        }
    }

    /// The operator gives the tenant this quota, in bytes.
    pub fn set_quota(&mut self, quota: u64)
        requires { quota ≤ number_limit }
        ensures { store_of self.new ≡ (store.step (store_of self.old) (store.GivenQuota quota)).0 }
    {
        self.quota = PlainNumber::new(quota);
    }

    /// Serves one request. An `Err` changes nothing.
    pub fn step(&mut self, alloc: A, request: &PlainRequest<A>) -> Result<Reply<A>, AllocError>
        ensures ok { IfOk result
            (λ r. Tells self.new r
            (store.answer_with (store_of self.old) (request_of request.now))) }
        ensures err { OnErr result (self.new ≡ self.old) }
    {
        if request.is_refused {
            return Ok(Reply::Error(Refusal::OutOfMemory));
        }
        let before = self.commands;
        self.commands = before.one_more();
        match self.answer(alloc, Command::read(&request.words)) {
            Ok(reply) => Ok(reply),
            Err(error) => {
                self.commands = before;
                Err(error)
            }
        }
    }

    /// Answers what words say, after they were counted.
    fn answer(
        &mut self,
        alloc: A,
        reading: Result<Command<'_>, Refusal>,
    ) -> Result<Reply<A>, AllocError>
        ensures ok { IfOk result
            (λ r. Tells self.new r
            (store.answer_to (store_of self.old) (reading_of reading.entry))) }
        ensures err { OnErr result (self.new ≡ self.old) }
    {
        match reading {
            Ok(command) => self.serve(alloc, command),
            Err(refusal) => Ok(Reply::Error(refusal)),
        }
    }

    fn serve(&mut self, alloc: A, command: Command<'_>) -> Result<Reply<A>, AllocError>
        ensures ok { IfOk result
            (λ r. Tells self.new r (store.served (store_of self.old) (command_of command.entry))) }
        ensures err { OnErr result (self.new ≡ self.old) }
    {
        match command {
            Command::Ping => Ok(Reply::Simple(SimpleString::Pong)),
            Command::Echo(text) => Ok(Reply::Bulk(ByteString::from_slice(alloc, text)?)),
            Command::Get(key) => self.rows().get(alloc, key),
            Command::GetMany(keys) => Ok(Reply::Array(self.rows().items(alloc, keys)?)),
            Command::Exists(keys) => Ok(Reply::Integer(self.rows().count(keys) as i64)),
            Command::Length(key) => Ok(Reply::Integer(self.rows().value_len(key) as i64)),
            Command::Range(from, to, count) => {
                let items = self.rows().items_within(alloc, from, to, count)?;
                Ok(Reply::Array(items))
            }
            Command::Del(keys) => self.del(keys),
            Command::TakeSnapshot => self.take(alloc),
            Command::ListSnapshots => Ok(Reply::Array(self.contents.ids(alloc)?)),
            Command::DropSnapshot(id) => Ok(self.drop_id(id)),
            Command::GetInSnapshot(id, key) => self.get_in(alloc, id, key),
            Command::RangeInSnapshot(id, from, to, count) => {
                self.range_in(alloc, id, from, to, count)
            }
            Command::ReportUsage => Ok(Reply::Array(self.usage().items(alloc)?)),
            Command::Change(key, update) => self.change(alloc, key, update),
        }
    }

    fn change(&mut self, alloc: A, key: &[u8], update: Update<'_>) -> Result<Reply<A>, AllocError>
        ensures ok { IfOk result
            (λ r. Tells self.new r
            (store.served (store_of self.old)
            (command.Change key.now (update_of update.entry)))) }
        ensures err { OnErr result (self.new ≡ self.old) }
    {
        let outcome = update.outcome(alloc, self.rows().value(key));
        self.carry_out(alloc, key, outcome)
    }

    /// Makes the change of a row that was found.
    fn carry_out(
        &mut self,
        alloc: A,
        key: &[u8],
        outcome: Result<Outcome<A>, OutcomeFault>,
    ) -> Result<Reply<A>, AllocError>
        ensures ok { (o : store.Outcome) → IsOutcome outcome o
            → IfOk result (λ r.
            Tells self.new r (store.change_answer (store_of self.old) key.now o)) }
        ensures err { OnErr result (self.new ≡ self.old) }
    {
        match outcome {
            Ok(Outcome::Written(value, reply)) => self.put(alloc, key, &value, reply),
            Ok(Outcome::Unchanged(reply)) => Ok(reply),
            Err(OutcomeFault::Refused(refusal)) => Ok(Reply::Error(refusal)),
            Err(OutcomeFault::OutOfMemory) => Err(AllocError),
        }
    }

    fn put(
        &mut self,
        alloc: A,
        key: &[u8],
        value: &ByteString<A>,
        reply: Reply<A>,
    ) -> Result<Reply<A>, AllocError>
        ensures ok { IfOk result
            (λ r. Tells self.new r
            (store.change_answer (store_of self.old) key.now
            (store.Written value.now (reply_of reply)))) }
        ensures err { OnErr result (self.new ≡ self.old) }
    {
        let number = self.last.get() + 1;
        let rows = self.rows().with(alloc, key, number, value.as_slice())?;
        Ok(self.write(rows, reply))
    }

    fn del(&mut self, keys: LentWords<'_>) -> Result<Reply<A>, AllocError>
        ensures ok { IfOk result
            (λ r. Tells self.new r (store.del_answer (store_of self.old) (words_in keys.entry))) }
        ensures err { OnErr result (self.new ≡ self.old) }
    {
        let rows = self.rows().without(keys)?;
        let removed = self.rows().len().saturating_sub(rows.len());
        if removed == 0 {
            return Ok(Reply::Integer(0));
        }
        Ok(self.write(rows, Reply::Integer(removed as i64)))
    }

    /// Makes these the rows by the next write, within the quota.
    fn write(&mut self, rows: PlainRows<A>, reply: Reply<A>) -> Reply<A>
        ensures { Tells self.new result
            (store.written (store_of self.old) rows (reply_of reply)) }
    {
        let Some(number) = self.last.next() else {
            return Reply::Error(Refusal::WriteNumbersUsedUp);
        };
        if !self.contents.replace(self.quota, rows) {
            self.refusals = self.refusals.one_more();
            return Reply::Error(Refusal::QuotaExceeded);
        }
        self.last = number;
        reply
    }

    fn take(&mut self, alloc: A) -> Result<Reply<A>, AllocError>
        ensures ok { IfOk result
            (λ r. Tells self.new r (store.take_answer (store_of self.old))) }
        ensures err { OnErr result (self.new ≡ self.old) }
    {
        if !self.contents.can_take() {
            return Ok(Reply::Error(Refusal::TooManySnapshots));
        }
        let id = self.contents.take(alloc)?;
        Ok(Reply::Integer(id as i64))
    }

    fn drop_id(&mut self, id: i64) -> Reply<A>
        ensures { Tells self.new result
            (store.served (store_of self.old) (command.DropSnapshot id)) }
    {
        if self.contents.drop_id(id) {
            Reply::Simple(SimpleString::Ok)
        } else {
            Reply::Error(Refusal::NoSuchSnapshot)
        }
    }

    fn get_in(&self, alloc: A, id: i64, key: &[u8]) -> Result<Reply<A>, AllocError>
        ensures { IfOk result
            (λ r. Tells self.now r
            (store.served (store_of self.now) (command.GetInSnapshot id key.now))) }
    {
        match self.contents.snapshot(id) {
            None => Ok(Reply::Error(Refusal::NoSuchSnapshot)),
            Some(rows) => rows.get(alloc, key),
        }
    }

    fn range_in(
        &self,
        alloc: A,
        id: i64,
        from: &[u8],
        to: &[u8],
        count: u32,
    ) -> Result<Reply<A>, AllocError>
        ensures { IfOk result
            (λ r. Tells self.now r
            (store.served (store_of self.now)
            (command.RangeInSnapshot id from.now to.now count))) }
    {
        match self.contents.snapshot(id) {
            None => Ok(Reply::Error(Refusal::NoSuchSnapshot)),
            Some(rows) => Ok(Reply::Array(rows.items_within(alloc, from, to, count)?)),
        }
    }
}
