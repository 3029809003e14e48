//! What the lock holds.
ghost use Rattle.std.specs.Prelude.{◌≡◌, ◌↔◌, ◌≤◌, IsTrue, IfOk, IfErr, OnOk, OnErr, [], true};
ghost use Rattle.stow_bytes.specs.Limits.{number_limit};
ghost use Rattle.stow_house.specs.StowCore.State.{IsNewCore};
ghost use Rattle.stow_model.specs.Reply.{reply_of};
ghost use Rattle.stow_shared.specs.Books.{Adds};
ghost use Rattle.stow_shared.specs.Closed.{IsWhole};
ghost use Rattle.stow_shared.specs.Copies.{AreCopies, AreAlike, copied};
ghost use Rattle.stow_shared.specs.Entries.{call_entry, entry_of, entries_of, quota_entry, resize_entry};

use crate::closing::{are_of_seats, are_one_each, have_receipts};
use crate::copies::Copies;
use crate::copying::copied_reply;
use crate::entry::Entry;
use crate::journal::Journal;
use crate::seat::Seat;
use crate::step::Step;
use std::alloc::{AllocError, Allocator, Global};
use std::marker::{Model, PhantomData};
use stow_house::stow_core::Core;
use stow_house::stow_core::prepared::Prepared;
use stow_house::stow_login::tenants::Tenants;
use stow_house::stow_merge::flush_job::FlushJob;
use stow_house::stow_merge::flush_result::FlushResult;
use stow_house::stow_node::installed::Installed;
use stow_model::reply::Reply;
use stow_model::words::Words;

/// The core, and the journal that leads to it.
#[derive(Drop)]
pub struct Book<J: Journal, A: Allocator + Copy = Global> {
    core: Core<A>,
    journal: Vec<Entry<A>, A>,
    of: PhantomData<J>,
}

impl<J: Journal, A: Allocator + Copy> Model for Book<J, A> {
    ghost use Rattle.stow_shared.specs.Books.{BookState, IsBook};
    ghost use Rattle.stow_shared.specs.Entries.{entries_of};

    ghost Value = { BookState };

    ghost view = { λ b. record { core = b.core; entries = entries_of b.journal.items } };

    ghost invariant = { λ b. IsBook J.keeps (entries_of b.journal.items) b.core };
}

impl<J: Journal, A: Allocator + Copy> Book<J, A> {
    ghost use Rattle.stow_shared.specs.Books.{CallStep, Installs, Orders, Plans, Resizes, Leaves, IsJournalKept};

    /// A book of a core in which every store is empty.
    pub fn new(alloc: A, core: Core<A>) -> Book<J, A>
        requires { IsNewCore core }
        ensures core { result.core ≡ core }
        ensures entries { result.entries ≡ [] }
    {
        Book {
            core,
            journal: Vec::new(alloc),
            of: PhantomData,
        }
    }

    /// The core, as the steps so far left it.
    pub fn core(&self) -> &Core<A>
        ensures { result.now ≡ self.now.core }
    {
        &self.core
    }

    /// The entries of the steps so far, oldest first.
    pub fn entries(&self) -> &[Entry<A>]
        ensures { entries_of result.now ≡ self.now.entries }
    {
        self.journal.as_slice()
    }

    /// Whether what is handed back belongs to the book, of which the type keeps that its journal leads to its core.
    pub fn is_whole(&self, tenants: &Tenants<A>, count: u32, seats: &[Seat<J, A>]) -> bool
        ensures whole { IsTrue result
            ↔ IsWhole J.keeps tenants.now count seats.now self.now }
        ensures kept { IsJournalKept J.keeps self.now.entries self.now.core }
    {
        if !are_one_each(seats, count) || !self.core.tenants().is_same(tenants) {
            return false;
        }
        if !J::is_kept() {
            return true;
        }
        have_receipts(seats, self.journal.as_slice())
            && are_of_seats(self.journal.as_slice(), count)
    }

    /// The step of a call. Where memory is refused, no store moves and nothing is added.
    pub fn call(
        &mut self,
        alloc: A,
        seat: &mut Seat<J, A>,
        tenant: u32,
        words: &Words<A>,
        copies: Option<Copies<A>>,
    ) -> Reply<A>
        requires { AreCopies J.keeps words.now copies }
        ensures { CallStep J.keeps self.old seat.old tenant words.now (reply_of result) self.new
            seat.new }
    {
        let prepared = match self.core.prepare(alloc, tenant, words) {
            Ok(prepared) => prepared,
            Err(_) => return seat.refuse(),
        };
        match keep_call(alloc, &mut self.journal, seat, tenant, copies, prepared) {
            Ok(prepared) => self.core.commit(prepared),
            Err(_) => seat.refuse(),
        }
    }

    /// The step of another size of the cache. Where memory is refused, no store moves and nothing is added.
    pub fn resize(&mut self, seat: &mut Seat<J, A>, leaves: usize) -> Result<(), AllocError>
        requires { leaves ≤ 65536 }
        ensures ok { OnOk result
            (Resizes J.keeps self.old seat.old leaves self.new seat.new) }
        ensures err { OnErr result (Leaves self.old self.new × (seat.new ≡ seat.old)) }
    {
        if !J::is_kept() {
            return self.core.resize(leaves);
        }
        let number = seat.number();
        self.journal.reserve(1)?;
        seat.resize(&mut self.core, leaves, resized(number, leaves))?;
        self.journal.push_reserved(resized(number, leaves));
        Ok(())
    }

    /// The step of a quota for a tenant, in bytes; it is a step where the number is no tenant's too, and changes nothing
    /// then. Where entries are kept their room may be refused; then nothing changes and nothing is added.
    pub fn set_quota(
        &mut self,
        seat: &mut Seat<J, A>,
        tenant: u32,
        quota: u64,
    ) -> Result<(), AllocError>
        requires { quota ≤ number_limit }
        ensures ok { OnOk result
            (Orders J.keeps self.old seat.old tenant quota self.new seat.new) }
        ensures err { OnErr result ((self.new ≡ self.old) × (seat.new ≡ seat.old)) }
        ensures memory { OnErr result (J.keeps ≡ true) }
    {
        keep_quota(&mut self.journal, seat, tenant, quota)?;
        self.core.set_quota(tenant, quota);
        Ok(())
    }

    /// The step of a flush that is planned: its job, if there is one. Where memory is refused, no store moves and nothing is
    /// added.
    pub fn plan(
        &mut self,
        alloc: A,
        seat: &mut Seat<J, A>,
    ) -> Result<Option<FlushJob<A>>, AllocError>
        ensures ok { IfOk result (λ job.
            Plans J.keeps self.old seat.old job self.new seat.new) }
        ensures err { OnErr result (Leaves self.old self.new × (seat.new ≡ seat.old)) }
    {
        if !J::is_kept() {
            return self.core.plan(alloc);
        }
        let number = seat.number();
        self.journal.reserve(1)?;
        let job = seat.plan(alloc, &mut self.core)?;
        self.journal
            .push_reserved(Entry::planned(number, job.is_some()));
        Ok(job)
    }

    /// The step of a job's result, which is installed or stale. Where memory is refused, it comes back, no store moves and
    /// nothing is added.
    pub fn install(
        &mut self,
        alloc: A,
        seat: &mut Seat<J, A>,
        merge: FlushResult<A>,
    ) -> Result<Installed, (FlushResult<A>, AllocError)>
        ensures ok { IfOk result (λ told.
            Installs J.keeps self.old seat.old merge.job told self.new seat.new) }
        ensures err { OnErr result (Leaves self.old self.new × (seat.new ≡ seat.old)) }
        ensures back { IfErr result (λ e. e.0 ≡ merge) }
    {
        if !J::is_kept() {
            return self.core.install(alloc, merge);
        }
        let number = seat.number();
        if let Err(refused) = self.journal.reserve(1) {
            return Err((merge, refused));
        }
        let told = seat.install(alloc, &mut self.core, merge)?;
        self.journal.push_reserved(Entry::installed(number, told));
        Ok(told)
    }
}

/// The entry of a seat that gave a tenant a quota.
fn ordered<A: Allocator>(seat: u32, tenant: u32, quota: u64) -> Entry<A>
    ensures { entry_of result ≡ quota_entry seat tenant quota }
{
    Entry {
        seat,
        step: Step::Quota(tenant, quota),
    }
}

/// The entry of a seat that gave the cache another size.
fn resized<A: Allocator>(seat: u32, leaves: usize) -> Entry<A>
    ensures { entry_of result ≡ resize_entry seat leaves }
{
    Entry {
        seat,
        step: Step::Resize(leaves),
    }
}

/// Adds a call's entry to the journal, and the same to the seat's receipts, where they are kept, and gives the
/// prepared answer back. An `Err` adds nothing, and the answer is given up.
fn keep_call<'a, J: Journal, A: Allocator + Copy>(
    alloc: A,
    journal: &mut Vec<Entry<A>, A>,
    seat: &mut Seat<J, A>,
    tenant: u32,
    copies: Option<Copies<A>>,
    prepared: Prepared<'a, A>,
) -> Result<Prepared<'a, A>, AllocError>
    requires { AreAlike J.keeps copies }
    ensures same { IfOk result (λ p. p ≡ prepared.entry) }
    ensures ok { OnOk result
        (Adds J.keeps
        (call_entry seat.old.number tenant (copied copies) (reply_of prepared.entry.reply))
        (entries_of journal.old.items) seat.old (entries_of journal.new.items) seat.new) }
    ensures err { OnErr result ((journal.new.items ≡ journal.old.items) × (seat.new ≡ seat.old)) }
{
    let Some(Copies { entry, receipt }) = copies else {
        return Ok(prepared);
    };
    let number = seat.number();
    let entry = Step::Call(tenant, entry, copied_reply(alloc, prepared.reply())?);
    let receipt = Step::Call(tenant, receipt, copied_reply(alloc, prepared.reply())?);
    keep(
        journal,
        seat,
        Entry {
            seat: number,
            step: entry,
        },
        Entry {
            seat: number,
            step: receipt,
        },
    )?;
    Ok(prepared)
}

/// Adds the entry of a quota to the journal, and the same to the seat's receipts, where they are kept. An `Err` adds
/// nothing.
fn keep_quota<J: Journal, A: Allocator + Copy>(
    journal: &mut Vec<Entry<A>, A>,
    seat: &mut Seat<J, A>,
    tenant: u32,
    quota: u64,
) -> Result<(), AllocError>
    ensures ok { OnOk result
        (Adds J.keeps (quota_entry seat.old.number tenant quota)
        (entries_of journal.old.items) seat.old (entries_of journal.new.items) seat.new) }
    ensures err { OnErr result ((journal.new.items ≡ journal.old.items) × (seat.new ≡ seat.old)) }
    ensures memory { OnErr result (J.keeps ≡ true) }
{
    if !J::is_kept() {
        return Ok(());
    }
    let number = seat.number();
    let entry = ordered(number, tenant, quota);
    keep(journal, seat, entry, ordered(number, tenant, quota))?;
    Ok(())
}

/// Adds an entry to the journal, and the same to the seat's receipts. An `Err` adds nothing.
fn keep<J: Journal, A: Allocator + Copy>(
    journal: &mut Vec<Entry<A>, A>,
    seat: &mut Seat<J, A>,
    entry: Entry<A>,
    receipt: Entry<A>,
) -> Result<(), AllocError>
    requires { entry_of receipt ≡ entry_of entry }
    ensures ok { OnOk result
        (Adds true (entry_of entry) (entries_of journal.old.items) seat.old
        (entries_of journal.new.items) seat.new) }
    ensures err { OnErr result ((journal.new.items ≡ journal.old.items) × (seat.new ≡ seat.old)) }
{
    journal.reserve(1)?;
    seat.add(receipt)?;
    journal.push_reserved(entry);
    Ok(())
}
