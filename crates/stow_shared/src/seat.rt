//! A seat at the lock.
ghost use Rattle.std.specs.Prelude.{◌≡◌, true, IfOk, IfErr, OnOk, OnErr, ◌∷◌, is_some};
ghost use Rattle.stow_model.specs.declared.refusal.Refusal.TheVariants as refusal;
ghost use Rattle.stow_model.specs.Reply.{reply_of};
ghost use Rattle.stow_model.specs.Reply as reply;

use crate::entry::Entry;
use crate::journal::Journal;
use std::alloc::{AllocError, Allocator, Global};
use std::marker::{Model, PhantomData};
use stow_bytes::limits::NUMBER_LIMIT;
use stow_house::stow_core::Core;
use stow_house::stow_merge::flush_job::FlushJob;
use stow_house::stow_merge::flush_result::FlushResult;
use stow_house::stow_node::installed::Installed;
use stow_model::refusal::Refusal;
use stow_model::reply::Reply;

/// The right of one thread to take steps, with a receipt of each where a journal is kept, and the number of its
/// calls that memory was refused to.
#[derive(Drop)]
pub struct Seat<J: Journal, A: Allocator = Global> {
    number: u32,
    receipts: Vec<Entry<A>, A>,
    refused: u64,
    of: PhantomData<J>,
}

impl<J: Journal, A: Allocator> Model for Seat<J, A> {
    ghost use Rattle.stow_shared.specs.Entries.{entries_of};
    ghost use Rattle.stow_shared.specs.Seats.{SeatState};

    ghost Value = { SeatState };

    ghost view = { λ s. record {
      number = s.number;
      receipts = entries_of s.receipts.items;
      refused = s.refused;
    } };
}

impl<J: Journal, A: Allocator> Seat<J, A> {
    ghost use Rattle.stow_shared.specs.Entries.{entry_of, entries_of};
    ghost use Rattle.stow_shared.specs.Seats.{new_seat, with_refusal};

    /// A seat from which no step was taken.
    pub(crate) fn new(alloc: A, number: u32) -> Seat<J, A>
        ensures { result ≡ new_seat number }
    {
        Seat {
            number,
            receipts: Vec::new(alloc),
            refused: 0,
            of: PhantomData,
        }
    }

    /// Its number, from 1.
    pub fn number(&self) -> u32
        ensures { result ≡ self.now.number }
    {
        self.number
    }

    /// What it added to the journal, oldest first.
    pub fn receipts(&self) -> &[Entry<A>]
        ensures { entries_of result.now ≡ self.now.receipts }
    {
        self.receipts.as_slice()
    }

    /// How many of its calls memory was refused to, up to 9,223,372,036,854,775,807.
    pub fn refused(&self) -> u64
        ensures { result ≡ self.now.refused }
    {
        self.refused
    }

    /// Adds a receipt. An `Err` changes nothing.
    pub(crate) fn add(&mut self, receipt: Entry<A>) -> Result<(), AllocError>
        ensures ok { OnOk result
            (self.new ≡ record self.old { receipts = entry_of receipt ∷ self.old.receipts }) }
        ensures err { OnErr result (self.new ≡ self.old) }
    {
        self.receipts.push(receipt)?;
        Ok(())
    }

    /// Counts a call that memory was refused to, and says so.
    pub(crate) fn refuse(&mut self) -> Reply<A>
        ensures told { reply_of result ≡ reply.Error refusal.OutOfMemory }
        ensures counted { self.new ≡ with_refusal self.old }
    {
        if self.refused < NUMBER_LIMIT {
            self.refused += 1;
        }
        Reply::Error(Refusal::OutOfMemory)
    }
}

impl<J: Journal, A: Allocator + Copy> Seat<J, A> {
    ghost use Rattle.stow_house.specs.StowCore.State.{shared_of, Keeps, Resized};
    ghost use Rattle.stow_house.specs.StowState.State.{IsSound};
    ghost use Rattle.stow_shared.specs.Books.{PlansFlush, InstallsFlush};
    ghost use Rattle.stow_shared.specs.Entries.{entry_of, plan_entry, install_entry};
    ghost use Rattle.stow_shared.specs.Seats.{with_receipt};

    /// Asks the core's cache to hold so many leaves, and adds the receipt of it. An `Err` adds none.
    pub(crate) fn resize(
        &mut self,
        core: &mut Core<A>,
        leaves: usize,
        receipt: Entry<A>,
    ) -> Result<(), AllocError>
        requires { IsSound (shared_of core.old) }
        ensures ok { OnOk result
            (self.new ≡ record self.old { receipts = entry_of receipt ∷ self.old.receipts }) }
        ensures err { OnErr result (self.new ≡ self.old) }
        ensures core { OnOk result (Resized leaves core.old core.new) }
        ensures keeps { Keeps core.old core.new }
    {
        self.receipts.reserve(1)?;
        core.resize(leaves)?;
        self.receipts.push_reserved(receipt);
        Ok(())
    }
    /// Plans a flush in the core, and adds the receipt of it. An `Err` adds none.
    pub(crate) fn plan(
        &mut self,
        alloc: A,
        core: &mut Core<A>,
    ) -> Result<Option<FlushJob<A>>, AllocError>
        requires { IsSound (shared_of core.old) }
        ensures ok { IfOk result (λ job. self.new
            ≡ with_receipt true (plan_entry self.old.number (is_some job)) self.old) }
        ensures err { OnErr result (self.new ≡ self.old) }
        ensures core { IfOk result (λ job. PlansFlush core.old job core.new) }
        ensures keeps { Keeps core.old core.new }
    {
        self.receipts.reserve(1)?;
        let job = core.plan(alloc)?;
        self.receipts
            .push_reserved(Entry::planned(self.number, job.is_some()));
        Ok(job)
    }

    /// Installs a job's result in the core, and adds the receipt of it. An `Err` adds none, and gives the result back.
    pub(crate) fn install(
        &mut self,
        alloc: A,
        core: &mut Core<A>,
        merge: FlushResult<A>,
    ) -> Result<Installed, (FlushResult<A>, AllocError)>
        requires { IsSound (shared_of core.old) }
        ensures ok { IfOk result (λ told. self.new
            ≡ with_receipt true (install_entry self.old.number told) self.old) }
        ensures err { OnErr result (self.new ≡ self.old) }
        ensures back { IfErr result (λ e. e.0 ≡ merge) }
        ensures core { IfOk result (λ told. InstallsFlush core.old merge.job told core.new) }
        ensures keeps { Keeps core.old core.new }
    {
        if let Err(refused) = self.receipts.reserve(1) {
            return Err((merge, refused));
        }
        let told = core.install(alloc, merge)?;
        self.receipts
            .push_reserved(Entry::installed(self.number, told));
        Ok(told)
    }
}
