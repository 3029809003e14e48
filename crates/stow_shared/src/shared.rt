//! A core that threads share.
ghost use Rattle.std.specs.Prelude.{◌≡◌, ◌≤◌, ◌<◌, [], ◌∷◌, length, map, true, is_some, IfOk, IfErr, OnOk, OnErr};
ghost use Rattle.stow_bytes.specs.Limits.{number_limit};
ghost use Rattle.std.specs.Arc.{arc_value};
ghost use Rattle.stow_house.specs.StowCore.State.{IsNewCore};
ghost use Rattle.stow_house.specs.Pipelines.{AnswersFront};
ghost use Rattle.stow_model.specs.Reply.{reply_of};
ghost use Rattle.stow_shared.specs.Closed.{Closes};
ghost use Rattle.stow_shared.specs.Entries.{install_entry, plan_entry, quota_entry, resize_entry};
ghost use Rattle.stow_shared.specs.Opened.{AreNewSeats, IsFaultOf, IsSeatCount, Opens};
ghost use Rattle.stow_shared.specs.Seats.{SeatCalls, with_receipt};

use crate::book::Book;
use crate::closed::Closed;
use crate::copies::Copies;
use crate::journal::Journal;
use crate::open_fault::OpenFault;
use crate::pipelined::answer_all;
use crate::seat::Seat;
use crate::turns::{Turns, asks_for_many, bytes_of};
use std::alloc::{AllocError, Allocator, Global};
use std::marker::Model;
use std::snapshot::Snapshot;
use std::sync::{Arc, Mutex, Wait};
use stow_house::request::Request;
use stow_house::stow_core::Core;
use stow_house::stow_login::tenants::Tenants;
use stow_house::stow_merge::flush_job::FlushJob;
use stow_house::stow_merge::flush_result::FlushResult;
use stow_house::stow_node::installed::Installed;
use stow_model::reply::Reply;
use stow_model::words::Words;

/// The most seats at one lock.
const SEAT_LIMIT: u32 = 1024;

/// A core behind a lock, with its journal where one is kept.
#[derive(Drop)]
pub struct Shared<J: Journal, A: Allocator + Copy = Global> {
    tenants: Arc<Tenants<A>, A>,
    seats: u32,
    turns: Turns,
    /// The core as it was opened, of which contracts alone speak.
    opened: Snapshot<Core<A>>,
    book: Mutex<Book<J, A>>,
}

impl<J: Journal, A: Allocator + Copy> Model for Shared<J, A> {
    ghost use Rattle.std.specs.Arc.{arc_value};
    ghost use Rattle.stow_shared.specs.Opened.{SharedState};

    ghost Value = { SharedState };

    ghost view = { λ s. record {
      tenants = arc_value s.tenants;
      seats = s.seats;
      opened = s.opened.value;
    } };
}

impl<J: Journal, A: Allocator + Copy> Shared<J, A> {
    /// Puts a core in which every store is empty behind a lock, with so many seats, numbered from 1. An `Err` gives
    /// the core back.
    pub fn open(
        alloc: A,
        core: Core<A>,
        seats: u32,
    ) -> Result<(Shared<J, A>, Vec<Seat<J, A>, A>), (Core<A>, OpenFault)>
        requires { IsNewCore core }
        ensures opened { IfOk result (λ r. Opens core seats r.0 r.1.items) }
        ensures core { IfErr result (λ r. r.0 ≡ core) }
        ensures fault { IfErr result (λ r. IsFaultOf seats r.1) }
    {
        if seats == 0 || seats > SEAT_LIMIT {
            return Err((core, OpenFault::SeatCount));
        }
        let Ok(handed) = new_seats(alloc, seats) else {
            return Err((core, OpenFault::OutOfMemory));
        };
        match Arc::try_clone(core.tenants()) {
            Ok(tenants) => {
                let shared = Shared {
                    tenants,
                    seats,
                    turns: Turns::new(),
                    opened: Snapshot::of(&core),
                    book: Mutex::new(Book::new(alloc, core)),
                };
                Ok((shared, handed))
            }
            Err(_) => Err((core, OpenFault::OutOfMemory)),
        }
    }

    /// The tenants of the core that was opened.
    pub fn tenants(&self) -> &Arc<Tenants<A>, A>
        ensures { arc_value result.now ≡ self.now.tenants }
    {
        &self.tenants
    }

    /// Answers a tenant's words, whole, while the lock is held. The seat gains the receipt of it where entries are
    /// kept; where memory was refused it gains none, and counts the call. Requests that ask for many rows take turns.
    pub fn call<R: Wait>(
        &self,
        rt: &R,
        alloc: A,
        seat: &mut Seat<J, A>,
        tenant: u32,
        words: &Words<A>,
    ) -> Reply<A>
        ensures { SeatCalls J.keeps seat.old tenant words.now (reply_of result) seat.new }
    {
        if !asks_for_many(words) {
            return self.answer(rt, alloc, seat, tenant, words);
        }
        let mut turn = self.turns.take(rt);
        let reply = self.answer(rt, alloc, seat, tenant, words);
        *turn = bytes_of(&reply);
        reply
    }

    /// The same, without a turn.
    fn answer<R: Wait>(
        &self,
        rt: &R,
        alloc: A,
        seat: &mut Seat<J, A>,
        tenant: u32,
        words: &Words<A>,
    ) -> Reply<A>
        ensures { SeatCalls J.keeps seat.old tenant words.now (reply_of result) seat.new }
    {
        match Copies::of::<J>(alloc, words) {
            Ok(copies) => self.book.lock(rt).call(alloc, seat, tenant, words, copies),
            Err(_) => seat.refuse(),
        }
    }

    /// Answers requests one after another while the lock is held, each as `call` does: the first of them at least, and the next
    /// ones for as many as `more` has room, no reply before them may be long, and none of them asks for many rows.
    pub fn call_all<R: Wait>(
        &self,
        rt: &R,
        alloc: A,
        seat: &mut Seat<J, A>,
        requests: &[Request<A>],
        more: &mut Vec<Reply<A>, A>,
    ) -> Reply<A>
        requires some { 0 < length requests.now }
        requires none { more.old.items ≡ [] }
        ensures answers { AnswersFront (SeatCalls J.keeps) seat.old requests.now
            (reply_of result ∷ map reply_of more.new.items) seat.new }
        ensures within { length more.new.items < length requests.now }
    {
        if !asks_for_many(&requests[0].words) {
            return self.answer_all(rt, alloc, seat, requests, more);
        }
        let mut turn = self.turns.take(rt);
        let first = self.answer_all(rt, alloc, seat, requests, more);
        *turn = bytes_of(&first);
        first
    }

    /// The same, without a turn.
    fn answer_all<R: Wait>(
        &self,
        rt: &R,
        alloc: A,
        seat: &mut Seat<J, A>,
        requests: &[Request<A>],
        more: &mut Vec<Reply<A>, A>,
    ) -> Reply<A>
        requires some { 0 < length requests.now }
        requires none { more.old.items ≡ [] }
        ensures answers { AnswersFront (SeatCalls J.keeps) seat.old requests.now
            (reply_of result ∷ map reply_of more.new.items) seat.new }
        ensures within { length more.new.items < length requests.now }
    {
        let mut book = self.book.lock(rt);
        answer_all(&mut book, alloc, seat, requests, more)
    }

    /// Asks the cache to hold so many leaves, while the lock is held.
    pub fn resize<R: Wait>(
        &self,
        rt: &R,
        seat: &mut Seat<J, A>,
        leaves: usize,
    ) -> Result<(), AllocError>
        requires { leaves ≤ 65536 }
        ensures ok { OnOk result
            (seat.new ≡ with_receipt J.keeps (resize_entry seat.old.number leaves) seat.old) }
        ensures err { OnErr result (seat.new ≡ seat.old) }
    {
        self.book.lock(rt).resize(seat, leaves)
    }

    /// Gives a tenant another quota, in bytes, while the lock is held. A number that is no tenant's changes nothing. The seat
    /// gains the receipt of it where entries are kept, for which memory may be refused.
    pub fn set_quota<R: Wait>(
        &self,
        rt: &R,
        seat: &mut Seat<J, A>,
        tenant: u32,
        quota: u64,
    ) -> Result<(), AllocError>
        requires { quota ≤ number_limit }
        ensures ok { OnOk result
            (seat.new ≡ with_receipt J.keeps (quota_entry seat.old.number tenant quota) seat.old) }
        ensures err { OnErr result (seat.new ≡ seat.old) }
        ensures memory { OnErr result (J.keeps ≡ true) }
    {
        self.book.lock(rt).set_quota(seat, tenant, quota)
    }

    /// Plans a flush while the lock is held: its job, if there is one, to be merged outside the lock. The seat gains the receipt
    /// of it where entries are kept. Where memory is refused it gains none.
    pub fn plan<R: Wait>(
        &self,
        rt: &R,
        alloc: A,
        seat: &mut Seat<J, A>,
    ) -> Result<Option<FlushJob<A>>, AllocError>
        ensures ok { IfOk result (λ job. seat.new
            ≡ with_receipt J.keeps (plan_entry seat.old.number (is_some job)) seat.old) }
        ensures err { OnErr result (seat.new ≡ seat.old) }
    {
        self.book.lock(rt).plan(alloc, seat)
    }

    /// Installs a job's result while the lock is held, unless it is stale. The seat gains the receipt of it where entries are
    /// kept. Where memory is refused it gains none, and the result comes back.
    pub fn install<R: Wait>(
        &self,
        rt: &R,
        alloc: A,
        seat: &mut Seat<J, A>,
        merge: FlushResult<A>,
    ) -> Result<Installed, (FlushResult<A>, AllocError)>
        ensures ok { IfOk result (λ told. seat.new
            ≡ with_receipt J.keeps (install_entry seat.old.number told) seat.old) }
        ensures err { OnErr result (seat.new ≡ seat.old) }
        ensures back { IfErr result (λ e. e.0 ≡ merge) }
    {
        self.book.lock(rt).install(alloc, seat, merge)
    }

    /// Takes the core and the journal out of the lock, where all that is handed back belongs together, which is
    /// compared here. An `Err` gives all back.
    pub fn close(
        self,
        seats: Vec<Seat<J, A>, A>,
    ) -> Result<Closed<J, A>, (Shared<J, A>, Vec<Seat<J, A>, A>)>
        ensures closed { IfOk result (λ closed. Closes J.keeps self seats.items closed) }
        ensures shared { IfErr result (λ r. r.0 ≡ self) }
        ensures seats { IfErr result (λ r. r.1.items ≡ seats.items) }
    {
        let Shared {
            tenants,
            seats: count,
            turns,
            opened,
            book,
        } = self;
        let book = book.into_inner();
        if book.is_whole(&tenants, count, seats.as_slice()) {
            return Ok(Closed::new(book));
        }
        let shared = Shared {
            tenants,
            seats: count,
            turns,
            opened,
            book: Mutex::new(book),
        };
        Err((shared, seats))
    }
}

/// So many seats, numbered from 1.
fn new_seats<J: Journal, A: Allocator + Copy>(
    alloc: A,
    count: u32,
) -> Result<Vec<Seat<J, A>, A>, AllocError>
    requires { IsSeatCount count }
    ensures { IfOk result (λ seats. AreNewSeats count seats.items) }
{
    let mut seats = Vec::with_capacity(alloc, count as usize)?;
    for before in 0..count {
        seats.push(Seat::new(alloc, before + 1))?;
    }
    Ok(seats)
}
