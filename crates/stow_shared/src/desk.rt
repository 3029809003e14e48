//! A seat's doors.
ghost use Rattle.std.specs.Prelude.{◌≡◌, ◌<◌, [], ◌∷◌, length, map, IsSome, None, OnErr, OnOk};
ghost use Rattle.stow_house.specs.FlushDoors.{planned, installed};
ghost use Rattle.stow_house.specs.Pipelines.{AnswersFront};
ghost use Rattle.stow_model.specs.Reply.{reply_of};
ghost use Rattle.stow_shared.specs.Desks.{DeskCalls};
ghost use Rattle.stow_shared.specs.Seats.{SeatFlushes};

use crate::journal::Journal;
use crate::seat::Seat;
use crate::shared::Shared;
use std::alloc::{AllocError, Allocator, Global};
use std::sync::Wait;
use stow_house::door::Door;
use stow_house::flush_door::FlushDoor;
use stow_house::request::Request;
use stow_house::stow_merge::flush_job::FlushJob;
use stow_house::stow_merge::flush_result::FlushResult;
use stow_house::stow_node::installed::Installed;
use stow_model::reply::Reply;
use stow_model::words::Words;

/// A seat at the lock, as the door of a session, and as that of a flusher. The runtime is the thread's that waits for the lock.
#[derive(Drop)]
pub struct Desk<'a, R: Wait, J: Journal, A: Allocator + Copy = Global> {
    pub rt: &'a R,
    pub shared: &'a Shared<J, A>,
    pub seat: &'a mut Seat<J, A>,
}

impl<'a, R: Wait, J: Journal, A: Allocator + Copy> Door<A> for Desk<'a, R, J, A> {
    ghost answers = { DeskCalls J.keeps };

    fn call(&mut self, alloc: A, tenant: u32, words: &Words<A>) -> Reply<A>
        ensures { DeskCalls J.keeps self.old tenant words.now (reply_of result) self.new }
    {
        self.shared.call(self.rt, alloc, self.seat, tenant, words)
    }

    fn call_all(
        &mut self,
        alloc: A,
        requests: &[Request<A>],
        more: &mut Vec<Reply<A>, A>,
    ) -> Reply<A>
        requires some { 0 < length requests.now }
        requires none { more.old.items ≡ [] }
        ensures answers { AnswersFront (DeskCalls J.keeps) self.old requests.now
            (reply_of result ∷ map reply_of more.new.items) self.new }
        ensures within { length more.new.items < length requests.now }
    {
        self.shared
            .call_all(self.rt, alloc, self.seat, requests, more)
    }
}

impl<'a, R: Wait, J: Journal, A: Allocator + Copy> FlushDoor<A> for Desk<'a, R, J, A> {
    // The seat is the same before and after, and gained the receipt of what was done, or nothing where memory was refused.
    ghost flushes = { λ old done new.
        (new.seat.ghost_name ≡ old.seat.ghost_name)
        × SeatFlushes J.keeps old.seat.now done new.seat.now };

    fn plan(&mut self, alloc: A) -> Result<Option<FlushJob<A>>, AllocError>
        ensures { (self.new.seat.ghost_name ≡ self.old.seat.ghost_name)
            × SeatFlushes J.keeps self.old.seat.now (planned result) self.new.seat.now }
    {
        self.shared.plan(self.rt, alloc, self.seat)
    }

    fn install(
        &mut self,
        alloc: A,
        merge: &mut Option<FlushResult<A>>,
    ) -> Result<Installed, AllocError>
        requires { IsSome merge.old }
        ensures installs { (self.new.seat.ghost_name ≡ self.old.seat.ghost_name)
            × SeatFlushes J.keeps self.old.seat.now (installed result) self.new.seat.now }
        ensures taken { OnOk result (merge.new ≡ None) }
        ensures back { OnErr result (merge.new ≡ merge.old) }
    {
        let lent = merge.take().unwrap();
        match self.shared.install(self.rt, alloc, self.seat, lent) {
            Ok(told) => Ok(told),
            Err((back, refused)) => {
                *merge = Some(back);
                Err(refused)
            }
        }
    }
}
