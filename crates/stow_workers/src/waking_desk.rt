//! A desk that wakes flushers.
ghost use Rattle.std.specs.Prelude.{◌≡◌, ◌<◌, [], ◌∷◌, length, map};
ghost use Rattle.stow_shared.specs.StowHouse.Pipelines.{AnswersFront};
ghost use Rattle.stow_model.specs.Reply.{reply_of};
ghost use Rattle.stow_workers.specs.WakingDesks.{WakingCalls};

use crate::waker::Waker;
use std::alloc::{Allocator, Global};
use std::sync::Wait;
use stow_model::reply::Reply;
use stow_model::words::Words;
use stow_shared::desk::Desk;
use stow_shared::journal::Journal;
use stow_shared::stow_house::door::Door;
use stow_shared::stow_house::request::Request;

/// The desk of a worker, whose calls are counted to wake flushers. As a door it is its desk.
#[derive(Drop)]
pub struct WakingDesk<'a, R: Wait, J: Journal, A: Allocator + Copy = Global> {
    pub desk: Desk<'a, R, J, A>,
    pub waker: &'a mut Waker<A>,
}

impl<'a, R: Wait, J: Journal, A: Allocator + Copy> Door<A> for WakingDesk<'a, R, J, A> {
    ghost answers = { WakingCalls J.keeps };

    fn call(&mut self, alloc: A, tenant: u32, words: &Words<A>) -> Reply<A>
        ensures { WakingCalls J.keeps self.old tenant words.now (reply_of result) self.new }
    {
        let reply = self.desk.call(alloc, tenant, words);
        self.waker.count(self.desk.rt);
        reply
    }

    fn call_all(
        &mut self,
        alloc: A,
        requests: &[Request<A>],
        more: &mut Vec<Reply<A>, A>,
    ) -> Reply<A>
        requires some { 0 < length requests.now }
        requires none { more.old.items ≡ [] }
        ensures answers { AnswersFront (WakingCalls J.keeps) self.old requests.now
            (reply_of result ∷ map reply_of more.new.items) self.new }
        ensures within { length more.new.items < length requests.now }
    {
        let first = self.desk.call_all(alloc, requests, more);
        self.waker.count_all(self.desk.rt, 1 + more.len());
        first
    }
}
