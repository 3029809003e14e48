//! What answers tenants' requests.
ghost use Rattle.std.specs.Prelude.{◌≡◌, ◌<◌, ℕ, List, [], ◌∷◌, length, map};
ghost use Rattle.stow_model.specs.Reply.{Reply, reply_of};
ghost use Rattle.stow_core.specs.State.{Calls};
ghost use Rattle.stow_house.specs.Pipelines.{AnswersFront};

use crate::request::Request;
use std::alloc::Allocator;
use stow_core::Core;
use stow_model::reply::Reply;
use stow_model::words::Words;

/// What answers the requests of tenants who are logged in.
pub trait Door<A: Allocator> {
    // The door before a call, the tenant and its words, the reply, and the door after.
    ghost answers: { Self → ℕ → List (List ℕ) → Reply → Self → Type 0 };

    /// Answers a tenant's words.
    fn call(&mut self, alloc: A, tenant: u32, words: &Words<A>) -> Reply<A>
        ensures { answers self.old tenant words.now (reply_of result) self.new };

    /// Answers requests one after another, the first of them at least: its reply, and those of the next ones, for as many as the
    /// door takes together and the list has room.
    fn call_all(
        &mut self,
        alloc: A,
        requests: &[Request<A>],
        more: &mut Vec<Reply<A>, A>,
    ) -> Reply<A>
        requires some { 0 < length requests.now }
        requires none { more.old.items ≡ [] }
        ensures answers { AnswersFront answers self.old requests.now
            (reply_of result ∷ map reply_of more.new.items) self.new }
        ensures within { length more.new.items < length requests.now };
}

impl<A: Allocator + Copy> Door<A> for Core<A> {
    ghost answers = { Calls };

    fn call(&mut self, alloc: A, tenant: u32, words: &Words<A>) -> Reply<A>
        ensures { Calls self.old tenant words.now (reply_of result) self.new }
    {
        Core::call(self, alloc, tenant, words)
    }

    fn call_all(
        &mut self,
        alloc: A,
        requests: &[Request<A>],
        more: &mut Vec<Reply<A>, A>,
    ) -> Reply<A>
        requires some { 0 < length requests.now }
        requires none { more.old.items ≡ [] }
        ensures answers { AnswersFront Calls self.old requests.now
            (reply_of result ∷ map reply_of more.new.items) self.new }
        ensures within { length more.new.items < length requests.now }
    {
        let _only = more;
        let request = &requests[0];
        Core::call(self, alloc, request.tenant, &request.words)
    }
}
