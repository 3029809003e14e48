//! Whom a connection is served as.
ghost use Rattle.std.specs.Prelude.{◌≡◌, Some, None, true, false};
ghost use Rattle.stow_model.specs.Command.{kind_of};
ghost use Rattle.stow_model.specs.History.{served_after_kind, quoted_reply};
ghost use Rattle.stow_model.specs.Reply as meant;
ghost use Rattle.stow_model.specs.Reply.{reply_of};
ghost use Rattle.stow_house.specs.Seen.{IsServedTenant};
ghost use Rattle.stow_house.specs.Sessions.{Served, Told, arrival_of, served_after_arrival};
ghost use Rattle.stow_house.specs.Sessions.{taken_of, taking, taking_words};

use crate::answer::Answer;
use crate::door::Door;
use crate::taken::Taken;
use std::alloc::Allocator;
use std::marker::Model;
use stow_core::stow_commands::kind::{Kind, kind_of};
use stow_core::stow_login::tenants::Tenants;
use stow_model::refusal::Refusal;
use stow_model::reply::Reply;
use stow_model::simple_string::SimpleString;
use stow_model::words::Words;
use stow_resp::next::Next;

/// One connection's login: the tenant of the last one that was accepted, if any was.
#[derive(Drop)]
pub struct Session {
    tenant: Option<u32>,
}

impl Model for Session {
    ghost use Rattle.std.specs.Prelude.{ℕ, Option};

    ghost Value = { Option ℕ };

    ghost view = { λ s. s.tenant };
}

impl Session {
    /// Nobody is logged in.
    pub fn new() -> Session
        ensures { result ≡ None }
    {
        Session { tenant: None }
    }

    /// Serves what came next on the connection through a door. A login that is accepted changes who is served
    /// from then on; one that fails changes nothing. Where nothing came, nothing is told.
    pub fn serve<A: Allocator, D: Door<A>>(
        &mut self,
        alloc: A,
        tenants: &Tenants<A>,
        door: &mut D,
        next: Next<A>,
    ) -> Answer<A>
        ensures serves { Served D.answers tenants.now self.old self.new door.old next result door.new }
        ensures tenant { IsServedTenant tenants.now self.old → IsServedTenant tenants.now self.new }
    {
        let taken = self.take(tenants, next);
        taken.finish(alloc, door)
    }

    /// What the connection makes of what came, before any door is asked. It is the first half of `serve`, for
    /// a door that holds the tenants itself.
    pub fn take<A: Allocator>(&mut self, tenants: &Tenants<A>, next: Next<A>) -> Taken<A>
        ensures after { self.new ≡ served_after_arrival tenants.now (arrival_of next) self.old }
        ensures taken { taken_of result ≡ taking tenants.now (arrival_of next) self.old }
        ensures tenant { IsServedTenant tenants.now self.old → IsServedTenant tenants.now self.new }
    {
        match next {
            Next::Message(words) => self.take_words(tenants, words),
            Next::Quoted => told(Reply::Error(self.quoted())),
            Next::Blank => nothing_told(),
            Next::More => nothing_told(),
            Next::Fault(fault) => last_told(Reply::ProtocolError(fault)),
            Next::NoMemory => nothing_told(),
        }
    }

    /// What the connection makes of words.
    fn take_words<A: Allocator>(&mut self, tenants: &Tenants<A>, words: Words<A>) -> Taken<A>
        ensures after { self.new ≡ served_after_kind tenants.now (kind_of words) self.old }
        ensures taken { taken_of result ≡ taking_words tenants.now (kind_of words) words self.old }
        ensures tenant { IsServedTenant tenants.now self.old → IsServedTenant tenants.now self.new }
    {
        match kind_of(words.lent()) {
            Kind::Login(name, password) => match tenants.check(name, password) {
                Some(tenant) => {
                    self.tenant = Some(tenant);
                    told(Reply::Simple(SimpleString::Ok))
                }
                None => told(Reply::Error(Refusal::WrongPassword)),
            },
            Kind::Quit => last_told(Reply::Simple(SimpleString::Ok)),
            Kind::Malformed => told(Reply::Error(Refusal::WrongArgumentCount)),
            Kind::ForStore => match self.tenant {
                None => told(Reply::Error(Refusal::NotAuthenticated)),
                Some(tenant) => Taken::ForStoreOf(tenant, words),
            },
        }
    }

    /// What a quoted line is told.
    pub fn quoted(&self) -> Refusal
        ensures { meant.Error result ≡ quoted_reply self.now }
    {
        match self.tenant {
            None => Refusal::NotAuthenticated,
            Some(_) => Refusal::QuotedInline,
        }
    }
}

/// A reply after which the connection goes on.
fn told<A: Allocator>(reply: Reply<A>) -> Taken<A>
    ensures { taken_of result ≡ Told (Some (reply_of reply)) false }
{
    Taken::Told(Answer {
        reply: Some(reply),
        ends: false,
        used: None,
    })
}

/// A reply after which the connection ends.
fn last_told<A: Allocator>(reply: Reply<A>) -> Taken<A>
    ensures { taken_of result ≡ Told (Some (reply_of reply)) true }
{
    Taken::Told(Answer {
        reply: Some(reply),
        ends: true,
        used: None,
    })
}

/// The connection goes on.
fn nothing_told<A: Allocator>() -> Taken<A>
    ensures { taken_of result ≡ Told None false }
{
    Taken::Told(Answer {
        reply: None,
        ends: false,
        used: None,
    })
}
