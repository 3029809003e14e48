//! What a connection does with its bytes.
ghost use Rattle.std.specs.Prelude.{◌≡◌, ◌++◌, [], None, OnOk, OnErr};
ghost use Rattle.stow_house.specs.Conversations.{talk_of, Hears};

use crate::heard::Heard;
use crate::session::Session;
use crate::stop::Stop;
use crate::taken::Taken;
use std::alloc::{AllocError, Allocator, Global};
use stow_core::stow_login::tenants::Tenants;
use stow_model::reply::Reply;
use stow_model::words::Words;
use stow_resp::input::Input;
use stow_resp::next::Next;

/// A client's bytes that were not taken yet, and whom it is served as.
#[derive(Drop)]
pub struct Conversation<A: Allocator = Global> {
    input: Input<A>,
    session: Session,
}

impl<A: Allocator + Copy> Conversation<A> {
    /// Nothing has come, and nobody is logged in.
    pub fn new(alloc: A) -> Conversation<A>
        ensures unread { (talk_of result).unread ≡ [] }
        ensures tenant { (talk_of result).tenant ≡ None }
    {
        Conversation {
            input: Input::new(alloc),
            session: Session::new(),
        }
    }

    /// Adds a piece of the stream. An `Err` changes nothing.
    pub fn feed(&mut self, piece: &[u8]) -> Result<(), AllocError>
        ensures ok { OnOk result
            ((talk_of self.new).unread ≡ (talk_of self.old).unread ++ piece.now) }
        ensures err { OnErr result (talk_of self.new ≡ talk_of self.old) }
        ensures tenant { (talk_of self.new).tenant ≡ (talk_of self.old).tenant }
    {
        self.input.feed(piece)
    }

    /// Takes the next message off, if it is whole, and answers it where it is no request of a tenant.
    pub fn hear(&mut self, alloc: A, tenants: &Tenants<A>) -> Heard<A>
        ensures { Hears tenants.now result (talk_of self.old) (talk_of self.new) }
    {
        match self.input.next(alloc) {
            Next::More => Heard::Told(None, Some(Stop::More)),
            Next::NoMemory => Heard::Told(None, Some(Stop::NoMemory)),
            Next::Fault(fault) => {
                Heard::Told(
                    Some(Reply::ProtocolError(fault)),
                    Some(Stop::Faulted(fault)),
                )
            }
            next => match self.session.take(tenants, next) {
                Taken::Told(answer) => Heard::Told(answer.reply, answer.ends.then_some(Stop::Quit)),
                Taken::ForStoreOf(tenant, words) => Heard::Request(tenant, words),
            },
        }
    }

    /// Takes the words of a request back, whose memory can serve the next one.
    pub fn reuse(&mut self, words: Words<A>)
        ensures { talk_of self.new ≡ talk_of self.old }
    {
        self.input.reuse(words);
    }
}
