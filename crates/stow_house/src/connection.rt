//! A conversation that was opened, and may be closed.
ghost use Rattle.std.specs.Prelude.{◌≡◌, [], None, true};
ghost use Rattle.stow_model.specs.Event as event;
ghost use Rattle.stow_house.specs.Conversations.{talk_of};
ghost use Rattle.stow_house.specs.StepResult.{step_result_of, CanAnswerOn};
ghost use Rattle.stow_house.specs.Connections.{meaning, Happened};

use crate::connection_event::ConnectionEvent;
use crate::conversation::Conversation;
use crate::heard::Heard;
use crate::step_result::StepResult;
use crate::stop::Stop;
use std::alloc::{Allocator, Global};
use stow_core::Core;

/// A connection that was opened.
#[derive(Drop)]
pub struct Connection<A: Allocator = Global> {
    conversation: Conversation<A>,
    is_open: bool,
}

impl<A: Allocator + Copy> Connection<A> {
    /// A connection on which nothing has come.
    pub fn new(alloc: A) -> Connection<A>
        ensures open { result.is_open ≡ true }
        ensures unread { (talk_of result.conversation).unread ≡ [] }
        ensures tenant { (talk_of result.conversation).tenant ≡ None }
    {
        Connection {
            conversation: Conversation::new(alloc),
            is_open: true,
        }
    }

    /// One event.
    #[inline(always)]
    pub fn step(
        &mut self,
        alloc: A,
        core: &mut Core<A>,
        event: ConnectionEvent<'_>,
    ) -> StepResult<A>
        ensures possible { CanAnswerOn (meaning event.entry) (step_result_of result) }
        ensures does { Happened (meaning event.entry) result self.old self.new core.old core.new }
    {
        if !self.is_open {
            return StepResult::Refused;
        }
        match event {
            ConnectionEvent::Piece(bytes) => match self.conversation.feed(bytes) {
                Ok(()) => StepResult::Done,
                Err(_) => StepResult::NoMemory,
            },
            ConnectionEvent::Serve => self.serve(alloc, core),
            ConnectionEvent::Close => {
                self.is_open = false;
                StepResult::Done
            }
        }
    }

    /// Serves the next message of the open connection. A request's words serve the one after it.
    #[inline(always)]
    fn serve(&mut self, alloc: A, core: &mut Core<A>) -> StepResult<A>
        requires { self.old.is_open ≡ true }
        ensures possible { CanAnswerOn event.Serve (step_result_of result) }
        ensures does { Happened event.Serve result self.old self.new core.old core.new }
    {
        match self.conversation.hear(alloc, core.tenants()) {
            Heard::Told(told, stop) => {
                self.is_open = Stop::stays_open(stop);
                StepResult::of(told, stop)
            }
            Heard::Request(tenant, words) => {
                let reply = core.call(alloc, tenant, &words);
                self.conversation.reuse(words);
                StepResult::Answered(reply)
            }
        }
    }
}
