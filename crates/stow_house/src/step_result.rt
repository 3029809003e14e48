//! What an event is answered.
ghost use Rattle.std.specs.Prelude.{◌≡◌, option_map};
ghost use Rattle.stow_model.specs.Event as event;
ghost use Rattle.stow_model.specs.Reply.{reply_of};
ghost use Rattle.stow_house.specs.Outputs.{mark_of};
ghost use Rattle.stow_house.specs.StepResult.{step_result_of, served_so, CanAnswerOn};

use crate::mark::Mark;
use crate::stop::Stop;
use std::alloc::{Allocator, Global};
use stow_model::refusal::Refusal;
use stow_model::reply::Reply;

/// What an event led to.
#[derive(Drop)]
pub enum StepResult<A: Allocator = Global> {
    /// The event took place, and gives nothing: so is a merge.
    Done,
    /// The connection is told this.
    Answered(Reply<A>),
    /// The connection's next message isn't whole yet.
    More,
    /// A message that asks for nothing was taken.
    Blank,
    /// The flusher has a job.
    Job,
    /// No buffer holds a message, so there is none.
    NoJob,
    /// The result of the flusher's job came into the tree, and the flusher is free.
    Installed,
    /// The result of the flusher's job can't come into the tree any more. It is dropped, and the flusher is free.
    Stale,
    /// The connection isn't open, its number was used, the flusher has not what the event needs or has a job already, the
    /// cache can't have this size, or the tenant isn't there or can't have this quota. Nothing changed.
    Refused,
    /// Memory was refused. It is as if the event had not been, but that messages may have moved nearer to the leaves.
    NoMemory,
}

impl<A: Allocator> StepResult<A> {
    /// What a Serve led to by which the connection is told this, and goes no further than so.
    pub fn of(told: Option<Reply<A>>, stop: Option<Stop>) -> StepResult<A>
        ensures value { step_result_of result ≡ served_so (option_map reply_of told) stop }
        ensures possible { CanAnswerOn event.Serve (step_result_of result) }
    {
        match stop {
            Some(Stop::More) => StepResult::More,
            Some(Stop::NoMemory) => StepResult::NoMemory,
            None | Some(Stop::Quit | Stop::Faulted(_)) => match told {
                Some(reply) => StepResult::Answered(reply),
                None => StepResult::Blank,
            },
        }
    }

    /// Whether memory was refused to the event, or to the request that it served.
    pub fn mark(&self) -> Mark
        ensures { result ≡ mark_of (step_result_of self.now) }
    {
        match self {
            StepResult::NoMemory => Mark::Void,
            StepResult::Answered(Reply::Error(Refusal::OutOfMemory)) => Mark::Refused,
            _ => Mark::Kept,
        }
    }
}
