//! What a connection makes of what came on it.
use crate::answer::Answer;
use crate::door::Door;
use std::alloc::{Allocator, Global};
use stow_model::words::Words;

/// What a connection makes of what came on it.
#[derive(Drop)]
pub enum Taken<A: Allocator = Global> {
    /// It answers by itself.
    Told(Answer<A>),
    /// The words are for the store of the tenant of this index.
    ForStoreOf(u32, Words<A>),
}

impl<A: Allocator> Taken<A> {
    ghost use Rattle.stow_house.specs.Sessions.{Finished};

    /// The answer. Only words for a tenant's store go through the door.
    pub fn finish<D: Door<A>>(self, alloc: A, door: &mut D) -> Answer<A>
        ensures { Finished D.answers self door.old result door.new }
    {
        match self {
            Taken::Told(answer) => answer,
            Taken::ForStoreOf(tenant, words) => Answer {
                reply: Some(door.call(alloc, tenant, &words)),
                ends: false,
                used: Some(words),
            },
        }
    }
}
