//! Answers that have their memory.
ghost use Rattle.std.specs.Prelude.{◌≡◌};

use crate::change::Change;
use std::alloc::{Allocator, Global};
use stow_model::reply::Reply;

/// A tenant's answer, with all the memory that it takes. What it writes is lent from the request where it can be.
/// `Core::commit` carries it out.
#[derive(Drop)]
pub struct Prepared<'a, A: Allocator = Global> {
    pub(crate) tenant: u32,
    pub(crate) change: Change<'a, A>,
    pub(crate) reply: Reply<A>,
}

impl<A: Allocator> Prepared<'_, A> {
    /// What the client will be told.
    pub fn reply(&self) -> &Reply<A>
        ensures { result.now ≡ self.now.reply }
    {
        &self.reply
    }
}
