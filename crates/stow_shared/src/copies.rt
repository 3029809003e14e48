//! Copies of a call's words.
ghost use Rattle.std.specs.Prelude.{IfOk};

use crate::copying::copied_words;
use crate::journal::Journal;
use std::alloc::{AllocError, Allocator, Global};
use stow_model::words::Words;

/// The words of a call twice: for its entry and for its receipt.
#[derive(Drop)]
pub struct Copies<A: Allocator = Global> {
    pub(crate) entry: Words<A>,
    pub(crate) receipt: Words<A>,
}

impl<A: Allocator + Copy> Copies<A> {
    ghost use Rattle.stow_shared.specs.Copies.{AreCopies};

    /// The copies that a call needs before it takes the lock: none where no entries are kept.
    pub fn of<J: Journal>(alloc: A, words: &Words<A>) -> Result<Option<Copies<A>>, AllocError>
        ensures { IfOk result (λ copies. AreCopies J.keeps words.now copies) }
    {
        if !J::is_kept() {
            return Ok(None);
        }
        Ok(Some(Copies {
            entry: copied_words(alloc, words)?,
            receipt: copied_words(alloc, words)?,
        }))
    }
}
