//! What a lock left.
ghost use Rattle.std.specs.Prelude.{◌≡◌};
ghost use Rattle.stow_shared.specs.Entries.{entries_of};

use crate::book::Book;
use crate::entry::Entry;
use crate::journal::Journal;
use std::alloc::{Allocator, Global};
use std::marker::Model;
use stow_house::stow_core::Core;

/// The core and the journal after the lock was closed.
#[derive(Drop)]
pub struct Closed<J: Journal, A: Allocator + Copy = Global> {
    book: Book<J, A>,
}

impl<J: Journal, A: Allocator + Copy> Model for Closed<J, A> {
    ghost use Rattle.stow_shared.specs.Books.{BookState};

    ghost Value = { BookState };

    ghost view = { λ c. c.book };
}

impl<J: Journal, A: Allocator + Copy> Closed<J, A> {
    pub(crate) fn new(book: Book<J, A>) -> Closed<J, A>
        ensures { result ≡ book }
    {
        Closed { book }
    }

    /// The journal, oldest first; nothing where no entries are kept.
    pub fn entries(&self) -> &[Entry<A>]
        ensures { entries_of result.now ≡ self.now.entries }
    {
        self.book.entries()
    }

    pub fn core(&self) -> &Core<A>
        ensures { result.now ≡ self.now.core }
    {
        self.book.core()
    }
}
