//! Values that a look-up found.
use crate::lent_value::LentValue;
use std::alloc::{Allocator, Global};
use stow_tree_model::numbered_value::NumberedValue;

/// A value that a look-up found, with its number.
#[derive(Drop)]
pub enum Found<'a, A: Allocator = Global> {
    /// One message or row alone makes it.
    Lent(LentValue<'a>),
    /// Appends make it, so it has memory of its own.
    Folded(NumberedValue<A>),
}

impl<'a, A: Allocator> Found<'a, A> {
    ghost use Rattle.std.specs.Prelude.{◌≡◌};
    ghost use Rattle.stow_read.specs.Found.{found_value};

    /// The number of the write that made it.
    pub fn number(&self) -> u64
        ensures { result ≡ (found_value self.now).number }
    {
        match self {
            Found::Lent(lent) => lent.number,
            Found::Folded(folded) => folded.number,
        }
    }

    /// Its bytes.
    pub fn bytes(&self) -> &[u8]
        ensures { result.now ≡ (found_value self.now).value }
    {
        match self {
            Found::Lent(lent) => lent.value,
            Found::Folded(folded) => folded.value.as_slice(),
        }
    }
}
