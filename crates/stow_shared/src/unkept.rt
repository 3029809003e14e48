//! No journal.
ghost use Rattle.std.specs.Prelude.{false};

use crate::journal::Journal;

/// Steps leave no entry and no receipt, and ask for no memory of their own.
pub struct Unkept;

impl Journal for Unkept {
    ghost keeps = { false };

    fn is_kept() -> bool {
        false
    }
}
