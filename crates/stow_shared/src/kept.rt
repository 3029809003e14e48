//! A journal of every step.
ghost use Rattle.std.specs.Prelude.{true};

use crate::journal::Journal;

/// Each step leaves an entry in the journal and a receipt in its seat.
pub struct Kept;

impl Journal for Kept {
    ghost keeps = { true };

    fn is_kept() -> bool {
        true
    }
}
