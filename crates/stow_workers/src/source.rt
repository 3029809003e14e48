//! What bytes are read from.
ghost use Rattle.std.specs.Prelude.{◌≡◌, ℕ, List, Option, None};
ghost use Rattle.std.specs.Borrow.{GName};
ghost use Rattle.std.specs.Io.{ReadsAtMost};
ghost use Rattle.std.specs.Io.KnownBytes.{ReadConsumes};
ghost use Rattle.stow_workers.specs.Failures.{CountsFailure};

use std::io;

/// What bytes are read from, and how many reads have failed.
pub trait Source {
    // The bytes that reads will give from here on, where they are known.
    ghost remaining: { Self → Option (List ℕ) } = { λ _. None };

    // How many reads have failed, up to the limit.
    ghost failures: { Self → ℕ };

    // The borrow that it reads through, where that is known: each call leaves it.
    ghost borrow: { Self → Option GName } = { λ _. None };

    /// Reads as many bytes as it likes, none only at the end or where there is no room.
    fn read(&mut self, room: &mut [u8]) -> io::Result<usize>
        ensures bound { ReadsAtMost result room.new }
        ensures bytes { ReadConsumes (remaining self.old) (remaining self.new) result room.new }
        ensures failures { CountsFailure result (failures self.old) (failures self.new) }
        ensures same_borrow { borrow self.new ≡ borrow self.old };
}
