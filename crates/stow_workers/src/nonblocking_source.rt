//! What bytes are read from without waiting.
ghost use Rattle.std.specs.Prelude.{◌≡◌, ℕ, List, Option, None};
ghost use Rattle.stow_workers.specs.Failures.{CountsFailure};
ghost use Rattle.stow_workers.specs.Nonblocking.{TryReadsAtMost, TryReadConsumes};

use std::io;

/// What bytes are read from without waiting, and how many reads have failed. That nothing is there yet is no failure.
pub trait NonblockingSource {
    // The bytes that reads will give from here on, where they are known.
    ghost remaining: { Self → Option (List ℕ) } = { λ _. None };

    // How many reads have failed, up to the limit.
    ghost failures: { Self → ℕ };

    /// Reads as many bytes as it likes, none only at the end or where there is no room; `None` where it would wait.
    fn try_read(&mut self, room: &mut [u8]) -> io::Result<Option<usize>>
        ensures bound { TryReadsAtMost result room.new }
        ensures bytes { TryReadConsumes (remaining self.old) (remaining self.new) result room.new }
        ensures failures { CountsFailure result (failures self.old) (failures self.new) };
}
