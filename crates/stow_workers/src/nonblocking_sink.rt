//! What bytes are written to without waiting.
ghost use Rattle.std.specs.Prelude.{◌≡◌, ℕ, List, Option, None};
ghost use Rattle.stow_workers.specs.Nonblocking.{TryWritesAtMost, TryWriteAppends, CountsTryWrite};

use std::io;

/// What bytes are written to without waiting, and how many of its calls have failed. That there is no room is no failure.
pub trait NonblockingSink {
    // The bytes that it holds, where they are known.
    ghost contents: { Self → Option (List ℕ) } = { λ _. None };

    // How many writes have failed, up to the limit.
    ghost failures: { Self → ℕ };

    /// Writes as many of the bytes as it likes; `None` where it would wait. Where it takes none of some, it has failed.
    fn try_write(&mut self, bytes: &[u8]) -> io::Result<Option<usize>>
        ensures bound { TryWritesAtMost result bytes.now }
        ensures bytes { TryWriteAppends (contents self.old) (contents self.new) result bytes.now }
        ensures failures { CountsTryWrite result bytes.now (failures self.old) (failures self.new) };
}
