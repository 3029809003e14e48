//! What bytes are written to.
ghost use Rattle.std.specs.Prelude.{◌≡◌, ℕ, List, Option, None};
ghost use Rattle.std.specs.Borrow.{GName};
ghost use Rattle.std.specs.Io.{WritesAtMost};
ghost use Rattle.std.specs.Io.KnownBytes.{Keeps, WriteAppends};
ghost use Rattle.stow_workers.specs.Failures.{CountsFailure, CountsWrite};

use std::io;

/// What bytes are written to, and how many of its calls have failed.
pub trait Sink {
    // The bytes that it holds, where they are known.
    ghost contents: { Self → Option (List ℕ) } = { λ _. None };

    // How many writes and flushes have failed, up to the limit.
    ghost failures: { Self → ℕ };

    // The borrow that it writes through, where that is known: each call leaves it.
    ghost borrow: { Self → Option GName } = { λ _. None };

    /// Writes as many of the bytes as it likes. Where it takes none of some, it has failed.
    fn write(&mut self, bytes: &[u8]) -> io::Result<usize>
        ensures bound { WritesAtMost result bytes.now }
        ensures bytes { WriteAppends (contents self.old) (contents self.new) result bytes.now }
        ensures failures { CountsWrite result bytes.now (failures self.old) (failures self.new) }
        ensures same_borrow { borrow self.new ≡ borrow self.old };

    /// Passes on what it has kept back.
    fn flush(&mut self) -> io::Result<()>
        ensures bytes { Keeps (contents self.old) (contents self.new) }
        ensures failures { CountsFailure result (failures self.old) (failures self.new) }
        ensures same_borrow { borrow self.new ≡ borrow self.old };
}
