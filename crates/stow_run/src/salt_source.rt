//! Where salts come from.
ghost use Rattle.std.specs.Prelude.{◌≡◌, ℕ, List, length, IfOk};

use crate::folder::System;
use std::io;
use std::random::RandomSource;

/// Where the salt of a new tenant comes from.
pub trait SaltSource {
    // The bytes that it may give.
    ghost gives: { Self → List ℕ → Type 0 };

    /// Sixteen bytes.
    fn salt(&self) -> io::Result<[u8; 16]>
        ensures { IfOk result (λ salt. gives self.now salt) };
}

/// The system's random source.
impl<R: RandomSource> SaltSource for System<'_, R> {
    ghost gives = { λ _ salt. length salt ≡ 16 };

    fn salt(&self) -> io::Result<[u8; 16]> {
        let mut salt = [0u8; 16];
        self.rt.fill_bytes(&mut salt)?;
        Ok(salt)
    }
}
