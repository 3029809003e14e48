//! Whether a journal is kept.
ghost use Rattle.std.specs.Prelude.{◌≡◌, Bool};

/// Whether each step leaves an entry, and its seat a receipt.
pub trait Journal {
    ghost keeps: { Bool };

    /// Whether entries are kept.
    fn is_kept() -> bool
        ensures { result ≡ keeps };
}
