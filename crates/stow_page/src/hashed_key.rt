//! A key with its hash.
ghost use Rattle.std.specs.Prelude.{◌≡◌, ◌≢◌, false, IfSome};
ghost use Rattle.stow_filter.specs.Filter as of_filter;

use stow_filter::hash::hash;
use stow_tree_model::stow_bytes::compare::compare;

/// A key's bytes and their hash.
#[derive(Clone, Copy)]
pub(crate) struct HashedKey<'a> {
    pub(crate) bytes: &'a [u8],
    pub(crate) hash: u64,
    pub(crate) ghost is_hash: { hash ≡ of_filter.hash bytes.now },
}

impl<'a> HashedKey<'a> {
    /// The key that these bytes are.
    #[inline(always)]
    pub(crate) fn new(bytes: &'a [u8]) -> HashedKey<'a>
        ensures { result.bytes.now ≡ bytes.now }
    {
        HashedKey {
            bytes,
            hash: hash(bytes),
        }
    }

    /// Whether the other is this key. Their hashes are looked at first.
    #[inline(always)]
    fn is(self, other: HashedKey<'_>) -> bool
        ensures { result ≡ false → self.entry.bytes.now ≢ other.entry.bytes.now }
    {
        if self.hash != other.hash {
            return false;
        }
        compare(self.bytes, other.bytes).is_eq()
    }

    /// Whether the other, if there is one, is this key.
    pub(crate) fn is_same(self, other: Option<HashedKey<'_>>) -> bool
        ensures { result ≡ false
            → IfSome other.entry (λ key. key.bytes.now ≢ self.entry.bytes.now) }
    {
        match other {
            None => false,
            Some(other) => other.is(self),
        }
    }
}
