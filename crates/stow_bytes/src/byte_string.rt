//! Byte strings that own their memory.
ghost use Rattle.std.specs.Prelude.{◌≡◌, ◌==◌, ℕ, List, length, IfOk, Some, refl, nat_eq};
ghost use Rattle.std.specs.Ordering.{nat_cmp};
ghost use Rattle.std.specs.Cmp.Lexicographic.{pointwise, slice_cmp, texts_ties, texts_po, nat_list_eq_equiv, nat_list_cmp_total};
ghost use Rattle.std.specs.Cmp.{partial_equiv_from_equiv};

use crate::compare::compare;
use std::alloc::{AllocError, Allocator, Global};
use std::cmp::Ordering;
use std::marker::Model;

/// A list of bytes, ordered byte by byte, a front before its continuation.
#[derive(Drop)]
pub struct ByteString<A: Allocator = Global> {
    bytes: Vec<u8, A>,
}

impl<A: Allocator> Model for ByteString<A> {
    ghost Value = { List ℕ };

    ghost view = { λ s. s.bytes.items };
}

impl<A: Allocator> ByteString<A> {
    /// The bytes of a vector, which keeps its memory.
    pub fn from_vec(bytes: Vec<u8, A>) -> ByteString<A>
        ensures { result ≡ bytes.items }
    {
        ByteString { bytes }
    }

    /// A copy of the bytes.
    pub fn from_slice(alloc: A, bytes: &[u8]) -> Result<ByteString<A>, AllocError>
        ensures { IfOk result (λ s. s ≡ bytes.now) }
    {
        Ok(ByteString {
            bytes: Vec::from_slice(alloc, bytes)?,
        })
    }

    pub fn as_slice(&self) -> &[u8]
        ensures { result.now ≡ self.now }
    {
        self.bytes.as_slice()
    }

    pub fn len(&self) -> usize
        ensures { result ≡ length self.now }
    {
        self.bytes.len()
    }

    pub fn is_empty(&self) -> bool
        ensures { result ≡ (length self.now == 0) }
    {
        self.bytes.is_empty()
    }

    /// The vector of the bytes, without a copy.
    pub fn into_vec(self) -> Vec<u8, A>
        ensures { result.items ≡ self }
    {
        let ByteString { bytes } = self;
        bytes
    }
}

impl<A: Allocator + Clone> Clone for ByteString<A> {
    ghost is_clone = { λ s t. t ≡ s };

    fn clone(&self) -> Result<ByteString<A>, AllocError> {
        ByteString::from_slice(self.bytes.allocator().clone()?, self.bytes.as_slice())
    }
}

impl<A: Allocator> PartialEq for ByteString<A> {
    ghost eq = { pointwise nat_eq };

    ghost laws = { partial_equiv_from_equiv nat_list_eq_equiv };

    fn eq(&self, other: &Self) -> bool {
        self.as_slice() == other.as_slice()
    }
}

impl<A: Allocator> Eq for ByteString<A> {
    ghost laws = { nat_list_eq_equiv };
}

impl<A: Allocator> PartialOrd for ByteString<A> {
    ghost partial_cmp = { λ x y. Some (slice_cmp nat_cmp x y) };

    ghost laws = { texts_po };

    fn partial_cmp(&self, other: &Self) -> Option<Ordering> {
        Some(self.cmp(other))
    }
}

impl<A: Allocator> Ord for ByteString<A> {
    ghost cmp = { slice_cmp nat_cmp };

    ghost total = { nat_list_cmp_total };

    ghost matches_partial_cmp = { λ x y. refl };

    ghost matches_eq = { texts_ties };

    fn cmp(&self, other: &Self) -> Ordering {
        compare(self.as_slice(), other.as_slice())
    }
}
