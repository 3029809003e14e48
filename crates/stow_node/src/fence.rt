//! Where a node's keys begin, and its children's.
ghost use Rattle.std.specs.Prelude.{◌≡◌, ◌≤◌, []};
ghost use Rattle.std.specs.Vec.{vec_capacity};

use crate::child::Child;
use crate::child_words::ChildWords;
use std::alloc::{Allocator, Global};
use std::marker::Model;
use stow_tree_model::stow_bytes::byte_string::ByteString;
use stow_tree_model::tenant_key::TenantKey;

/// The lowest key that a node may hold, with a hint of where its children's keys begin.
#[derive(Drop)]
pub(crate) struct Fence<A: Allocator = Global> {
    bytes: ByteString<A>,
    words: ChildWords,
}

impl<A: Allocator> Model for Fence<A> {
    ghost use Rattle.std.specs.Prelude.{ℕ, List};
    ghost use Rattle.stow_tree_model.specs.Keys.{IsTenantKey};

    ghost Value = { List ℕ };

    ghost view = { λ k. k.bytes };

    ghost invariant = { λ k. IsTenantKey k.bytes };
}

impl<A: Allocator> Fence<A> {
    /// A copy of a key, in a list that has room for any. It asks for no memory.
    pub(crate) fn copied(mut bytes: Vec<u8, A>, key: TenantKey<'_>) -> Fence<A>
        requires empty { bytes.items ≡ [] }
        requires long { 1028 ≤ vec_capacity bytes }
        ensures { result ≡ key.entry.bytes.now }
    {
        bytes.extend_from_slice(key.bytes).unwrap();
        Fence {
            bytes: ByteString::from_vec(bytes),
            words: ChildWords::none(),
        }
    }

    /// Has the hint say where these children begin.
    pub(crate) fn note(&mut self, children: &[Child<A>])
        ensures { self.new ≡ self.old }
    {
        self.words = ChildWords::of(children);
    }

    /// Between which children the key's may stand, by the hint: from the first one on, before the second.
    #[inline(always)]
    pub(crate) fn span_for(&self, key: TenantKey<'_>) -> (usize, usize) {
        self.words.span_for(key)
    }

    /// The key, lent.
    pub(crate) fn as_key(&self) -> TenantKey<'_>
        ensures { result.bytes.now ≡ self.now }
    {
        TenantKey {
            bytes: self.bytes.as_slice(),
        }
    }
}
