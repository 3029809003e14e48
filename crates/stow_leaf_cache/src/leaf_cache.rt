//! Unpacked leaves, the last used first.
ghost use Rattle.std.specs.Prelude.{◌≡◌, ◌≤◌, [], None, length, take, is_some, option_map, IfOk, OnOk, OnErr, max};
ghost use Rattle.std.specs.NonZero.{non_zero_usize_get};
ghost use Rattle.stow_leaf_cache.specs.Cache.{Cache, rows_under, leaves_without, cache_resized, IsOffered};

use lru::{DefaultHasher, LruCache};
use std::alloc::{AllocError, Allocator, Global};
use std::marker::Model;
use std::num::NonZeroUsize;
use stow_page::rows::Rows;

/// The rows of some leaves, by low fence, the last used first. It holds no more than its limit, of 0 none.
#[derive(Drop)]
pub struct LeafCache<A: Allocator + Copy = Global> {
    alloc: A,
    limit: usize,
    leaves: LruCache<Vec<u8, A>, Rows<A>, DefaultHasher, A>,
}

impl<A: Allocator + Copy> Model for LeafCache<A> {
    ghost use Rattle.stow_leaf_cache.specs.Cache.{Cache, leaves_of, IsLimited};

    ghost Value = { Cache };

    ghost view = { λ c. record { leaves = leaves_of c.leaves; limit = c.limit } };

    ghost invariant = { λ c. IsLimited c.limit c.leaves };
}

impl<A: Allocator + Copy> LeafCache<A> {
    ghost use Rattle.std.specs.Borrow.{sem};
    ghost use Rattle.stow_leaf_cache.specs.Lent.{ends_used};

    /// A cache of at most this many leaves, which holds none.
    pub fn new(alloc: A, limit: usize) -> Result<LeafCache<A>, AllocError>
        ensures { IfOk result (λ c. c ≡ record { leaves = []; limit = limit }) }
    {
        Ok(LeafCache {
            alloc,
            limit,
            leaves: LruCache::sparse(alloc, room_for(limit))?,
        })
    }

    /// How many leaves are held.
    pub fn len(&self) -> usize
        ensures { result ≡ length self.now.leaves }
    {
        self.leaves.len()
    }

    /// The rows under a low fence, which stay where they are in the order.
    pub fn peek(&self, low_fence: &[u8]) -> Option<&Rows<A>>
        ensures { option_map (λ r. r.now) result ≡ rows_under low_fence.now self.now.leaves }
    {
        self.leaves.peek(low_fence)
    }

    /// Brings the leaf under a low fence to the front, and lends its rows.
    pub fn find(&mut self, low_fence: &[u8]) -> Option<&Rows<A>>
        ensures* after { sem 𝓛 (ends_used A.row A.Allocator self.entry low_fence.now) }
        ensures rows { option_map (λ r. r.now) result ≡ rows_under low_fence.now self.old.leaves }
    {
        if !self.leaves.promote(low_fence) {
            return None;
        }
        let (_, rows) = self.leaves.peek_mru()?;
        Some(rows)
    }

    /// Holds the rows under the low fence, in front of all. Where memory is refused nothing is held under it.
    pub fn keep(&mut self, low_fence: &[u8], rows: Rows<A>)
        ensures leaves { IsOffered self.old low_fence.now rows self.new.leaves }
        ensures limit { self.new.limit ≡ self.old.limit }
    {
        if self.limit == 0 {
            return;
        }
        match Vec::from_slice(self.alloc, low_fence) {
            Ok(key) => self.put(key, rows),
            Err(_) => self.forget(low_fence),
        }
    }

    /// Holds the rows under the key, if there is memory.
    fn put(&mut self, key: Vec<u8, A>, rows: Rows<A>)
        requires { 1 ≤ self.old.limit }
        ensures leaves { IsOffered self.old key.items rows self.new.leaves }
        ensures limit { self.new.limit ≡ self.old.limit }
    {
        let _known = self.leaves.len();
        match self.leaves.put(key, rows) {
            Ok(_) => {}
            Err(_) => {}
        }
    }

    /// Holds nothing under the low fence from now on.
    pub fn forget(&mut self, low_fence: &[u8])
        ensures leaves { self.new.leaves ≡ leaves_without low_fence.now self.old.leaves }
        ensures gone { rows_under low_fence.now self.new.leaves ≡ None }
        ensures limit { self.new.limit ≡ self.old.limit }
    {
        let _known = self.leaves.len();
        let _rows = self.leaves.pop(low_fence);
    }

    /// Holds at most this many leaves from now on; the last used of those that are held stay. An `Err` changes
    /// nothing.
    pub fn resize(&mut self, limit: usize) -> Result<(), AllocError>
        ensures ok { OnOk result (self.new ≡ cache_resized limit self.old) }
        ensures err { OnErr result (self.new ≡ self.old) }
    {
        self.limit = limit;
        if limit == 0 {
            self.leaves.clear();
            return Ok(());
        }
        self.leaves.resize(room_for(limit));
        Ok(())
    }
}

/// A cache has room for one leaf at least.
fn room_for(limit: usize) -> NonZeroUsize
    ensures { non_zero_usize_get result ≡ max limit 1 }
{
    match NonZeroUsize::new(limit) {
        Some(limit) => limit,
        None => NonZeroUsize::MIN,
    }
}
