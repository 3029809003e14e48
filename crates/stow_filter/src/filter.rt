//! Which keys may have been added.
ghost use Rattle.std.specs.Prelude.{◌≡◌, ◌%◌, ◌<◌, ◌≤◌, [], length, true, IfOk};
ghost use Rattle.std.specs.Int.{IsPowerOfTwo};
ghost use Rattle.stow_filter.specs.Filter.{IsWordCount, KeepsMarks, hash, marks_of, may_have};

use crate::hash::hash;
use std::alloc::{AllocError, Allocator, Global};
use std::marker::Model;

/// How many bytes of a buffer there are for each word, at least.
const BYTES: usize = 256;

/// With how many words a filter begins, where it may have as many.
const FEW: usize = 64;

/// How many keys a word is for.
const KEYS: usize = 2;

/// How many keys a word is for where all of them are known beforehand.
const KNOWN: usize = 4;

/// Marks of each key that was added: where one of a key's is missing it was not (Bloom 1970). Both marks of a key stand in one
/// word, so that a look-up touches one (Putze, Sanders and Singler 2007). Keys share marks, so a key whose marks are set may
/// not have been added. For keys that come and go there are few words at first, and twice as many whenever the keys have become
/// many; all of their memory is there from the start.
#[derive(Drop)]
pub struct Filter<A: Allocator = Global> {
    /// None, or a power of two.
    words: Vec<u64, A>,
    /// How many keys were added since no mark was set.
    added: usize,
}

impl<A: Allocator> Model for Filter<A> {
    ghost use Rattle.std.specs.Prelude.{ℕ, List, length};
    ghost use Rattle.stow_filter.specs.Filter.{IsWordCount};

    ghost Value = { List ℕ };

    ghost view = { λ f. f.words.items };

    ghost invariant = { λ f. IsWordCount (length f.words.items) };
}

/// The greatest power of two that is at most the number, or none for 0.
fn power_within(number: usize) -> usize
    ensures { IsWordCount result }
{
    if number == 0 {
        return 0;
    }
    1 << number.ilog2()
}

/// So many words without a mark, in a list with places for `most`.
fn no_marks<A: Allocator>(alloc: A, count: usize, most: usize) -> Result<Vec<u64, A>, AllocError>
    requires { count ≤ most }
    ensures { IfOk result (λ words. length words.items ≡ count) }
{
    let mut words = Vec::with_capacity(alloc, most)?;
    for _ in 0..count {
        words.push_reserved(0);
    }
    Ok(words)
}

/// Which of so many words a key of this hash has its marks in.
fn place(hash: u64, count: usize) -> usize
    requires { IsPowerOfTwo count }
    ensures is { result ≡ hash % count }
    ensures within { result < count }
{
    hash as usize & (count - 1)
}

/// The marks of a key of this hash in its word.
fn marks_of(hash: u64) -> u64
    ensures { result ≡ marks_of hash }
{
    (1 << (hash >> 58)) | (1 << ((hash >> 52) % 64))
}

impl<A: Allocator> Filter<A> {
    /// No key, for a buffer of so many bytes. For a buffer of few no memory is asked for, and each key may have been added.
    pub fn with_capacity(alloc: A, capacity: usize) -> Result<Filter<A>, AllocError> {
        let most = power_within(capacity / BYTES);
        let words = no_marks(alloc, most.min(FEW), most)?;
        Ok(Filter { words, added: 0 })
    }

    /// No words: each key may have been added. It asks for no memory.
    pub fn none(alloc: A) -> Filter<A>
        ensures { result ≡ [] }
    {
        Filter {
            words: Vec::new(alloc),
            added: 0,
        }
    }

    /// No key, with words for so many. For few there are none.
    pub fn for_keys(alloc: A, keys: usize) -> Result<Filter<A>, AllocError> {
        let count = power_within(keys / KNOWN);
        let words = no_marks(alloc, count, count)?;
        Ok(Filter { words, added: 0 })
    }

    /// Whether the key may have been added.
    pub fn may_have(&self, key: &[u8]) -> bool
        ensures { result ≡ may_have self.now key.now }
    {
        let count = self.words.len();
        if count == 0 {
            return true;
        }
        let hash = hash(key);
        let marks = marks_of(hash);
        self.words[place(hash, count)] & marks == marks
    }

    /// Adds the key.
    pub fn add(&mut self, key: &[u8])
        ensures added { may_have self.new key.now ≡ true }
        ensures stay { KeepsMarks self.old self.new }
    {
        self.add_hashed(key, hash(key));
    }

    /// Adds the key, which has this hash.
    #[inline(always)]
    pub fn add_hashed(&mut self, key: &[u8], known: u64)
        requires { known ≡ hash key.now }
        ensures added { may_have self.new key.now ≡ true }
        ensures stay { KeepsMarks self.old self.new }
    {
        let count = self.words.len();
        if count == 0 {
            return;
        }
        if self.added / KEYS >= count {
            self.double();
        }
        self.mark(key, known);
    }

    /// Twice as many words, where there is room for them: the upper half is a copy of the lower one, so that a key has its marks
    /// whichever of the two it is led to.
    fn double(&mut self)
        ensures stay { KeepsMarks self.old self.new }
        ensures more { length self.old ≤ length self.new }
    {
        let count = self.words.len();
        if self.words.capacity() - count < count {
            return;
        }
        for i in 0..count {
            let word = self.words[i];
            self.words.push_reserved(word);
        }
    }

    /// Sets the marks of the key, which has this hash.
    fn mark(&mut self, key: &[u8], known: u64)
        requires some { 0 < length self.old }
        requires known { known ≡ hash key.now }
        ensures added { may_have self.new key.now ≡ true }
        ensures stay { KeepsMarks self.old self.new }
    {
        let place = place(known, self.words.len());
        self.words[place] |= marks_of(known);
        self.added = self.added.saturating_add(1);
    }

    /// Whether more than half of the keys that were added are others than the `count` that are held.
    pub fn is_stale(&self, count: usize) -> bool {
        self.added / 2 > count
    }

    /// Drops all words: each key may have been added then.
    pub fn forget(&mut self)
        ensures { self.new ≡ [] }
    {
        self.words.clear();
        self.added = 0;
    }

    /// Drops each key.
    pub fn clear(&mut self) {
        self.words.truncate(FEW);
        self.words.fill(0);
        self.added = 0;
    }
}
