//! Words of keys, by which most steps of a search look at no message.
ghost use Rattle.std.specs.Prelude.{Contains, IfSome};
ghost use Rattle.stow_message.specs.MessageBuf.{IsPackedBuffer};

use crate::key_word::{KeyWord, WordOf, own, shared_of};
use crate::run::Run;
use crate::slots::key_at;
use std::alloc::{AllocError, Allocator, Global};
use std::cmp::Ordering;
use stow_slots::quartering::count_below;
use stow_slots::slot_buf::SlotBuf;
use stow_tree_model::stow_bytes::compare::compare;

/// How many bytes of a buffer there are for each word.
const BYTES: usize = 96;

/// How many words are moved at once at least: fewer take no longer one by one.
const FEWEST_AT_ONCE: usize = 16;

/// A word of each message whose slot isn't young, in the order of the slots, as far as there is room: the lower half of its tenant's
/// index, and some of the key behind what all keys share behind that index. They rise as the keys do, but where tenants are
/// more than 65,536. They are a hint: nothing is known of them, and what is found by them is looked at.
#[derive(Drop)]
pub(crate) struct KeyWords<A: Allocator = Global> {
    words: Vec<KeyWord, A>,
    /// How many own bytes all keys share that have a word.
    shared: usize,
}

/// The own bytes of the key of a slot, none where there is no slot.
fn own_at<A: Allocator>(raw: &SlotBuf<A>, slot: Option<u32>) -> &[u8]
    requires filled { IsPackedBuffer raw.now }
    requires there { IfSome slot (Contains raw.now.slots) }
{
    match slot {
        Some(slot) => own(key_at(raw, slot as usize)),
        None => &[],
    }
}

/// The own bytes of the first key.
fn first_own<A: Allocator>(raw: &SlotBuf<A>) -> &[u8]
    requires { IsPackedBuffer raw.now }
{
    if raw.old_count() == 0 {
        return own_at(raw, raw.young_slot(0));
    }
    own_at(raw, raw.old_slot(0))
}

/// How many own bytes, of so many, the keys share whose slots are young.
fn shared_by_young<A: Allocator>(raw: &SlotBuf<A>, most: usize) -> usize
    requires { IsPackedBuffer raw.now }
{
    let first = first_own(raw);
    let mut shared = most;
    for i in 0..raw.young_count() {
        shared = shared_of(own_at(raw, raw.young_slot(i)), first, shared);
    }
    shared
}

/// How many own bytes, of so many, the keys of a run share with those of the block, or else among themselves.
fn shared_by_run<A: Allocator, B: Allocator>(
    raw: &SlotBuf<A>,
    run: &Run<'_, B>,
    most: usize,
) -> usize
    requires { IsPackedBuffer raw.now }
{
    let count = run.len();
    if count == 0 {
        return most;
    }
    let first = if raw.old_count() == 0 {
        own(run.get(0).key.bytes)
    } else {
        first_own(raw)
    };
    let mut shared = most;
    for i in 0..count {
        shared = shared_of(own(run.get(i).key.bytes), first, shared);
    }
    shared
}

/// How many own bytes the other keys share.
fn shared_by_older<A: Allocator>(raw: &SlotBuf<A>) -> usize
    requires { IsPackedBuffer raw.now }
{
    let first = first_own(raw);
    let mut shared = first.len();
    for i in 0..raw.old_count() {
        shared = shared_of(own_at(raw, raw.old_slot(i)), first, shared);
    }
    shared
}

/// The word of the key of a slot.
fn word_at<A: Allocator>(raw: &SlotBuf<A>, slot: Option<u32>, shared: usize) -> KeyWord
    requires filled { IsPackedBuffer raw.now }
    requires there { IfSome slot (Contains raw.now.slots) }
{
    match slot {
        Some(slot) => KeyWord::of(key_at(raw, slot as usize), shared),
        None => KeyWord::none(),
    }
}

impl<A: Allocator> KeyWords<A> {
    /// No word, for the slots of a block. For a block whose slots are never young no memory is asked for.
    pub(crate) fn for_block<B: Allocator>(
        alloc: A,
        raw: &SlotBuf<B>,
    ) -> Result<KeyWords<A>, AllocError> {
        let most = if raw.young_most() > 0 {
            raw.capacity() / BYTES
        } else {
            0
        };
        let words = Vec::with_capacity(alloc, most)?;
        Ok(KeyWords {
            words,
            shared: usize::MAX,
        })
    }

    /// Forgets all words.
    pub(crate) fn clear(&mut self) {
        self.words.clear();
        self.shared = usize::MAX;
    }

    /// Whether there are words of all slots that aren't young, as far as there is room.
    fn covers<B: Allocator>(&self, raw: &SlotBuf<B>) -> bool {
        self.words.len() == raw.old_count().min(self.words.capacity())
    }

    /// Whether a search in these slots can begin with words.
    pub(crate) fn serve<B: Allocator>(&self, raw: &SlotBuf<B>) -> bool {
        self.words.len() > 0 && self.covers(raw)
    }

    /// Words of all slots that aren't young, as far as there is room.
    fn renew<B: Allocator>(&mut self, raw: &SlotBuf<B>)
        requires { IsPackedBuffer raw.now }
    {
        self.words.clear();
        for i in 0..raw.old_count().min(self.words.capacity()) {
            let word = word_at(raw, raw.old_slot(i), self.shared);
            let _ = self.words.push(word);
        }
    }

    /// Makes room for so many words more, behind the others.
    fn grow(&mut self, count: usize) {
        let more = count.min(self.words.capacity() - self.words.len());
        for _ in 0..more {
            let _ = self.words.push(KeyWord::none());
        }
    }

    /// Copies the `count` words before a place up by so many places, at least as many.
    fn copy_up(&mut self, end: usize, count: usize, by: usize) {
        let len = self.words.len();
        if count > end || count > by || end > len || by > len - end {
            return;
        }
        let (front, back) = self.words.as_mut_slice().split_at_mut(end);
        back[by - count..by].copy_from_slice(&front[end - count..]);
    }

    /// Moves the words from one place on and before another up by so many places. Those beyond the room are lost.
    fn move_up(&mut self, from: usize, end: usize, by: usize) {
        let end = end.min(self.words.len().saturating_sub(by));
        if from >= end {
            return;
        }
        if by < FEWEST_AT_ONCE {
            self.words.copy_within(from..end, from + by);
        } else {
            self.move_blocks_up(from, end, by);
        }
    }

    /// The same where so many words are there behind them: the last ones first, as many at once as come to lie behind all of them.
    fn move_blocks_up(&mut self, from: usize, end: usize, by: usize) {
        let mut end = end;
        for _ in 0..self.words.len() {
            if from >= end {
                return;
            }
            let count = by.min(end - from);
            self.copy_up(end, count, by);
            end -= count;
        }
    }

    /// Moves the `count` words from `from` on down to the places from `to` on, as far as there are words.
    pub(crate) fn move_down(&mut self, to: usize, from: usize, count: usize) {
        let end = from.saturating_add(count).min(self.words.len());
        if to <= from && from < end {
            self.words.copy_within(from..end, to);
        }
    }

    /// Writes the word of a key at a place, if it is there.
    pub(crate) fn put(&mut self, at: usize, key: &[u8]) {
        self.set(at, KeyWord::of(key, self.shared));
    }

    /// Writes a word at a place, if it is there.
    fn set(&mut self, at: usize, word: KeyWord) {
        if at < self.words.len() {
            self.words[at] = word;
        }
    }

    /// Puts the words of young slots between the others, where these slots are about to come.
    fn put_young<B: Allocator>(&mut self, raw: &SlotBuf<B>)
        requires { IsPackedBuffer raw.now }
    {
        let count = raw.young_count();
        let mut end = self.words.len();
        self.grow(count);
        for i in 0..count {
            let place = count - 1 - i;
            let behind = raw.young_place(place);
            self.move_up(behind, end, place + 1);
            let word = word_at(raw, raw.young_slot(place), self.shared);
            self.set(behind.saturating_add(place), word);
            end = behind;
        }
    }

    /// Makes room before the words for those of a run, for `move_down` and `put`. Where there isn't as much, or slots are young,
    /// all words are forgotten.
    pub(crate) fn admit<B: Allocator, C: Allocator>(&mut self, raw: &SlotBuf<B>, run: &Run<'_, C>)
        requires { IsPackedBuffer raw.now }
    {
        let (count, len) = (run.len(), self.words.len());
        let room = self.words.capacity() - len;
        if raw.young_count() > 0 || !self.covers(raw) || count > room {
            self.clear();
            return;
        }
        let shared = shared_by_run(raw, run, self.shared);
        if shared < self.shared {
            self.shared = shared;
            self.renew(raw);
        }
        self.grow(count);
        self.move_up(0, len, count);
    }

    /// Words of all slots, of which none is young, where they were forgotten.
    pub(crate) fn mend<B: Allocator>(&mut self, raw: &SlotBuf<B>)
        requires { IsPackedBuffer raw.now }
    {
        if self.words.capacity() > 0 && !self.covers(raw) {
            self.shared = shared_by_older(raw);
            self.renew(raw);
        }
    }

    /// For how many words there is room.
    pub(crate) fn room(&self) -> usize {
        self.words.capacity()
    }

    /// Gets room for so many words, and has words of all slots that aren't young then, as far as there is room. Where memory is refused
    /// there is as much as before.
    pub(crate) fn widen<B: Allocator>(&mut self, raw: &SlotBuf<B>, count: usize)
        requires { IsPackedBuffer raw.now }
    {
        let more = count.saturating_sub(self.words.len());
        let _ = self.words.reserve_exact(more);
        self.mend(raw);
    }

    /// Takes the words of the young slots up, which are about to come to the others.
    pub(crate) fn settle<B: Allocator>(&mut self, raw: &SlotBuf<B>)
        requires { IsPackedBuffer raw.now }
    {
        if raw.young_count() == 0 || self.words.capacity() == 0 {
            return;
        }
        let known = self.covers(raw);
        let most = if known {
            self.shared
        } else {
            shared_by_older(raw)
        };
        let shared = shared_by_young(raw, most);
        if !known || shared < self.shared {
            self.shared = shared;
            self.renew(raw);
        }
        self.put_young(raw);
    }

    /// Forgets the words of the `count` slots from `from` on, which go. None of the slots is young.
    pub(crate) fn remove(&mut self, from: usize, count: usize) {
        let len = self.words.len();
        let end = from.saturating_add(count).min(len);
        if from < end {
            self.words.copy_within(end..len, from);
            self.words.truncate(len - (end - from));
        }
    }

    /// How many words are below one.
    #[inline(always)]
    fn count_below(&self, word: u128) -> usize {
        count_below(self.words.as_slice(), &WordOf { number: word })
    }

    /// Behind how many of the slots that aren't young the key's newest one may stand: by words alone.
    #[inline(always)]
    pub(crate) fn count_up_to<B: Allocator>(&self, raw: &SlotBuf<B>, key: &[u8]) -> usize {
        let count = self.count_below(KeyWord::number_of(key, self.shared).saturating_add(1));
        if count < self.words.len() {
            count
        } else {
            raw.old_count()
        }
    }

    /// Where those words end that are this one and begin at a place, if they do: in steps that double, then by halves.
    #[inline(always)]
    fn end_of(&self, from: usize, word: u128) -> usize {
        let reached = self.last_step(from, word);
        let (mut low, mut high) = (from.min(reached), reached);
        while low < high {
            let middle = low + (high - low) / 2;
            if self.is_at(middle, word) {
                low = middle + 1;
            } else {
                high = middle;
            }
        }
        low
    }

    /// The first place reached from another by steps that double whose word isn't this one, or their end.
    #[inline(always)]
    fn last_step(&self, from: usize, word: u128) -> usize {
        let (mut at, mut step) = (from, 1usize);
        for _ in 0..self.words.len() {
            if !self.is_at(at, word) {
                break;
            }
            at = at.saturating_add(step);
            step = step.saturating_add(step);
        }
        at.min(self.words.len())
    }

    /// Whether the word at a place is this one.
    fn is_at(&self, at: usize, word: u128) -> bool {
        at < self.words.len() && self.words[at].number() == word
    }

    /// Whether the key shares with the others what they share.
    #[inline(always)]
    fn is_alike<B: Allocator>(&self, raw: &SlotBuf<B>, key: &[u8]) -> bool
        requires { IsPackedBuffer raw.now }
    {
        let (one, other) = (own(key), first_own(raw));
        if self.shared > one.len() || self.shared > other.len() {
            return false;
        }
        compare(&one[..self.shared], &other[..self.shared]) == Ordering::Equal
    }

    /// Between which of the slots that aren't young those of messages of the key stand, by words, or else by nothing.
    #[inline(always)]
    pub(crate) fn span<B: Allocator>(&self, raw: &SlotBuf<B>, key: &[u8]) -> (usize, usize)
        requires { IsPackedBuffer raw.now }
    {
        let count = raw.old_count();
        if !self.serve(raw) || !self.is_alike(raw, key) {
            return (0, count);
        }
        let word = KeyWord::number_of(key, self.shared);
        let low = self.count_below(word);
        let high = self.end_of(low, word);
        (low, if high < self.words.len() { high } else { count })
    }
}
