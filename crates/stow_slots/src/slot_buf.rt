//! One block, filled from both ends, into which slots are put fast.
ghost use Rattle.std.specs.Prelude.{◌≡◌, ◌+◌, ◌-◌, ◌*◌, ◌<◌, ◌≤◌, [], ◌++◌, length, take, drop, replicate, slice_set, slice_get, slice_index, IfOk, IfSome, None, Some, Contains};
ghost use Rattle.std.specs.List.{insert, remove_range};
ghost use Rattle.stow_raw.specs.RawBuf.{raw_lists, raw_used, RawFits};

use crate::around::{slot_at, slot_before};
use crate::ranking::{guessed_rank, put_young, rank_of, take_young, young_behind};
use crate::settling::settle;
use crate::young_slot::YoungSlot;
use std::alloc::{AllocError, Allocator, Global};
use std::marker::Model;
use std::mem;
use stow_raw::raw_buf::RawBuf;

/// The most young slots.
const YOUNG: usize = 1_024;

/// How many young slots are ripe where there are no others; a 32nd of those more are where there are some.
const FEWEST_RIPE: usize = 4;

/// The fewest bytes of a block that has a list of young slots.
const LARGE: usize = 65_536;

/// Bytes from the front and slots, numbers of 32 bits, from the back, in a block of fixed capacity. The youngest slots may
/// stand beside the block.
#[derive(Drop)]
pub struct SlotBuf<A: Allocator = Global> {
    raw: RawBuf<A>,
    young: Vec<YoungSlot, A>,
}

impl<A: Allocator> Model for SlotBuf<A> {
    ghost use Rattle.stow_raw.specs.RawBuf.{RawLists, raw_lists_code};
    ghost use Rattle.stow_slots.specs.Young.{all_lists, IsYoung};

    ghost Value = { RawLists };

    ghost coded = { raw_lists_code };

    ghost view = { λ b. all_lists b.raw b.young.items };

    ghost invariant = { λ b. IsYoung b.raw b.young.items };
}

impl<A: Allocator + Copy> SlotBuf<A> {
    /// A block of `capacity` bytes that holds nothing yet. A capacity of 0 asks for no memory; one that no block can
    /// have is refused as memory is.
    pub fn with_capacity(alloc: A, capacity: usize) -> Result<Self, AllocError>
        ensures { IfOk result (λ b. b ≡ raw_lists [] [] capacity) }
    {
        let raw = RawBuf::with_capacity(alloc, capacity)?;
        let most = if capacity < LARGE { 0 } else { YOUNG };
        let young = Vec::with_capacity(alloc, most)?;
        Ok(SlotBuf { raw, young })
    }
}

impl<A: Allocator> SlotBuf<A> {
    /// How many bytes the block has.
    pub fn capacity(&self) -> usize
        ensures { result ≡ self.now.capacity }
    {
        self.raw.capacity()
    }

    /// How many more bytes fit: a slot takes four, a young one too.
    pub fn room(&self) -> usize
        ensures room { result ≡ self.now.capacity - raw_used self.now }
        ensures exact { raw_used self.now + result ≡ self.now.capacity }
    {
        self.raw.room() - 4 * self.young.len()
    }

    /// How many bytes stand at the front.
    pub fn front_len(&self) -> usize
        ensures { result ≡ length self.now.front }
    {
        self.raw.front_len()
    }

    /// How many slots there are.
    pub fn slot_count(&self) -> usize
        ensures { result ≡ length self.now.slots }
    {
        let _known = self.raw.capacity();
        self.raw.slot_count() + self.young.len()
    }

    /// Appends to the bytes at the front.
    pub fn push_front(&mut self, bytes: &[u8])
        requires { RawFits self.old (length bytes.now) }
        ensures { self.new
            ≡ raw_lists (self.old.front ++ bytes.now) self.old.slots self.old.capacity }
    {
        self.raw.push_front(bytes);
    }

    /// The `len` bytes of the front from `at` on, not copied.
    pub fn bytes(&self, at: usize, len: usize) -> &[u8]
        requires { at + len ≤ length self.now.front }
        ensures { result.now ≡ take len (drop at self.now.front) }
    {
        self.raw.bytes(at, len)
    }

    /// The slot at `index`.
    #[inline(always)]
    pub fn slot(&self, index: usize) -> u32
        requires { index < length self.now.slots }
        ensures { result ≡ slice_index self.now.slots index }
    {
        if self.young.len() == 0 {
            return self.raw.slot(index);
        }
        self.slot_among(index)
    }

    /// The slot at `index`, which may be a young one.
    #[inline(never)]
    fn slot_among(&self, index: usize) -> u32
        requires { index < length self.now.slots }
        ensures { result ≡ slice_index self.now.slots index }
    {
        let young = self.young.as_slice();
        let rank = rank_of(young, index, guessed_rank(young, index));
        if rank < young.len() && young[rank].behind as usize == index - rank {
            return young[rank].slot;
        }
        self.raw.slot(index - rank)
    }

    /// How many young slots may stand before `index`: a guess.
    #[inline(always)]
    pub fn rank(&self, index: usize) -> usize {
        guessed_rank(self.young.as_slice(), index)
    }

    /// The slots right before `index` and at it, where they are there. So many young ones may stand before it.
    #[inline(always)]
    pub fn around(&self, index: usize, guess: usize) -> (Option<u32>, Option<u32>)
        ensures none { index ≡ 0 → result.0 ≡ None }
        ensures before { 0 < index → result.0 ≡ slice_get self.now.slots (index - 1) }
        ensures at { result.1 ≡ slice_get self.now.slots index }
    {
        let young = self.young.as_slice();
        let rank = rank_of(young, index, guess);
        (
            slot_before(&self.raw, young, index, rank),
            slot_at(&self.raw, young, index, rank),
        )
    }

    /// Writes over the slot at `index`.
    pub fn set_slot(&mut self, index: usize, slot: u32)
        requires { index < length self.old.slots }
        ensures { self.new
            ≡ raw_lists self.old.front (slice_set self.old.slots index slot) self.old.capacity }
    {
        settle(&mut self.raw, &mut self.young);
        self.raw.set_slot(index, slot);
    }

    /// Puts a slot at `index`. The older ones aren't moved, unless the young ones are too many. So many young ones may stand before it.
    #[inline(always)]
    pub fn insert_slot_near(&mut self, index: usize, guess: usize, slot: u32)
        requires { (index ≤ length self.old.slots) × RawFits self.old 4 }
        ensures { self.new
            ≡ raw_lists self.old.front (insert self.old.slots index slot) self.old.capacity }
    {
        if put_young(&mut self.young, index, guess, slot) {
            return;
        }
        settle(&mut self.raw, &mut self.young);
        self.raw.insert_slot(index, slot);
    }

    /// Takes the slot at `index` out if it is a young one: no other slot is moved. So many young ones may stand before it.
    #[inline(always)]
    pub fn remove_young(&mut self, index: usize, guess: usize) -> Option<u32>
        ensures taken { IfSome result (λ slot.
            (slice_get self.old.slots index ≡ Some slot)
            × (self.new ≡ raw_lists self.old.front
            (remove_range self.old.slots index (index + 1)) self.old.capacity)) }
        ensures none { result ≡ None → self.new ≡ self.old }
    {
        take_young(&mut self.young, index, guess)
    }

    /// Puts `count` slots of value 0 before the others, for `set_slot`. No slot is moved.
    pub fn add_slots(&mut self, count: usize)
        requires { RawFits self.old (4 * count) }
        ensures { self.new
            ≡ raw_lists self.old.front (replicate count 0 ++ self.old.slots) self.old.capacity }
    {
        settle(&mut self.raw, &mut self.young);
        self.raw.add_slots(count);
    }

    /// Moves the `count` slots from `from` on to the places from `to` on.
    pub fn move_slots(&mut self, to: usize, from: usize, count: usize)
        requires { (to ≤ from) × (from + count ≤ length self.old.slots) }
        ensures { self.new
            ≡ raw_lists self.old.front
            (take (to + count) (remove_range self.old.slots to from)
            ++ drop (to + count) self.old.slots) self.old.capacity }
    {
        settle(&mut self.raw, &mut self.young);
        self.raw.move_slots(to, from, count);
    }

    /// Takes the `count` slots from `from` on out, by one move of the slots before them.
    pub fn remove_slots(&mut self, from: usize, count: usize)
        requires { from + count ≤ length self.old.slots }
        ensures { self.new
            ≡ raw_lists self.old.front (remove_range self.old.slots from (from + count))
            self.old.capacity }
    {
        settle(&mut self.raw, &mut self.young);
        self.raw.remove_slots(from, count);
    }

    /// Empties the front. The slots stay.
    pub fn clear_front(&mut self)
        ensures { self.new ≡ raw_lists [] self.old.slots self.old.capacity }
    {
        self.raw.clear_front();
    }

    /// Takes the front of another block of as many bytes in the place of its own, with its own slots: the blocks change places,
    /// and nothing but the slots is copied.
    pub fn exchange(&mut self, other: &mut RawBuf<A>)
        requires same { other.old.capacity ≡ self.old.capacity }
        requires room { length other.old.front + 4 * length self.old.slots ≤ self.old.capacity }
        ensures exchanged { self.new
            ≡ raw_lists other.old.front self.old.slots self.old.capacity }
        ensures other { other.new.capacity ≡ other.old.capacity }
    {
        settle(&mut self.raw, &mut self.young);
        other.take_slots(&self.raw);
        mem::swap(&mut self.raw, other);
    }

    /// Empties both lists.
    pub fn reset(&mut self)
        ensures { self.new ≡ raw_lists [] [] self.old.capacity }
    {
        self.raw.reset();
        self.young.clear();
    }

    /// Brings the young slots to the others, for those who read many.
    pub fn settle(&mut self)
        ensures { self.new ≡ self.old }
    {
        settle(&mut self.raw, &mut self.young);
    }

    /// How many slots may be young: none of a block of few bytes, which has no list for them.
    pub fn young_most(&self) -> usize {
        self.young.capacity()
    }

    /// Whether the young slots had better come to the others before the next one is put: where they are many, by how many others they
    /// would move.
    pub fn is_ripe(&self) -> bool {
        let ripe = FEWEST_RIPE.saturating_add(self.raw.slot_count() / 32);
        self.young.len() >= ripe.min(self.young.capacity())
    }

    /// How many slots aren't young.
    pub fn old_count(&self) -> usize {
        self.raw.slot_count()
    }

    /// How many slots are young.
    pub fn young_count(&self) -> usize {
        self.young.len()
    }

    /// The slot at this place among those that aren't young, if there are so many.
    pub fn old_slot(&self, place: usize) -> Option<u32>
        ensures { IfSome result (Contains self.now.slots) }
    {
        if place < self.raw.slot_count() {
            Some(self.raw.slot(place))
        } else {
            None
        }
    }

    /// The slot at this place among the young ones, if there are so many.
    pub fn young_slot(&self, place: usize) -> Option<u32>
        ensures { IfSome result (Contains self.now.slots) }
    {
        if place < self.young.len() {
            Some(self.young[place].slot)
        } else {
            None
        }
    }

    /// How many of the older ones the young slot at this place among the young ones stands behind.
    pub fn young_place(&self, place: usize) -> usize {
        if place < self.young.len() {
            self.young[place].behind as usize
        } else {
            0
        }
    }

    /// How many young slots stand behind fewer of the older ones.
    #[inline(always)]
    pub fn young_behind(&self, older: usize) -> usize {
        young_behind(self.young.as_slice(), older)
    }
}
