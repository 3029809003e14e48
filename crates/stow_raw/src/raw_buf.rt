//! One block, filled from both ends.
ghost use Rattle.std.specs.Prelude.{◌≡◌, ◌+◌, ◌-◌, ◌*◌, ◌<◌, ◌≤◌, [], ◌++◌, length, take, drop, replicate, slice_set, slice_index, IfOk};
ghost use Rattle.std.specs.List.{insert, remove, remove_range};
ghost use Rattle.stow_raw.specs.RawBuf.{raw_lists, raw_used, RawFits};

use crate::block::Block;
use crate::words::word_at;
use std::alloc::{AllocError, Allocator, Global};
use std::marker::Model;

/// Bytes from the front and slots, numbers of 32 bits, from the back, in a block of fixed capacity.
pub struct RawBuf<A: Allocator = Global> {
    block: Block<A>,
}

impl<A: Allocator> Model for RawBuf<A> {
    ghost use Rattle.stow_raw.specs.RawBuf.{RawLists, raw_lists, raw_lists_code};

    ghost Value = { RawLists };

    ghost coded = { raw_lists_code };

    ghost use Rattle.stow_raw.specs.Laid.{front_of, slots_of, IsLaid};

    ghost view = { λ b. raw_lists (front_of b.block) (slots_of b.block) b.block.capacity };

    ghost invariant = { λ b. IsLaid b.block };
}

impl<A: Allocator> Drop for RawBuf<A> {
    fn drop(self) {
        let RawBuf { block } = self;
        block.free();
    }
}

impl<A: Allocator> RawBuf<A> {
    /// A block of `capacity` bytes that holds nothing yet. A capacity of 0 asks for no memory; one that no block can
    /// have is refused as memory is.
    pub fn with_capacity(alloc: A, capacity: usize) -> Result<Self, AllocError>
        ensures { IfOk result (λ b. b ≡ raw_lists [] [] capacity) }
    {
        let block = Block::with_capacity(alloc, capacity)?;
        Ok(RawBuf { block })
    }

    /// How many bytes the block has.
    pub fn capacity(&self) -> usize
        ensures { result ≡ self.now.capacity }
    {
        self.block.capacity
    }

    /// How many more bytes fit: a slot takes four.
    pub fn room(&self) -> usize
        ensures room { result ≡ self.now.capacity - raw_used self.now }
        ensures exact { raw_used self.now + result ≡ self.now.capacity }
    {
        self.block.room()
    }

    /// How many bytes stand at the front.
    pub fn front_len(&self) -> usize
        ensures { result ≡ length self.now.front }
    {
        self.block.front
    }

    /// How many slots there are.
    pub fn slot_count(&self) -> usize
        ensures { result ≡ length self.now.slots }
    {
        self.block.slots
    }

    /// Appends to the bytes at the front.
    pub fn push_front(&mut self, bytes: &[u8])
        requires { RawFits self.old (length bytes.now) }
        ensures { self.new
            ≡ raw_lists (self.old.front ++ bytes.now) self.old.slots self.old.capacity }
    {
        self.block.push_front(bytes);
    }

    /// The `len` bytes of the front from `at` on, not copied.
    pub fn bytes(&self, at: usize, len: usize) -> &[u8]
        requires { at + len ≤ length self.now.front }
        ensures { result.now ≡ take len (drop at self.now.front) }
    {
        self.block.bytes(at, len)
    }

    /// The slot at `index`.
    pub fn slot(&self, index: usize) -> u32
        requires { index < length self.now.slots }
        ensures { result ≡ slice_index self.now.slots index }
    {
        word_at(self.block.slot_row(), index)
    }

    /// Writes over the slot at `index`.
    pub fn set_slot(&mut self, index: usize, slot: u32)
        requires { index < length self.old.slots }
        ensures { self.new
            ≡ raw_lists self.old.front (slice_set self.old.slots index slot) self.old.capacity }
    {
        self.block.set_slot(index, slot);
    }

    /// Puts a slot at `index`, by one move of the slots before it.
    pub fn insert_slot(&mut self, index: usize, slot: u32)
        requires { (index ≤ length self.old.slots) × RawFits self.old 4 }
        ensures { self.new
            ≡ raw_lists self.old.front (insert self.old.slots index slot) self.old.capacity }
    {
        self.block.add_slot();
        self.block.shift_in(index, slot);
    }

    /// Puts `count` slots of value 0 before the others, for `set_slot`. No slot is moved.
    pub fn add_slots(&mut self, count: usize)
        requires { RawFits self.old (4 * count) }
        ensures { self.new
            ≡ raw_lists self.old.front (replicate count 0 ++ self.old.slots) self.old.capacity }
    {
        for _ in 0..count {
            self.block.add_slot();
        }
    }

    /// Takes the slots of another block in the place of its own, by one copy of their bytes.
    pub fn take_slots(&mut self, from: &RawBuf<A>)
        requires { length self.old.front + 4 * length from.now.slots ≤ self.old.capacity }
        ensures { self.new ≡ raw_lists self.old.front from.now.slots self.old.capacity }
    {
        self.block
            .put_slots(from.block.slot_row(), from.block.slots);
    }

    /// Takes the slot at `index` out, by one move of the slots before it.
    pub fn remove_slot(&mut self, index: usize)
        requires { index < length self.old.slots }
        ensures { self.new
            ≡ raw_lists self.old.front (remove self.old.slots index) self.old.capacity }
    {
        self.remove_slots(index, 1);
    }

    /// Takes the `count` slots from `from` on out, by one move of the slots before them.
    pub fn remove_slots(&mut self, from: usize, count: usize)
        requires { from + count ≤ length self.old.slots }
        ensures { self.new
            ≡ raw_lists self.old.front (remove_range self.old.slots from (from + count))
            self.old.capacity }
    {
        self.block.move_slots(count, 0, from);
        self.block.drop_slots(count);
    }

    /// Moves the `count` slots from `from` on to the places from `to` on, at once.
    pub fn move_slots(&mut self, to: usize, from: usize, count: usize)
        requires { (to ≤ from) × (from + count ≤ length self.old.slots) }
        ensures { self.new
            ≡ raw_lists self.old.front
            (take (to + count) (remove_range self.old.slots to from)
            ++ drop (to + count) self.old.slots) self.old.capacity }
    {
        self.block.move_slots(to, from, count);
    }

    /// Empties the front. The slots stay.
    pub fn clear_front(&mut self)
        ensures { self.new ≡ raw_lists [] self.old.slots self.old.capacity }
    {
        self.block.clear_front();
    }

    /// Empties both lists.
    pub fn reset(&mut self)
        ensures { self.new ≡ raw_lists [] [] self.old.capacity }
    {
        self.block.reset();
    }
}
