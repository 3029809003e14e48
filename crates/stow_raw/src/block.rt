//! How the two lists of a `RawBuf` stand in one block.
ghost use Rattle.std.specs.Prelude.{◌≡◌, ◌+◌, ◌-◌, ◌*◌, ◌^◌, ◌<◌, ◌≤◌, [], ◌∷◌, ◌++◌, map, length, take, drop, replicate, slice_set, None, Some, IfOk, MatchOption};
ghost use Rattle.std.specs.Int.{w32, to_be_bytes};
ghost use Rattle.stow_raw.specs.Cells.{written, IsWritten};
ghost use Rattle.stow_raw.specs.CellsLends.{with_bytes, with_tail};
ghost use Rattle.stow_raw.specs.Frees.{Frees};
ghost use Rattle.stow_raw.specs.Laid.{front_of, slots_of, IsLaid, Becomes};
ghost use Rattle.stow_raw.specs.Words.{words};

use crate::cells::Cells;
use crate::lease::Lease;
use crate::words::{WORD, insert_word, move_words, set_word};
use std::alloc::{AllocError, Allocator};
use std::mem;

/// The most bytes that a block can have.
const MOST: usize = 0x7fff_ffff_ffff_ffff;

/// The first `front` of the `capacity` bytes are the front's, the last 4 * `slots` the slots', the first slot first.
/// There is a lease where there is a byte.
pub struct Block<A: Allocator> {
    cells: Cells,
    lease: Option<Lease<A>>,
    alloc: A,
    pub(crate) capacity: usize,
    pub(crate) front: usize,
    pub(crate) slots: usize,
}

impl<A: Allocator> Block<A> {
    pub(crate) fn with_capacity(alloc: A, capacity: usize) -> Result<Self, AllocError>
        ensures { IfOk result (λ b. IsLaid b × (b.capacity ≡ capacity) × (front_of b ≡ [])
            × (slots_of b ≡ [])) }
    {
        let (cells, lease) = allocated(&alloc, capacity)?;
        Ok(Block {
            cells,
            lease,
            alloc,
            capacity,
            front: 0,
            slots: 0,
        })
    }

    /// Gives the memory back.
    pub(crate) fn free(self)
        requires { IsLaid self }
    {
        let Block {
            cells,
            lease,
            alloc,
            capacity,
            front: _,
            slots: _,
        } = self;
        if let Some(lease) = lease {
            lease.give_back(cells, capacity, &alloc);
        }
    }

    /// How many bytes are not in use.
    pub(crate) fn room(&self) -> usize
        requires { IsLaid self.now }
        ensures { self.now.front + 4 * self.now.slots + result ≡ self.now.capacity }
    {
        self.capacity - self.front - WORD * self.slots
    }

    pub(crate) fn reset(&mut self)
        requires { IsLaid self.old }
        ensures { Becomes self.old self.new [] [] }
    {
        self.front = 0;
        self.slots = 0;
    }

    pub(crate) fn clear_front(&mut self)
        requires { IsLaid self.old }
        ensures { Becomes self.old self.new [] (slots_of self.old) }
    {
        self.front = 0;
    }

    pub(crate) fn push_front(&mut self, bytes: &[u8])
        requires { IsLaid self.old
            × (self.old.front + 4 * self.old.slots + length bytes.now ≤ self.old.capacity) }
        ensures { Becomes self.old self.new (front_of self.old ++ bytes.now) (slots_of self.old) }
    {
        let start = self.front;
        write_all(&mut self.cells, start, bytes);
        self.front += bytes.len();
    }

    pub(crate) fn bytes(&self, at: usize, len: usize) -> &[u8]
        requires { IsLaid self.now × (at + len ≤ self.now.front) }
        ensures { result.now ≡ take len (drop at (front_of self.now)) }
    {
        self.cells.slice(at, len)
    }

    /// The slots' bytes.
    pub(crate) fn slot_row(&self) -> &[u8]
        requires { IsLaid self.now }
        ensures { (length result.now ≡ 4 * self.now.slots)
            × (words self.now.slots result.now ≡ slots_of self.now) }
    {
        let start = self.capacity - WORD * self.slots;
        self.cells.slice(start, self.capacity - start)
    }

    /// Puts the slot 0 before the others.
    pub(crate) fn add_slot(&mut self)
        requires { IsLaid self.old × (self.old.front + 4 * self.old.slots + 4 ≤ self.old.capacity) }
        ensures { Becomes self.old self.new (front_of self.old) (0 ∷ slots_of self.old) }
    {
        self.slots += 1;
        let start = self.capacity - WORD * self.slots;
        write_all(&mut self.cells, start, &[0; WORD]);
    }

    /// Puts the `count` slots that these bytes spell in the place of its own.
    pub(crate) fn put_slots(&mut self, row: &[u8], count: usize)
        requires { IsLaid self.old × (length row.now ≡ 4 * count)
            × (self.old.front + 4 * count ≤ self.old.capacity) }
        ensures { Becomes self.old self.new (front_of self.old) (words count row.now) }
    {
        let start = self.capacity - row.len();
        write_all(&mut self.cells, start, row);
        self.slots = count;
    }

    /// Lets the first `count` slots go.
    pub(crate) fn drop_slots(&mut self, count: usize)
        requires { IsLaid self.old × (count ≤ self.old.slots) }
        ensures { Becomes self.old self.new (front_of self.old) (drop count (slots_of self.old)) }
    {
        self.slots -= count;
    }

    pub(crate) fn set_slot(&mut self, index: usize, slot: u32)
        requires { IsLaid self.old × (index < self.old.slots) }
        ensures { Becomes self.old self.new (front_of self.old)
            (slice_set (slots_of self.old) index slot) }
    {
        let start = self.capacity - WORD * self.slots;
        let len = self.capacity - start;
        set_in(&mut self.cells, start, len, index, slot);
    }

    /// Moves the slots at 1 to `index` one place down, over the first, and puts `slot` at `index`.
    pub(crate) fn shift_in(&mut self, index: usize, slot: u32)
        requires { IsLaid self.old × (index < self.old.slots) }
        ensures { Becomes self.old self.new (front_of self.old)
            (take index (drop 1 (slots_of self.old))
            ++ slot ∷ drop (index + 1) (slots_of self.old)) }
    {
        let start = self.capacity - WORD * self.slots;
        let len = self.capacity - start;
        insert_in(&mut self.cells, start, len, index, slot);
    }

    /// Moves the `count` slots from `from` on to the places from `to` on.
    pub(crate) fn move_slots(&mut self, to: usize, from: usize, count: usize)
        requires { IsLaid self.old × (from + count ≤ self.old.slots)
            × (to + count ≤ self.old.slots) }
        ensures { Becomes self.old self.new (front_of self.old) (take to (slots_of self.old)
            ++ (take count (drop from (slots_of self.old)) ++ drop (to + count) (slots_of self.old))) }
    {
        let start = self.capacity - WORD * self.slots;
        let len = self.capacity - start;
        move_in(&mut self.cells, start, len, to, from, count);
    }
}

/// The bytes of a new block. Where there are to be none, no memory is asked for.
fn allocated<A: Allocator>(
    alloc: &A,
    capacity: usize,
) -> Result<(Cells, Option<Lease<A>>), AllocError>
    ensures { IfOk result (λ r. (r.0.bytes ≡ replicate capacity None)
        × MatchOption r.1 (capacity ≡ 0) (λ l. Frees l r.0.ptr capacity alloc.now)) }
{
    if capacity == 0 {
        return Ok((Cells::none(), None));
    }
    if capacity > MOST {
        return Err(AllocError);
    }
    match Lease::take(alloc, capacity) {
        Some((cells, lease)) => Ok((cells, Some(lease))),
        None => Err(AllocError),
    }
}

/// Writes `src` over the bytes from `at` on.
fn write_all(cells: &mut Cells, at: usize, src: &[u8])
    requires { (at + length src.now ≤ length cells.old.bytes) × (length cells.old.bytes < 2 ^ 64) }
    ensures { cells.new ≡ with_bytes cells.old (take at cells.old.bytes
        ++ (map Some src.now ++ drop (at + length src.now) cells.old.bytes)) }
{
    let taken = mem::replace(cells, Cells::none());
    *cells = written_over(taken, at, src);
}

/// The same, on cells that are held by value, so that their pointer stays in a register while bytes are written.
fn written_over(mut cells: Cells, at: usize, src: &[u8]) -> Cells
    requires { (at + length src.now ≤ length cells.bytes) × (length cells.bytes < 2 ^ 64) }
    ensures { result ≡ with_bytes cells (take at cells.bytes
        ++ (map Some src.now ++ drop (at + length src.now) cells.bytes)) }
{
    for i in 0..src.len() {
        cells.write(at + i, src[i]);
    }
    cells
}

/// Writes `word` over the number at `index` of those in the last `len` bytes, from `start` on.
fn set_in(cells: &mut Cells, start: usize, len: usize, index: usize, word: u32)
    requires { (start + len ≡ length cells.old.bytes) × IsWritten (drop start cells.old.bytes)
        × (4 * index + 4 ≤ len) }
    ensures { cells.new ≡ with_tail cells.old start
        (take (4 * index) (written (drop start cells.old.bytes))
        ++ (to_be_bytes w32 word ++ drop (4 * index + 4) (written (drop start cells.old.bytes)))) }
{
    set_word(cells.slice_mut(start, len), index, word);
}

/// Moves the numbers at 1 to `index` of those in the last `len` bytes one place down, and writes `word` at `index`.
fn insert_in(cells: &mut Cells, start: usize, len: usize, index: usize, word: u32)
    requires { (start + len ≡ length cells.old.bytes) × IsWritten (drop start cells.old.bytes)
        × (4 * index + 4 ≤ len) }
    ensures { cells.new ≡ with_tail cells.old start
        (take (4 * index) (drop 4 (written (drop start cells.old.bytes)))
        ++ (to_be_bytes w32 word ++ drop (4 * index + 4) (written (drop start cells.old.bytes)))) }
{
    insert_word(cells.slice_mut(start, len), index, word);
}

/// Moves `count` of the numbers in the last `len` bytes, from `from` on, to the places from `to` on.
fn move_in(cells: &mut Cells, start: usize, len: usize, to: usize, from: usize, count: usize)
    requires row { (start + len ≡ length cells.old.bytes)
        × IsWritten (drop start cells.old.bytes) }
    requires within { (4 * (from + count) ≤ len) × (4 * (to + count) ≤ len) }
    ensures { cells.new ≡ with_tail cells.old start
        (take (4 * to) (written (drop start cells.old.bytes))
        ++ (take (4 * count) (drop (4 * from) (written (drop start cells.old.bytes)))
        ++ drop (4 * (to + count)) (written (drop start cells.old.bytes)))) }
{
    move_words(cells.slice_mut(start, len), to, from, count);
}
