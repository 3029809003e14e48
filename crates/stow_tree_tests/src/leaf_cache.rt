//! What no clause says: that the calls succeed where there is memory, which of them ask for none, and that memory is given back.
use crate::page::rows_of;
use linked_list_allocator::LocalHeap;
use std::alloc::{AllocError, Allocator};
use std::test::Fail;
use stow_leaf_cache::leaf_cache::LeafCache;
use stow_refusing::{Plan, Refusing};

/// A call of a cache. Fences are of one letter.
#[derive(Clone, Copy)]
enum Call {
    /// Keeps the leaf of this version under a fence.
    Keep(u8, u8),
    Use(u8),
    Forget(u8),
    Resize(usize),
}

/// A call, and the numbers of the versions under `a`, `b` and `c` then, where 0 is none.
type Row = (Call, [u64; 3]);

/// In a cache of two leaves those that were used last stay, one is held anew, and there are fewer under a lower limit and once
/// one is forgotten.
const OF_TWO: [Row; 8] = [
    (Call::Keep(b'a', 1), [1, 0, 0]),
    (Call::Keep(b'b', 2), [1, 2, 0]),
    (Call::Use(b'a'), [1, 2, 0]),
    (Call::Use(b'c'), [1, 2, 0]),
    (Call::Keep(b'c', 3), [1, 0, 3]),
    (Call::Keep(b'a', 4), [4, 0, 3]),
    (Call::Resize(1), [4, 0, 0]),
    (Call::Forget(b'a'), [0, 0, 0]),
];

/// A cache of no leaves holds none, until it may hold some.
const OF_NONE: [Row; 5] = [
    (Call::Keep(b'a', 1), [0, 0, 0]),
    (Call::Resize(65_536), [0, 0, 0]),
    (Call::Keep(b'a', 1), [1, 0, 0]),
    (Call::Resize(0), [0, 0, 0]),
    (Call::Keep(b'a', 1), [0, 0, 0]),
];

/// Calls that ask for no memory, behind the first two of `OF_TWO`.
const FREE: [Row; 2] = [
    (Call::Use(b'a'), [1, 2, 0]),
    (Call::Forget(b'b'), [1, 0, 0]),
];

/// A cache, and the allocator of its leaves.
#[derive(Drop)]
struct Shelf<A: Allocator + Copy> {
    cache: LeafCache<A>,
    alloc: A,
}

impl<A: Allocator + Copy> Shelf<A> {
    fn new(alloc: A, limit: usize) -> Result<Shelf<A>, AllocError> {
        let cache = LeafCache::new(alloc, limit)?;
        Ok(Shelf { cache, alloc })
    }

    /// Carries out a call. Whether a leaf that is used is told of as it is by `peek`.
    fn call(&mut self, call: Call) -> Result<bool, AllocError> {
        match call {
            Call::Keep(fence, number) => self.cache.keep(&[fence], rows_of(self.alloc, number)?),
            Call::Use(fence) => return Ok(self.is_used(fence)),
            Call::Forget(fence) => self.cache.forget(&[fence]),
            Call::Resize(limit) => self.cache.resize(limit)?,
        }
        Ok(true)
    }

    fn is_used(&mut self, fence: u8) -> bool {
        let is_there = self.cache.peek(&[fence]).is_some();
        self.cache.find(&[fence]).is_some() == is_there
    }

    /// The number of the version under a fence, or 0.
    fn number(&self, fence: u8) -> u64 {
        match self.cache.peek(&[fence]) {
            Some(rows) if rows.len() > 0 => rows.get(0).number,
            _ => 0,
        }
    }

    /// Whether a cache holds these under `a`, `b` and `c`, and no more.
    fn holds(&self, numbers: [u64; 3]) -> bool {
        let [a, b, c] = numbers;
        let count = usize::from(a > 0) + usize::from(b > 0) + usize::from(c > 0);
        self.number(b'a') == a
            && self.number(b'b') == b
            && self.number(b'c') == c
            && self.cache.len() == count
    }

    /// Whether all rows hold.
    fn work(&mut self, rows: &[Row]) -> Result<bool, AllocError> {
        for i in 0..rows.len() {
            let (call, numbers) = rows[i];
            if !self.call(call)? || !self.holds(numbers) {
                return Ok(false);
            }
        }
        Ok(true)
    }
}

/// Whether the rows hold of a cache of this limit.
fn hold<A: Allocator + Copy>(alloc: A, limit: usize, rows: &[Row]) -> Result<bool, AllocError> {
    Shelf::new(alloc, limit)?.work(rows)
}

/// How many of 4,000 leaves are held where as many may be as ever.
fn held_of_many<A: Allocator + Copy>(alloc: A) -> Result<usize, AllocError> {
    let mut shelf = Shelf::new(alloc, 65_536)?;
    for number in 0..4_000u32 {
        shelf.cache.keep(&number.to_be_bytes(), rows_of(alloc, 1)?);
    }
    Ok(shelf.cache.len())
}

#[test]
fn the_last_used_stay(rt: HostRuntime) -> Result<(), Fail> {
    let heap = Refusing::new(rt.alloc());
    assert!(rt; hold(&heap, 2, &OF_TWO)?);
    assert!(rt; hold(&heap, 0, &OF_NONE)?);
    assert_eq!(rt; held_of_many(&heap)?, 4_000);
    heap.set(Plan::RefuseAt(0));
    assert!(rt; hold(&heap, 2, &OF_TWO).is_err());
    Ok(())
}

/// Whether a leaf that this request for memory is refused to is not kept, and another stays; `None` where it asks for fewer
/// and is kept.
fn withstands<A: Allocator + Copy, B: Allocator>(
    heap: &Refusing<B>,
    alloc: A,
    at: u64,
) -> Result<Option<bool>, AllocError> {
    heap.set(Plan::Grant);
    let mut shelf = Shelf::new(alloc, 2)?;
    shelf.call(Call::Keep(b'b', 2))?;
    let rows = rows_of(alloc, 1)?;
    heap.set(Plan::RefuseAt(at));
    shelf.cache.keep(b"a", rows);
    if heap.asked() <= at && shelf.holds([1, 2, 0]) {
        return Ok(None);
    }
    Ok(Some(shelf.holds([0, 2, 0])))
}

/// How many requests there are of which each may be refused; `Err` where one may not.
fn refusals<A: Allocator + Copy, B: Allocator>(
    heap: &Refusing<B>,
    alloc: A,
) -> Result<u64, AllocError> {
    for at in 0..20u64 {
        match withstands(heap, alloc, at)? {
            None => return Ok(at),
            Some(is_right) if is_right => {}
            Some(_) => return Err(AllocError),
        }
    }
    Err(AllocError)
}

/// Whether what is held is looked up and forgotten, and fewer are held, with every request for memory refused. Only the
/// last asks for any.
fn asks_for_none<A: Allocator + Copy, B: Allocator>(
    heap: &Refusing<B>,
    alloc: A,
) -> Result<bool, AllocError> {
    heap.set(Plan::Grant);
    let mut shelf = Shelf::new(alloc, 2)?;
    let made = shelf.work(&OF_TWO[..2])?;
    heap.set(Plan::RefuseAll);
    let is_free = shelf.work(&FREE)? && heap.asked() == 0;
    shelf.call(Call::Resize(1))?;
    Ok(made && is_free && shelf.holds([1, 0, 0]))
}

#[test]
fn withstands_refusals(rt: HostRuntime) -> Result<(), Fail> {
    let heap = Refusing::new(rt.alloc());
    let refused = refusals(&heap, &heap)?;
    assert!(rt; refused >= 2, "{refused} refusals");
    assert!(rt; asks_for_none(&heap, &heap)?);
    Ok(())
}

/// Keeps and uses leaves.
fn fill<A: Allocator + Copy>(shelf: &mut Shelf<A>) -> Result<(), AllocError> {
    for fence in b'a'..b'e' {
        shelf.call(Call::Keep(fence, 1))?;
        shelf.call(Call::Use(b'a'))?;
    }
    Ok(())
}

/// Keeps leaves under fences that come and go, and under limits that change; then forgets all.
fn round<A: Allocator + Copy>(shelf: &mut Shelf<A>) -> Result<(), AllocError> {
    for number in 0..2_000usize {
        fill(shelf)?;
        shelf.call(Call::Resize(2 + number % 3))?;
    }
    for fence in b'a'..b'e' {
        shelf.call(Call::Forget(fence))?;
    }
    Ok(())
}

/// Whether a cache holds no more of the heap after a second round than after the first.
fn holds_no_more<A: Allocator + Copy>(heap: &LocalHeap, alloc: A) -> Result<bool, AllocError> {
    let mut shelf = Shelf::new(alloc, 2)?;
    round(&mut shelf)?;
    let used = heap.used();
    round(&mut shelf)?;
    Ok(heap.used() <= used)
}

#[test]
fn a_second_round_holds_no_more(rt: HostRuntime) -> Result<(), Fail> {
    let heap = LocalHeap::new(rt.alloc(), 1_048_576)?;
    assert!(rt; holds_no_more(&heap, &heap)?);
    Ok(())
}
