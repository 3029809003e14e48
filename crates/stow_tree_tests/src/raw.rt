//! Worked rows, with every request for memory refused but those of making.
use std::alloc::{AllocError, Allocator};
use std::test::Fail;
use stow_raw::raw_buf::RawBuf;
use stow_refusing::{Plan, Refusing};

/// A call of a block. A place comes first, then a slot or how many there are.
#[derive(Clone, Copy)]
enum Call {
    /// So many bytes, which count up from this one.
    Push(u8, u8),
    ClearFront,
    Insert(usize, u32),
    Set(usize, u32),
    Add(usize),
    RemoveOne(usize),
    Remove(usize, usize),
    Reset,
}

/// Calls of a block of 16 bytes, each with the room that is left then, and the last slot, or 0.
const WORKED: [(Call, usize, u32); 13] = [
    (Call::Push(b'h', 5), 11, 0),
    (Call::Insert(0, 7), 7, 7),
    (Call::Insert(0, u32::MAX), 3, 7),
    (Call::Push(b'y', 3), 0, 7),
    (Call::Set(0, 258), 0, 7),
    (Call::RemoveOne(1), 4, 258),
    (Call::Reset, 16, 0),
    (Call::Add(4), 0, 0),
    (Call::Remove(1, 2), 8, 0),
    (Call::Push(b'a', 4), 4, 0),
    (Call::ClearFront, 8, 0),
    (Call::Set(1, u32::MAX), 8, u32::MAX),
    (Call::Push(b'p', 3), 5, u32::MAX),
];

/// Carries out a call, where it may be.
fn carry_out<A: Allocator>(buf: &mut RawBuf<A>, call: Call) {
    let count = buf.slot_count();
    match call {
        Call::Push(first, count) => push(buf, first, count),
        Call::ClearFront => buf.clear_front(),
        Call::Insert(at, slot) if buf.room() >= 4 && at <= count => buf.insert_slot(at, slot),
        Call::Set(at, slot) if at < count => buf.set_slot(at, slot),
        Call::Add(more) if more <= buf.room() / 4 => buf.add_slots(more),
        Call::RemoveOne(at) if at < count => buf.remove_slot(at),
        Call::Remove(at, some) if at <= count && some <= count - at => buf.remove_slots(at, some),
        Call::Reset => buf.reset(),
        _ => {}
    }
}

fn push_one<A: Allocator>(buf: &mut RawBuf<A>, byte: u8) {
    let bytes = [byte];
    if buf.room() > 0 {
        buf.push_front(&bytes);
    }
}

fn push<A: Allocator>(buf: &mut RawBuf<A>, first: u8, count: u8) {
    for i in 0..count {
        push_one(buf, first.wrapping_add(i));
    }
}

fn last_slot<A: Allocator>(buf: &RawBuf<A>) -> u32 {
    match buf.slot_count() {
        0 => 0,
        count => buf.slot(count - 1),
    }
}

/// How many of the worked rows come before the first that does not hold, whether the block has the last bytes then, and how
/// many requests for memory the calls made.
fn worked<A: Allocator, B: Allocator>(
    heap: &Refusing<B>,
    alloc: A,
) -> Result<(usize, bool, u64), AllocError> {
    let mut buf = RawBuf::with_capacity(alloc, 16)?;
    heap.set(Plan::RefuseAll);
    let mut held = 0usize;
    for i in 0..WORKED.len() {
        let (made, room, last) = WORKED[i];
        carry_out(&mut buf, made);
        if held == i && buf.room() == room && last_slot(&buf) == last {
            held = held.saturating_add(1);
        }
    }
    let is_filled = buf.front_len() == 3 && buf.bytes(1, 2) == b"qr".as_slice();
    Ok((held, is_filled, heap.asked()))
}

#[test]
fn worked_calls(rt: HostRuntime) -> Result<(), Fail> {
    let heap = Refusing::new(rt.alloc());
    let held = worked(&heap, &heap)?;
    assert_eq!(rt; held, (WORKED.len(), true, 0));
    Ok(())
}

/// The room of a block of so many bytes. Refused memory is an `Err`.
pub(crate) fn room_of<A: Allocator>(alloc: A, capacity: usize) -> Result<usize, AllocError> {
    let buf = RawBuf::with_capacity(alloc, capacity)?;
    Ok(buf.room().saturating_add(buf.bytes(0, 0).len()))
}

#[test]
fn only_making_asks_for_memory(rt: HostRuntime) -> Result<(), Fail> {
    let heap = Refusing::new(rt.alloc());
    assert_eq!(rt; room_of(&heap, 16_777_216), Ok(16_777_216));
    assert_eq!(rt; (room_of(&heap, 64), heap.asked()), (Ok(64), 2));
    assert_eq!(rt; room_of(&heap, usize::MAX), Err(AllocError));
    heap.set(Plan::RefuseAll);
    assert_eq!(rt; room_of(&heap, 64), Err(AllocError));
    assert_eq!(rt; room_of(&heap, 0), Ok(0));
    Ok(())
}
