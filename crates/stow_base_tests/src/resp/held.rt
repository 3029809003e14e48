//! Memory is given back: a second equal round of pieces leaves no more of it held than the first did.

use linked_list_allocator::LocalHeap;
use std::alloc::{AllocError, Allocator};
use std::test::Fail;
use stow_resp::input::Input;
use stow_resp::next::Next;

/// Rounds of messages: arrays of one word and of many, a line, blanks, and an array that comes in two pieces.
const PIECES: [&[u8]; 6] = [
    b"*1\r\n$4\r\nPING\r\n",
    b"*8\r\n$1\r\na\r\n$1\r\nb\r\n$1\r\nc\r\n$1\r\nd\r\n$1\r\ne\r\n$1\r\nf\r\n$1\r\ng\r\n$1\r\nh\r\n",
    b"GET k\r\n*0\r\n\r\n",
    b"*2\r\n$4\r\nECHO\r\n$",
    b"12\r\ntwelve bytes\r\n",
    b"SET some_key of_a_line\n",
];

/// Takes all messages that are whole; every other one's words are given back to the input.
fn take_all<A: Allocator + Copy>(input: &mut Input<A>, alloc: A) {
    for number in 0..100u32 {
        match input.next(alloc) {
            Next::Message(words) => {
                if number % 2 == 0 {
                    input.reuse(words);
                }
            }
            Next::Quoted | Next::Blank => {}
            Next::More | Next::Fault(_) | Next::NoMemory => return,
        }
    }
}

/// An array of one word of 50,000 bytes.
fn feed_long<A: Allocator + Copy>(input: &mut Input<A>, word: &[u8]) -> Result<(), AllocError> {
    input.feed(b"*1\r\n$50000\r\n")?;
    input.feed(word)?;
    input.feed(b"\r\n")
}

/// Pieces, and one long array among them.
fn round<A: Allocator + Copy>(
    input: &mut Input<A>,
    alloc: A,
    long: &[u8],
) -> Result<(), AllocError> {
    for number in 0..2_000u32 {
        for piece in PIECES {
            input.feed(piece)?;
            take_all(input, alloc);
        }
        if number % 100 == 0 {
            feed_long(input, long)?;
            take_all(input, alloc);
        }
    }
    Ok(())
}

/// Whether an input holds no more of the heap after a second round than after the first.
fn holds_no_more<A: Allocator + Copy>(
    heap: &LocalHeap,
    input: &mut Input<A>,
    alloc: A,
    long: &[u8],
) -> Result<bool, AllocError> {
    round(input, alloc, long)?;
    let held = heap.used();
    round(input, alloc, long)?;
    Ok(heap.used() <= held)
}

/// Whether an input holds no more of the heap after the words of a long message were given back than where they weren't.
fn keeps_no_long_words<A: Allocator + Copy>(
    heap: &LocalHeap,
    input: &mut Input<A>,
    alloc: A,
    long: &[u8],
) -> Result<bool, AllocError> {
    feed_long(input, long)?;
    drop(input.next(alloc));
    let held = heap.used();
    feed_long(input, long)?;
    take_all(input, alloc);
    Ok(heap.used() <= held)
}

/// Whether inputs of this heap hold no more.
fn hold_no_more<A: Allocator + Copy>(heap: &LocalHeap, alloc: A) -> Result<bool, AllocError> {
    let long = [b'x'; 50_000];
    let is_equal = holds_no_more(heap, &mut Input::new(alloc), alloc, &long)?;
    Ok(is_equal && keeps_no_long_words(heap, &mut Input::new(alloc), alloc, &long)?)
}

// Given back or not, the words of a long message are not kept for the next.
#[test]
fn a_second_round_holds_no_more(rt: HostRuntime) -> Result<(), Fail> {
    let heap = LocalHeap::new(rt.alloc(), 4_194_304)?;
    assert!(rt; hold_no_more(&heap, &heap)?);
    Ok(())
}
