//! What is known of an unfinished message.
use std::alloc::{AllocError, Allocator};
use std::test::Fail;
use stow_resp::input::Input;
use stow_resp::next::Next;

/// Takes the messages off that are whole, of which there is one at most.
fn take_whole<A: Allocator + Copy>(input: &mut Input<A>, alloc: A) {
    if let Next::Message(words) = input.next(alloc) {
        input.reuse(words);
        let _more = input.next(alloc);
    }
}

/// Pieces, and how many bytes are known after each: a line is looked at up to its last byte, an array up to its last whole
/// element, and nothing of them twice.
const PIECES: [(&[u8], usize); 6] = [
    (b"GET some", 8),
    (b"_key", 12),
    (b"\n*3\r\n", 4),
    (b"$3\r\nSET\r\n$1", 13),
    (b"\r\nk\r\n", 20),
    (b"$1\r\nv\r\n", 0),
];

/// Whether of an unfinished message as much is known after each piece.
fn are_looked_at_once<A: Allocator + Copy>(
    input: &mut Input<A>,
    alloc: A,
) -> Result<bool, AllocError> {
    for (piece, known) in &PIECES {
        input.feed(piece)?;
        take_whole(input, alloc);
        if input.looked() != *known {
            return Ok(false);
        }
    }
    Ok(true)
}

/// Whether it is so of a new input.
fn is_looked_at_once<A: Allocator + Copy>(alloc: A) -> Result<bool, AllocError> {
    are_looked_at_once(&mut Input::new(alloc), alloc)
}

#[test]
fn an_unfinished_message_is_looked_at_once(rt: HostRuntime) -> Result<(), Fail> {
    assert!(rt; is_looked_at_once(rt.alloc())?);
    Ok(())
}
