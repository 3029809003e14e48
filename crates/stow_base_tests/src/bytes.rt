//! What no clause says: that the calls succeed where there is memory.
use std::alloc::{AllocError, Allocator};
use std::test::Fail;
use stow_bytes::byte_string::ByteString;

/// Whether these are `ab`, twice.
fn is_copy<A: Allocator>(word: &ByteString<A>, copy: &ByteString<A>) -> bool {
    copy == word && word.as_slice() == b"ab".as_slice() && word.len() == 2 && !word.is_empty()
}

/// Whether a byte string is above another.
fn is_above<A: Allocator>(word: &ByteString<A>, low: &ByteString<A>) -> bool {
    word > low
}

/// Whether byte strings are made, copied and compared.
fn are_made<A: Allocator + Copy>(alloc: A) -> Result<bool, AllocError> {
    let word = &ByteString::from_vec(ByteString::from_slice(alloc, b"ab")?.into_vec());
    Ok(is_copy(word, &word.clone()?) && is_above(word, &ByteString::from_slice(alloc, b"a")?))
}

#[test]
fn byte_strings(rt: HostRuntime) -> Result<(), Fail> {
    assert!(rt; are_made(rt.alloc())?);
    Ok(())
}
