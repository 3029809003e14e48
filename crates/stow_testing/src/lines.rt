//! The words of lines.
use crate::spelling::word_of;
use std::alloc::{AllocError, Allocator};
use stow_bytes::limits::KEY_LIMIT;
use stow_model::words::Words;

/// A byte, so many times.
pub fn repeated<A: Allocator>(alloc: A, byte: u8, count: usize) -> Result<Vec<u8, A>, AllocError> {
    let mut bytes = Vec::new(alloc);
    for _ in 0..count {
        bytes.push(byte)?;
    }
    Ok(bytes)
}

/// Bytes of a value of which six fit the smallest buffer.
const LONG: usize = 300_000;

/// Adds a word that a line names: `''` is the empty one, `LAST` the last key that there can be, and `LONG` a long value.
pub fn push_word<A: Allocator + Copy>(
    words: &mut Words<A>,
    alloc: A,
    word: &str,
) -> Result<(), AllocError> {
    match word {
        "LAST" => words.push(repeated(alloc, 0xff, KEY_LIMIT)?.as_slice())?,
        "LONG" => words.push(repeated(alloc, b'y', LONG)?.as_slice())?,
        _ => words.push(word_of(word).as_bytes())?,
    }
    Ok(())
}

/// The words of a line.
pub fn words_of<A: Allocator + Copy>(alloc: A, line: &str) -> Result<Words<A>, AllocError> {
    let mut words = Words::new(alloc);
    for word in line.split_whitespace() {
        push_word(&mut words, alloc, word)?;
    }
    Ok(words)
}
