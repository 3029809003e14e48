//! Requests spelled from lines of words.
use std::alloc::{AllocError, Allocator};

/// The word that stands for a place in a line: `''` is the empty word.
pub fn word_of(word: &str) -> &str {
    if word == "''" { "" } else { word }
}

/// Adds a line's words in array form.
pub fn push_array<A: Allocator + Copy>(
    alloc: A,
    bytes: &mut Vec<u8, A>,
    line: &str,
) -> Result<(), AllocError> {
    let count = line.split_whitespace().count();
    bytes.extend_from_slice(format!(in alloc; "*{count}\r\n")?.as_bytes())?;
    for word in line.split_whitespace() {
        let word = word_of(word);
        let len = word.len();
        bytes.extend_from_slice(format!(in alloc; "${len}\r\n{word}\r\n")?.as_bytes())?;
    }
    Ok(())
}
