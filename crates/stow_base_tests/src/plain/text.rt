//! Requests of lines, and rows of lines with what they are told.
use std::alloc::{AllocError, Allocator};
use stow_model::words::Words;
use stow_plain::plain_request::PlainRequest;
use stow_testing::lines::{push_word, repeated};

/// A row's line, and what it is told.
pub(crate) fn parts_of(row: &str) -> (&str, &str) {
    row.split_once(" = ").unwrap_or((row, ""))
}

/// Adds a word that a line names: `x*9` is one of nine bytes, and `x#9` is nine of one byte.
fn push<A: Allocator + Copy>(words: &mut Words<A>, alloc: A, word: &str) -> Result<(), AllocError> {
    if let Some(length) = word.strip_prefix("x*") {
        return words.push(repeated(alloc, b'x', number(length))?.as_slice());
    }
    let Some(count) = word.strip_prefix("x#") else {
        return push_word(words, alloc, word);
    };
    for _ in 0..number(count) {
        words.push(b"x")?;
    }
    Ok(())
}

fn number(text: &str) -> usize {
    text.parse::<usize>().unwrap_or(0)
}

/// The words of a line.
fn words_of<A: Allocator + Copy>(alloc: A, line: &str) -> Result<Words<A>, AllocError> {
    let mut words = Words::new(alloc);
    for word in line.split_whitespace() {
        push(&mut words, alloc, word)?;
    }
    Ok(words)
}

/// The request of a line's words. A `!` before them says that memory is refused to it.
pub(crate) fn request_of<A: Allocator + Copy>(
    alloc: A,
    line: &str,
) -> Result<PlainRequest<A>, AllocError> {
    let words = words_of(alloc, line.strip_prefix("!").unwrap_or(line))?;
    Ok(PlainRequest {
        words,
        is_refused: line.starts_with("!"),
    })
}
