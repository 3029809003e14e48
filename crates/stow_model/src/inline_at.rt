//! A request in inline form: a line, and the words that stand in it.
ghost use Rattle.std.specs.Prelude.{◌≡◌, ◌++◌, length, IfOk, OnOk, OnErr};
ghost use Rattle.stow_model.specs.Message.{message_of};
ghost use Rattle.stow_model.specs.Wire.{is_space, is_quote, words_of_text, text_of_line, message_of_text};
ghost use Rattle.stow_model.specs.Parts.{IsInlineAt, IsLooked, AsksForWords, IsNextWord};

use crate::message::Message;
use crate::words::Words;
use std::alloc::{AllocError, Allocator};
use stow_bytes::limits::LINE_LIMIT;

/// What is found where an inline request's line is to stand.
pub enum InlineAt<'a> {
    /// The line before its LF, and what comes after the LF.
    Line(&'a [u8], &'a [u8]),
    /// The bytes begin a line, and there is no LF yet.
    More,
    /// There are more bytes than a line may have, and no LF among so many.
    TooLong,
}

/// The line at the front of the bytes. The first `looked` of them, which hold no LF, aren't looked at again.
pub fn inline(bytes: &[u8], looked: usize) -> InlineAt<'_>
    requires { IsLooked looked bytes.now }
    ensures { IsInlineAt bytes.now result }
{
    let end = bytes.len().min(LINE_LIMIT + 1);
    match bytes[looked..end].iter().position(|b| *b == b'\n') {
        Some(more) => {
            let (line, ended) = bytes.split_at(looked + more);
            InlineAt::Line(line, &ended[1..])
        }
        None if bytes.len() > LINE_LIMIT => InlineAt::TooLong,
        None => InlineAt::More,
    }
}

/// What a line asks for. Only words take memory.
pub fn inline_message<A: Allocator + Copy>(alloc: A, line: &[u8]) -> Result<Message<A>, AllocError>
    ensures ok { IfOk result (λ m. message_of m ≡ message_of_text (text_of_line line.now)) }
    ensures err { OnErr result (AsksForWords line.now) }
{
    let text = text_of_line(line);
    if text.iter().any(|b| is_quote(*b)) {
        return Ok(Message::Quoted);
    }
    let count = word_count(text);
    if count == 0 {
        return Ok(Message::Blank);
    }
    let mut words = Words::with_capacity(alloc, count, text.len())?;
    copy_words(text, &mut words)?;
    Ok(Message::Words(words))
}

/// All of a line but one CR at its end.
fn text_of_line(line: &[u8]) -> &[u8]
    ensures { result.now ≡ text_of_line line.now }
{
    let Some((last, front)) = line.split_last() else {
        return line;
    };
    if *last == b'\r' { front } else { line }
}

/// How many words a text has.
fn word_count(text: &[u8]) -> usize
    ensures { result ≡ length (words_of_text text.now) }
{
    let mut count = 0;
    let mut left = text;
    while let Some((_, rest)) = next_word(left) {
        count += 1;
        left = rest;
    }
    count
}

/// Adds copies of the words of a text.
fn copy_words<A: Allocator>(text: &[u8], words: &mut Words<A>) -> Result<(), AllocError>
    ensures { OnOk result (words.new ≡ words.old ++ words_of_text text.now) }
{
    let mut left = text;
    while let Some((word, rest)) = next_word(left) {
        words.push(word)?;
        left = rest;
    }
    Ok(())
}

/// The first word of a text, if it has one, and what comes after that word.
fn next_word(text: &[u8]) -> Option<(&[u8], &[u8])>
    ensures { IsNextWord text.now result }
{
    let start = text.iter().position(|b| !is_space(*b))?;
    let from_word = &text[start..];
    let end = from_word.iter().position(|b| is_space(*b));
    Some(from_word.split_at(end.unwrap_or(from_word.len())))
}

/// A space or a tab.
fn is_space(byte: u8) -> bool
    ensures { result ≡ is_space byte }
{
    byte == b' ' || byte == b'\t'
}

/// A quotation mark, double or single.
fn is_quote(byte: u8) -> bool
    ensures { result ≡ is_quote byte }
{
    byte == b'"' || byte == b'\''
}
