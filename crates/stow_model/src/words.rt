//! The words of a request.
ghost use Rattle.std.specs.Prelude.{◌≡◌, ◌++◌, ◌∷◌, ℕ, List, [], length, map, IfOk, OnOk, OnErr};
ghost use Rattle.stow_model.specs.Spans.{words_at, AreInside};
ghost use Rattle.stow_model.specs.LentWords.{words_in};

use crate::lent_words::LentWords;
use crate::span::Span;
use std::alloc::{AllocError, Allocator, Global};
use std::marker::Model;
use stow_bytes::byte_string::ByteString;

/// A list of byte strings, in one block of bytes with the span of each.
#[derive(Drop)]
pub struct Words<A: Allocator = Global> {
    block: Vec<u8, A>,
    spans: Vec<Span, A>,
}

impl<A: Allocator> Model for Words<A> {
    ghost use Rattle.std.specs.Prelude.{ℕ, List};
    ghost use Rattle.stow_model.specs.Spans.{words_at, AreInside};

    ghost Value = { List (List ℕ) };

    ghost view = { λ w. words_at w.block.items w.spans.items };

    ghost invariant = { λ w. AreInside w.block.items w.spans.items };
}

impl<A: Allocator + Copy> Words<A> {
    /// No words. It takes no memory.
    pub fn new(alloc: A) -> Words<A>
        ensures { result ≡ [] }
    {
        Words {
            block: Vec::new(alloc),
            spans: Vec::new(alloc),
        }
    }

    /// No words, with room for this many of so many bytes together.
    pub fn with_capacity(alloc: A, words: usize, bytes: usize) -> Result<Words<A>, AllocError>
        ensures { IfOk result (λ made. made ≡ []) }
    {
        Ok(Words {
            block: Vec::with_capacity(alloc, bytes)?,
            spans: Vec::with_capacity(alloc, words)?,
        })
    }

    /// Copies of the words of a list.
    pub fn from_slice(alloc: A, words: &[ByteString<A>]) -> Result<Words<A>, AllocError>
        ensures { IfOk result (λ made. made ≡ words.now) }
    {
        let mut made = Words::new(alloc);
        for word in words {
            made.push(word.as_slice())?;
        }
        Ok(made)
    }
}

impl<A: Allocator> Words<A> {
    /// The words that stand at these spans of a block, which keep their memory.
    pub fn from_parts(block: Vec<u8, A>, spans: Vec<Span, A>) -> Words<A>
        requires { AreInside block.items spans.items }
        ensures { result ≡ words_at block.items spans.items }
    {
        Words { block, spans }
    }

    /// The block and the spans, without a copy.
    pub fn into_parts(self) -> (Vec<u8, A>, Vec<Span, A>)
        ensures { words_at result.0.items result.1.items ≡ self }
    {
        let Words { block, spans } = self;
        (block, spans)
    }

    /// The words, lent.
    pub fn lent(&self) -> LentWords<'_>
        ensures { words_in result ≡ self.now }
    {
        LentWords::new(self.block.as_slice(), self.spans.as_slice())
    }

    /// How many words there are.
    pub fn len(&self) -> usize
        ensures { result ≡ length self.now }
    {
        self.spans.len()
    }

    /// Adds a copy of a word. An `Err` changes nothing.
    #[inline(always)]
    pub fn push(&mut self, word: &[u8]) -> Result<(), AllocError>
        ensures ok { OnOk result (self.new ≡ self.old ++ word.now ∷ []) }
        ensures err { OnErr result (self.new ≡ self.old) }
    {
        self.spans.reserve(1)?;
        let start = self.block.len();
        self.block.extend_from_slice(word)?;
        let end = self.block.len();
        self.spans.push(Span { start, end })?;
        Ok(())
    }
}
