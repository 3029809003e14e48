//! Words that are lent out of the block that holds them.
ghost use Rattle.std.specs.Prelude.{◌≡◌, ◌==◌, ◌<◌, ◌≤◌, length, take, get_or};
ghost use Rattle.stow_model.specs.Spans.{words_at, AreInside, inside_once};

use crate::span::Span;

/// Words one after another, lent. `words_in` of `specs/LentWords.antt` is their list.
#[derive(Clone, Copy)]
pub struct LentWords<'a> {
    block: &'a [u8],
    spans: &'a [Span],
    ghost inside: { AreInside block.now spans.now } by { inside_once block.now spans.now },
}

impl<'a> LentWords<'a> {
    ghost use Rattle.stow_model.specs.LentWords.{words_in, IsFirst, IsOnly, AreTwo, AreThree};

    /// The words that stand at these spans of a block.
    pub fn new(block: &'a [u8], spans: &'a [Span]) -> LentWords<'a>
        requires { AreInside block.now spans.now }
        ensures { words_in result ≡ words_at block.now spans.now }
    {
        LentWords { block, spans }
    }

    pub fn len(self) -> usize
        ensures { result ≡ length (words_in self.entry) }
    {
        self.spans.len()
    }

    pub fn is_empty(self) -> bool
        ensures { result ≡ (length (words_in self.entry) == 0) }
    {
        self.spans.is_empty()
    }

    /// The first word, and those after it.
    pub fn split_first(self) -> Option<(&'a [u8], LentWords<'a>)>
        ensures { IsFirst (words_in self.entry) result }
    {
        let (span, later) = self.spans.split_first()?;
        let word = &self.block[span.start..span.end];
        Some((word, LentWords::new(self.block, later)))
    }

    /// The word at an index.
    pub fn get(self, index: usize) -> &'a [u8]
        requires { index < length (words_in self) }
        ensures { result.now ≡ get_or (words_in self.entry) index result.now }
    {
        let span = self.spans[index];
        &self.block[span.start..span.end]
    }

    /// So many words from the first on.
    pub fn first(self, count: usize) -> LentWords<'a>
        requires { count ≤ length (words_in self) }
        ensures { words_in result ≡ take count (words_in self.entry) }
    {
        LentWords::new(self.block, &self.spans[..count])
    }

    /// The word, if there is one and no other.
    pub fn only(self) -> Option<&'a [u8]>
        ensures { IsOnly (words_in self.entry) result }
    {
        let (word, later) = self.split_first()?;
        if later.is_empty() { Some(word) } else { None }
    }

    /// Both words, if there are two.
    pub fn two(self) -> Option<(&'a [u8], &'a [u8])>
        ensures { AreTwo (words_in self.entry) result }
    {
        let (first, later) = self.split_first()?;
        let second = later.only()?;
        Some((first, second))
    }

    /// The three words, if there are three.
    pub fn three(self) -> Option<(&'a [u8], &'a [u8], &'a [u8])>
        ensures { AreThree (words_in self.entry) result }
    {
        let (first, later) = self.split_first()?;
        let (second, third) = later.two()?;
        Some((first, second, third))
    }
}
