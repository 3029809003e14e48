//! The requests of a stream, from its bytes.
ghost use Rattle.std.specs.Prelude.{◌≡◌, ◌++◌, [], OnOk, OnErr};
ghost use Rattle.stow_resp.specs.Next.{IsNext};
ghost use Rattle.stow_resp.specs.Scans.{IsProgress, IsLineBegun};

use crate::known::Known;
use crate::line::{LineAt, line};
use crate::next::Next;
use crate::progress::{Progress, Scan};
use bytes::BytesMut;
use std::alloc::{AllocError, Allocator, Global};
use std::marker::Model;
use std::mem;
use stow_model::inline_at::{InlineAt, inline, inline_message};
use stow_model::span::Span;
use stow_model::stream_fault::StreamFault;
use stow_model::words::Words;

/// The bytes of a stream that no message was made of yet. Of an unfinished array it keeps how much of it was
/// found whole, and of an unfinished inline line how much has no LF, so that a message in many pieces is looked
/// through once.
#[derive(Drop)]
pub struct Input<A: Allocator = Global> {
    unread: BytesMut<A>,
    known: Known<A>,
    /// Memory for the block of the next words, and for their spans.
    block: Vec<u8, A>,
    spans: Vec<Span, A>,
}

/// The most bytes of a block, and the most spans, that are kept for the next message.
const KEPT_BYTES: usize = 4096;

const KEPT_SPANS: usize = 64;

impl<A: Allocator> Model for Input<A> {
    ghost use Rattle.std.specs.Prelude.{List, ℕ};
    ghost use Rattle.stow_resp.specs.Scans.{IsKnown};

    ghost Value = { List ℕ };

    ghost view = { λ a. a.unread.items };

    ghost invariant = { λ a. IsKnown a.known a.unread.items };
}

impl<A: Allocator + Copy> Input<A> {
    /// Takes no memory.
    pub fn new(alloc: A) -> Input<A>
        ensures { result ≡ [] }
    {
        Input {
            unread: BytesMut::new(alloc),
            known: Known::Nothing,
            block: Vec::new(alloc),
            spans: Vec::new(alloc),
        }
    }

    /// Adds a piece of the stream. An `Err` changes nothing.
    pub fn feed(&mut self, piece: &[u8]) -> Result<(), AllocError>
        ensures ok { OnOk result (self.new ≡ self.old ++ piece.now) }
        ensures err { OnErr result (self.new ≡ self.old) }
    {
        self.unread.extend_from_slice(piece)
    }

    /// Takes used words back: the next message's words use their memory, unless it is much.
    pub fn reuse(&mut self, words: Words<A>)
        ensures { self.new ≡ self.old }
    {
        let (block, spans) = words.into_parts();
        if block.capacity() <= KEPT_BYTES && spans.capacity() <= KEPT_SPANS {
            self.block = block;
            self.spans = spans;
        }
    }

    /// How many bytes of the unfinished message in front were looked at and are not looked at again.
    pub fn looked(&self) -> usize {
        match &self.known {
            Known::Nothing => 0,
            Known::Array(progress) => progress.scanned,
            Known::Line(looked) => *looked,
        }
    }

    /// Takes the next message off, if it is whole.
    #[inline(always)]
    pub fn next(&mut self, alloc: A) -> Next<A>
        ensures { IsNext result self.old self.new }
    {
        // Where nothing is known, as mostly, nothing is moved.
        if let Known::Nothing = &self.known {
            return self.start(alloc);
        }
        match mem::replace(&mut self.known, Known::Nothing) {
            Known::Nothing => self.start(alloc),
            Known::Array(progress) => self.go_on(alloc, progress),
            Known::Line(looked) => self.go_on_line(alloc, looked),
        }
    }

    /// Looks how a message begins.
    #[inline(always)]
    fn start(&mut self, alloc: A) -> Next<A>
        ensures { IsNext result self.old self.new }
    {
        match line(self.unread.as_slice()) {
            LineAt::Array(count, rest) => {
                let line = self.unread.len() - rest.len();
                let spans = mem::replace(&mut self.spans, Vec::new(alloc));
                let progress = Progress::new(count, line, spans);
                self.go_on(alloc, progress)
            }
            LineAt::Blank(rest) => {
                let line = self.unread.len() - rest.len();
                self.known = Known::Nothing;
                self.unread.advance(line);
                Next::Blank
            }
            LineAt::Inline => self.go_on_line(alloc, 0),
            LineAt::More => Next::More,
            LineAt::Stuck => Next::Fault(StreamFault::InvalidArrayLength),
        }
    }

    /// Looks for the elements that were not found yet.
    #[inline(never)]
    fn go_on(&mut self, alloc: A, mut progress: Progress<A>) -> Next<A>
        requires { IsProgress progress self.old }
        ensures { IsNext result self.old self.new }
    {
        match progress.scan(self.unread.as_slice()) {
            Scan::Whole => self.take(alloc, progress),
            Scan::More => {
                self.known = Known::Array(progress);
                Next::More
            }
            Scan::Stuck(fault) => {
                self.known = Known::Array(progress);
                Next::Fault(fault)
            }
        }
    }

    /// Takes a whole array off.
    #[inline(always)]
    fn take(&mut self, alloc: A, mut progress: Progress<A>) -> Next<A>
        requires progress { IsProgress progress self.old }
        requires whole { progress.found ≡ progress.count }
        ensures { IsNext result self.old self.new }
    {
        let mut block = mem::replace(&mut self.block, Vec::new(alloc));
        if progress.fill(&mut block, self.unread.as_slice()).is_err() {
            self.block = block;
            self.known = Known::Array(progress);
            return Next::NoMemory;
        }
        self.known = Known::Nothing;
        self.unread.advance(progress.scanned);
        Next::Message(Words::from_parts(block, progress.spans))
    }

    /// Looks for the end of an inline line, of which so many bytes were looked at, and takes the line off.
    fn go_on_line(&mut self, alloc: A, looked: usize) -> Next<A>
        requires { IsLineBegun looked self.old }
        ensures { IsNext result self.old self.new }
    {
        match inline(self.unread.as_slice(), looked) {
            InlineAt::Line(line, rest) => {
                let Ok(message) = inline_message(alloc, line) else {
                    return Next::NoMemory;
                };
                let used = self.unread.len() - rest.len();
                self.known = Known::Nothing;
                self.unread.advance(used);
                Next::of_message(message)
            }
            InlineAt::More => {
                self.known = Known::Line(self.unread.len());
                Next::More
            }
            InlineAt::TooLong => Next::Fault(StreamFault::InlineTooLong),
        }
    }
}
