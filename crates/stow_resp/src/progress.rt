//! How much of an array is there.
ghost use Rattle.std.specs.Prelude.{◌≡◌, ◌+◌, ◌≤◌, length, OnOk};
ghost use Rattle.stow_resp.specs.Spans.{IsSpanKept};

use std::alloc::{AllocError, Allocator, Global};
use stow_model::bulk_at::{BulkAt, bulk};
use stow_model::span::Span;
use stow_model::stream_fault::StreamFault;

/// What is known of an array at the front of some bytes.
#[derive(Drop)]
pub struct Progress<A: Allocator = Global> {
    /// How many words its line says.
    pub count: u32,
    /// How many bytes the line takes.
    pub line: usize,
    /// How many elements were found whole.
    pub found: u32,
    /// How many bytes the line and these elements take.
    pub scanned: usize,
    /// Where the first words that were found stand, as many as there was room for.
    pub spans: Vec<Span, A>,
}

/// How a scan ended.
pub enum Scan {
    /// All elements are there.
    Whole,
    /// The bytes begin the next element, and aren't all of it.
    More,
    /// They can become none.
    Stuck(StreamFault),
}

impl<A: Allocator> Progress<A> {
    ghost use Rattle.stow_resp.specs.Scans.{IsStart, IsProgress, IsScanned, HasAllSpans, IsFilled};

    /// An array whose line, of this many bytes, says this count. Spans are kept in the vector's memory.
    pub fn new(count: u32, line: usize, spans: Vec<Span, A>) -> Progress<A>
        ensures { IsStart count line result }
    {
        let mut spans = spans;
        spans.clear();
        Progress {
            count,
            line,
            found: 0,
            scanned: line,
            spans,
        }
    }

    /// Goes on over the elements that are whole by now. It takes no memory.
    pub fn scan(&mut self, bytes: &[u8]) -> Scan
        requires { IsProgress self.old bytes.now }
        ensures progress { IsProgress self.new bytes.now }
        ensures scanned { IsScanned bytes.now self.new result }
    {
        while self.found < self.count {
            match bulk(&bytes[self.scanned..]) {
                BulkAt::Bulk(word, after) => {
                    let span = span_before(bytes, word, after);
                    keep(&mut self.spans, self.found, span);
                    self.found += 1;
                    self.scanned = span.end + 2;
                }
                BulkAt::More => return Scan::More,
                BulkAt::Stuck(fault) => return Scan::Stuck(fault),
            }
        }
        Scan::Whole
    }

    /// Copies a whole array into a block, in which its words then stand at the spans.
    pub fn fill(&mut self, block: &mut Vec<u8, A>, bytes: &[u8]) -> Result<(), AllocError>
        requires progress { IsProgress self.old bytes.now }
        requires whole { self.old.found ≡ self.old.count }
        ensures progress { IsProgress self.new bytes.now }
        ensures filled { OnOk result (IsFilled self.new bytes.now block.new.items) }
    {
        self.find_spans(bytes)?;
        block.clear();
        block.extend_from_slice(&bytes[..self.scanned])?;
        Ok(())
    }

    /// Finds the spans of all words of a whole array, where they aren't kept yet.
    fn find_spans(&mut self, bytes: &[u8]) -> Result<(), AllocError>
        requires progress { IsProgress self.old bytes.now }
        requires whole { self.old.found ≡ self.old.count }
        ensures progress { IsProgress self.new bytes.now }
        ensures all { OnOk result (HasAllSpans self.new) }
    {
        if self.spans.len() == self.count as usize {
            return Ok(());
        }
        self.spans.clear();
        self.spans.reserve(self.count as usize)?;
        self.found = 0;
        self.scanned = self.line;
        while self.found < self.count {
            match bulk(&bytes[self.scanned..]) {
                BulkAt::Bulk(word, after) => {
                    let span = span_before(bytes, word, after);
                    self.spans.push(span)?;
                    self.found += 1;
                    self.scanned = span.end + 2;
                }
                BulkAt::More | BulkAt::Stuck(_) => unreachable!(),
            }
        }
        Ok(())
    }
}

/// Where a word stands that CR, LF and then these bytes come after.
fn span_before(bytes: &[u8], word: &[u8], after: &[u8]) -> Span
    requires { length word.now + 2 + length after.now ≤ length bytes.now }
    ensures end { result.end + 2 + length after.now ≡ length bytes.now }
    ensures start { result.start + length word.now ≡ result.end }
{
    let end = bytes.len() - after.len() - 2;
    Span {
        start: end - word.len(),
        end,
    }
}

/// Keeps the span of the word after so many, where the spans of these are kept and there is room for it.
fn keep<A: Allocator>(spans: &mut Vec<Span, A>, found: u32, span: Span)
    ensures { IsSpanKept spans.old.items found span spans.new.items }
{
    if spans.len() == found as usize && spans.len() < spans.capacity() {
        let _kept = spans.push(span);
    }
}
