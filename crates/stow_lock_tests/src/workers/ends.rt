//! Readers and writers over memory that tell their bytes, and fail where they are to.
ghost use Rattle.std.specs.Prelude.{◌≡◌, ℕ, List, Some, true, false};
ghost use Rattle.stow_workers.specs.Failures.{HasFailed};

use std::alloc::Global;
use std::cell::Cell;
use std::io;
use std::io::{Error, ErrorKind};
use stow_workers::sink::Sink;
use stow_workers::source::Source;

/// One failure more.
fn one_more(failures: &mut u64) -> Error
    ensures { HasFailed failures.old failures.new }
{
    *failures = failures.saturating_add(1).min(9_223_372_036_854_775_807);
    Error::from(ErrorKind::Other)
}

/// Gives its bytes, so many a read, and at its end fails where it is to.
#[derive(Drop)]
pub struct Feed<'a> {
    left: &'a [u8],
    step: usize,
    breaks: bool,
    pub failures: u64,
}

impl<'a> Feed<'a> {
    pub fn new(left: &'a [u8], step: usize, breaks: bool) -> Feed<'a> {
        Feed {
            left,
            step: step.max(1),
            breaks,
            failures: 0,
        }
    }
}

impl Source for Feed<'_> {
    ghost remaining = { λ f. Some f.left.now };

    ghost failures = { λ f. f.failures };

    fn read(&mut self, room: &mut [u8]) -> io::Result<usize> {
        if self.breaks && self.left.is_empty() {
            return Err(one_more(&mut self.failures));
        }
        let most = self.step.max(1).min(room.len());
        let count = most.min(self.left.len());
        let (now, later) = self.left.split_at(count);
        room[..count].copy_from_slice(now);
        self.left = later;
        Ok(count)
    }
}

/// Gives a message a read, and fails where the replies so far aren't written yet.
#[derive(Drop)]
pub struct Prompt<'a> {
    left: &'a [u8],
    given: usize,
    written: &'a Cell<usize>,
    failures: u64,
}

/// How long each message is, and how many bytes are written before it is given.
const MESSAGES: [(usize, usize); 4] = [(31, 0), (28, 5), (20, 10), (0, 18)];

impl<'a> Prompt<'a> {
    pub fn new(left: &'a [u8], written: &'a Cell<usize>) -> Prompt<'a> {
        Prompt {
            left,
            given: 0,
            written,
            failures: 0,
        }
    }
}

impl Source for Prompt<'_> {
    ghost failures = { λ p. p.failures };

    fn read(&mut self, room: &mut [u8]) -> io::Result<usize> {
        let Some((count, due)) = MESSAGES.get(self.given).copied() else {
            return Err(one_more(&mut self.failures));
        };
        if self.written.get() != due || count > room.len() || count > self.left.len() {
            return Err(one_more(&mut self.failures));
        }
        let (now, later) = self.left.split_at(count);
        room[..count].copy_from_slice(now);
        self.left = later;
        self.given = self.given.saturating_add(1);
        Ok(count)
    }
}

/// Takes one byte a write until it has no room; then it fails, or takes none.
#[derive(Drop)]
pub struct Narrow<'a> {
    held: Vec<u8>,
    written: &'a Cell<usize>,
    room: usize,
    pub takes_none: bool,
    pub failures: u64,
    /// The most bytes that it was asked to take at once.
    pub most: usize,
}

impl<'a> Narrow<'a> {
    pub fn new(alloc: Global, written: &'a Cell<usize>, room: usize) -> Narrow<'a> {
        Narrow {
            held: Vec::new(alloc),
            written,
            room,
            takes_none: false,
            failures: 0,
            most: 0,
        }
    }

    pub fn bytes(&self) -> &[u8] {
        self.held.as_slice()
    }
}

impl Sink for Narrow<'_> {
    ghost contents = { λ n. Some n.held.items };

    ghost failures = { λ n. n.failures };

    fn write(&mut self, bytes: &[u8]) -> io::Result<usize> {
        self.most = self.most.max(bytes.len());
        let Some(byte) = bytes.first() else {
            return Ok(0);
        };
        if self.held.len() < self.room && self.held.push(*byte).is_ok() {
            self.written.set(self.held.len());
            return Ok(1);
        }
        let error = one_more(&mut self.failures);
        if self.takes_none { Ok(0) } else { Err(error) }
    }

    fn flush(&mut self) -> io::Result<()> {
        Ok(())
    }
}
