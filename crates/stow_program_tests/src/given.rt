//! What the program reads.
use std::io;
use std::io::{ErrorKind, Read};

/// A reader over memory: it may give its bytes in pieces, be interrupted before each, and fail at its end.
#[derive(Drop)]
pub struct Given<'a> {
    left: &'a [u8],
    /// The most bytes of the next read, and of each later one.
    next: usize,
    step: usize,
    interrupts: bool,
    is_interrupted: bool,
    breaks: bool,
}

impl<'a> Given<'a> {
    /// Bytes that are all there.
    pub fn all(left: &'a [u8]) -> Given<'a> {
        Given::pieces(left, usize::MAX, usize::MAX)
    }

    /// A first piece of so many bytes, and others of so many.
    pub fn pieces(left: &'a [u8], first: usize, step: usize) -> Given<'a> {
        Given {
            left,
            next: first,
            step,
            interrupts: false,
            is_interrupted: false,
            breaks: false,
        }
    }

    /// One byte a call, each after an interruption; at its end it fails where it is to.
    pub fn slow(left: &'a [u8], breaks: bool) -> Given<'a> {
        Given {
            interrupts: true,
            breaks,
            ..Given::pieces(left, 1, 1)
        }
    }

    /// No bytes: the first read fails.
    pub fn broken() -> Given<'a> {
        Given {
            breaks: true,
            ..Given::all(b"")
        }
    }
}

impl Read for Given<'_> {
    fn read(&mut self, buf: &mut [u8]) -> io::Result<usize> {
        self.is_interrupted = self.interrupts && !self.is_interrupted;
        if self.is_interrupted {
            return Err(io::Error::from(ErrorKind::Interrupted));
        }
        if self.left.is_empty() && self.breaks {
            return Err(io::Error::from(ErrorKind::Other));
        }
        let count = self.next.min(self.left.len()).min(buf.len());
        let (now, later) = self.left.split_at(count);
        buf[..count].copy_from_slice(now);
        self.left = later;
        self.next = self.step;
        Ok(count)
    }
}
