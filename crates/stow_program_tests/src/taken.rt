//! What the program writes.
use std::alloc::Global;
use std::io;
use std::io::{ErrorKind, Write};

/// Which calls of a writer fail.
#[derive(Clone, Copy, PartialEq, Eq)]
pub enum Breaks {
    Never,
    AtWrite,
    AtFlush,
}

/// A writer over memory: it may take few bytes a call, have little room, and fail.
#[derive(Drop)]
pub struct Taken {
    pub bytes: Vec<u8>,
    /// How many of them were flushed.
    pub flushed: usize,
    step: usize,
    room: usize,
    breaks: Breaks,
}

impl Taken {
    /// Takes all, unless these calls fail.
    pub fn new(alloc: Global, breaks: Breaks) -> Taken {
        Taken {
            bytes: Vec::new(alloc),
            flushed: 0,
            step: usize::MAX,
            room: usize::MAX,
            breaks,
        }
    }

    /// Takes one byte a call, and no more than it has room for.
    pub fn narrow(alloc: Global, room: usize) -> Taken {
        Taken {
            step: 1,
            room,
            ..Taken::new(alloc, Breaks::Never)
        }
    }
}

impl Write for Taken {
    fn write(&mut self, buf: &[u8]) -> io::Result<usize> {
        if self.breaks == Breaks::AtWrite {
            return Err(io::Error::from(ErrorKind::Other));
        }
        let room = self.room.saturating_sub(self.bytes.len());
        let count = self.step.min(room).min(buf.len());
        self.bytes.extend_from_slice(&buf[..count])?;
        Ok(count)
    }

    fn flush(&mut self) -> io::Result<()> {
        if self.breaks == Breaks::AtFlush {
            return Err(io::Error::from(ErrorKind::Other));
        }
        self.flushed = self.bytes.len();
        Ok(())
    }
}
