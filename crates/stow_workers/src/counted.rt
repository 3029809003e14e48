//! A reader or a writer that is lent, and whose failures are counted.
ghost use Rattle.std.specs.Prelude.{◌≡◌, ◌<◌, IsSome, Some, None};
ghost use Rattle.std.specs.Io.{ReadsAtMost, WritesAtMost};
ghost use Rattle.std.specs.Io.KnownBytes.{Keeps, ReadConsumes, WriteAppends};
ghost use Rattle.stow_workers.specs.Failures.{HasFailed, CountsFailure, CountsWrite};
ghost use Rattle.stow_workers.specs.Nonblocking.{TryReadsAtMost, TryReadConsumes, TryWritesAtMost, TryWriteAppends, CountsTryWrite};

use crate::nonblocking_sink::NonblockingSink;
use crate::nonblocking_source::NonblockingSource;
use crate::sink::Sink;
use crate::source::Source;
use std::io;
use std::io::{Error, ErrorKind, Read, Write};
use stow_bytes::limits::NUMBER_LIMIT;

/// A reader or a writer that is lent, how many of its calls have failed, and why the last of these did. A call that was
/// interrupted is made again, and is no failure.
#[derive(Drop)]
pub struct Counted<'a, T> {
    inner: &'a mut T,
    failures: u64,
    last: Option<Error>,
    ghost known: { 0 < failures → IsSome last },
}

impl<'a, T> Counted<'a, T> {
    ghost use Rattle.stow_workers.specs.Counted.{inner_of, failures_of, last_of, borrow_of};

    /// None of its calls has failed yet.
    pub fn new(inner: &'a mut T) -> Counted<'a, T>
        ensures inner { inner_of result ≡ inner.old }
        ensures same_borrow { borrow_of result ≡ inner.entry.ghost_name }
        ensures failures { failures_of result ≡ 0 }
        ensures reason { last_of result ≡ None }
    {
        Counted {
            inner,
            failures: 0,
            last: None,
        }
    }

    /// Why the last call that failed did.
    pub fn last_failure(&self) -> Option<Error>
        ensures reason { result ≡ last_of self.now }
        ensures known { 0 < failures_of self.now → IsSome result }
    {
        self.last
    }

    /// One more call has failed.
    fn fail(&mut self, error: Error) -> Error
        ensures inner { inner_of self.new ≡ inner_of self.old }
        ensures same_borrow { borrow_of self.new ≡ borrow_of self.old }
        ensures failed { HasFailed (failures_of self.old) (failures_of self.new) }
        ensures reason { last_of self.new ≡ Some result }
        ensures same { result ≡ error }
    {
        self.failures = self.failures.saturating_add(1).min(NUMBER_LIMIT);
        self.last = Some(error);
        error
    }
}

impl<T: Read> Source for Counted<'_, T> {
    ghost use Rattle.stow_workers.specs.Counted.{inner_of, failures_of, last_of, borrow_of, KeepsReason};

    ghost remaining = { λ c. T.remaining (inner_of c) };

    ghost failures = { λ c. failures_of c };

    ghost borrow = { λ c. Some (borrow_of c) };

    fn read(&mut self, room: &mut [u8]) -> io::Result<usize>
        ensures bound { ReadsAtMost result room.new }
        ensures bytes { ReadConsumes (T.remaining (inner_of self.old))
            (T.remaining (inner_of self.new)) result room.new }
        ensures failures { CountsFailure result (failures_of self.old) (failures_of self.new) }
        ensures reason { KeepsReason result (last_of self.old) (last_of self.new) }
        ensures same_borrow { Some (borrow_of self.new) ≡ Some (borrow_of self.old) }
    {
        for _ in 0..u64::MAX {
            match self.inner.read(room) {
                Ok(count) => return Ok(count),
                Err(error) if error.kind() == ErrorKind::Interrupted => {}
                Err(error) => return Err(self.fail(error)),
            }
        }
        Err(self.fail(Error::from(ErrorKind::Interrupted)))
    }
}

impl<T: Write> Sink for Counted<'_, T> {
    ghost use Rattle.stow_workers.specs.Counted.{inner_of, failures_of, last_of, borrow_of, KeepsReason};

    ghost contents = { λ c. T.contents (inner_of c) };

    ghost failures = { λ c. failures_of c };

    ghost borrow = { λ c. Some (borrow_of c) };

    fn write(&mut self, bytes: &[u8]) -> io::Result<usize>
        ensures bound { WritesAtMost result bytes.now }
        ensures bytes { WriteAppends (T.contents (inner_of self.old))
            (T.contents (inner_of self.new)) result bytes.now }
        ensures failures { CountsWrite result bytes.now (failures_of self.old)
            (failures_of self.new) }
        ensures reason { KeepsReason result (last_of self.old) (last_of self.new) }
        ensures same_borrow { Some (borrow_of self.new) ≡ Some (borrow_of self.old) }
    {
        for _ in 0..u64::MAX {
            match self.inner.write(bytes) {
                Ok(0) if !bytes.is_empty() => {
                    let error = Error::new(ErrorKind::WriteZero, "failed to write whole buffer");
                    return Err(self.fail(error));
                }
                Ok(count) => return Ok(count),
                Err(error) if error.kind() == ErrorKind::Interrupted => {}
                Err(error) => return Err(self.fail(error)),
            }
        }
        Err(self.fail(Error::from(ErrorKind::Interrupted)))
    }

    fn flush(&mut self) -> io::Result<()>
        ensures bytes { Keeps (T.contents (inner_of self.old)) (T.contents (inner_of self.new)) }
        ensures failures { CountsFailure result (failures_of self.old) (failures_of self.new) }
        ensures reason { KeepsReason result (last_of self.old) (last_of self.new) }
        ensures same_borrow { Some (borrow_of self.new) ≡ Some (borrow_of self.old) }
    {
        for _ in 0..u64::MAX {
            match self.inner.flush() {
                Ok(()) => return Ok(()),
                Err(error) if error.kind() == ErrorKind::Interrupted => {}
                Err(error) => return Err(self.fail(error)),
            }
        }
        Err(self.fail(Error::from(ErrorKind::Interrupted)))
    }
}

impl<T: Read> NonblockingSource for Counted<'_, T> {
    ghost use Rattle.stow_workers.specs.Counted.{inner_of, failures_of};

    ghost remaining = { λ c. T.remaining (inner_of c) };

    ghost failures = { λ c. failures_of c };

    fn try_read(&mut self, room: &mut [u8]) -> io::Result<Option<usize>>
        ensures bound { TryReadsAtMost result room.new }
        ensures bytes { TryReadConsumes (T.remaining (inner_of self.old))
            (T.remaining (inner_of self.new)) result room.new }
        ensures failures { CountsFailure result (failures_of self.old) (failures_of self.new) }
    {
        for _ in 0..u64::MAX {
            match self.inner.read(room) {
                Ok(count) => return Ok(Some(count)),
                Err(error) if error.kind() == ErrorKind::Interrupted => {}
                Err(error) if error.kind() == ErrorKind::WouldBlock => return Ok(None),
                Err(error) => return Err(self.fail(error)),
            }
        }
        Err(self.fail(Error::from(ErrorKind::Interrupted)))
    }
}

impl<T: Write> NonblockingSink for Counted<'_, T> {
    ghost use Rattle.stow_workers.specs.Counted.{inner_of, failures_of};

    ghost contents = { λ c. T.contents (inner_of c) };

    ghost failures = { λ c. failures_of c };

    fn try_write(&mut self, bytes: &[u8]) -> io::Result<Option<usize>>
        ensures bound { TryWritesAtMost result bytes.now }
        ensures bytes { TryWriteAppends (T.contents (inner_of self.old))
            (T.contents (inner_of self.new)) result bytes.now }
        ensures failures { CountsTryWrite result bytes.now (failures_of self.old)
            (failures_of self.new) }
    {
        for _ in 0..u64::MAX {
            match self.inner.write(bytes) {
                Ok(0) if !bytes.is_empty() => {
                    let error = Error::new(ErrorKind::WriteZero, "failed to write whole buffer");
                    return Err(self.fail(error));
                }
                Ok(count) => return Ok(Some(count)),
                Err(error) if error.kind() == ErrorKind::Interrupted => {}
                Err(error) if error.kind() == ErrorKind::WouldBlock => return Ok(None),
                Err(error) => return Err(self.fail(error)),
            }
        }
        Err(self.fail(Error::from(ErrorKind::Interrupted)))
    }
}
