//! Bytes written to a sink, all of them.
ghost use Rattle.std.specs.Prelude.{◌≡◌};
ghost use Rattle.stow_workers.specs.Sent.{WritesAll, written_of};

use crate::sink::Sink;
use std::io;
use std::io::{Error, ErrorKind};

/// Writes all bytes, or a beginning of them where a write fails.
pub fn write_all<W: Sink>(writer: &mut W, bytes: &[u8]) -> io::Result<()>
    ensures written { WritesAll result bytes.now
        (written_of (W.contents writer.old) (W.failures writer.old))
        (written_of (W.contents writer.new) (W.failures writer.new)) }
    ensures same_borrow { W.borrow writer.new ≡ W.borrow writer.old }
{
    let mut rest = bytes;
    while !rest.is_empty() {
        match writer.write(rest) {
            Ok(count) if count > 0 => rest = &rest[count..],
            Ok(_) => return Err(Error::from(ErrorKind::WriteZero)),
            Err(error) => return Err(error),
        }
    }
    Ok(())
}
