//! The most words, the longest word and the longest line.
use crate::resp::telling::{is_read, is_told_in_pieces};
use std::alloc::{AllocError, Allocator};
use std::str::Split;
use std::test::Fail;

/// Streams, what is told of each, and how many bytes are left. Of a stream as of what is told stand some bytes, then others so
/// many times, and then an end. `~` ends a row.
///
/// An array of 1,024 words; a word of 1,048,576 bytes, without its end and with it; and lines of 65,536 bytes, a CR before the LF
/// counted among them, and of more.
const LONG: &str = "*1024\r\n|$0\r\n\r\n|1024||M|[]|1024|.|0~
*1024\r\n|$2\r\nab\r\n|1024||M|[ab]|1024|.|0~
*1\r\n$1048576\r\n|x|1048576||.||0||1048590~
*1\r\n$1048576\r\n|x|1048576|\r\n|M[|x|1048576|].|0~
|x|65536||.||0||65536~
|x|65536|\n|M[|x|65536|].|0~
|x|65535|\r\n|M[|x|65535|].|0~
|x|65534| x\n|M[|x|65534|][x].|0~
|x|65536|\nPING\n|M[|x|65536|]M[PING].|0~
| |65536|\n|B.||0||0~
\nPING|x|65532||B.||0||65536~
|x|65536|x|inline request too long||0||65537~
|x|65536|\r\n|inline request too long||0||65538~
|x|65536|\"|inline request too long||0||65537~
|x|65536|\"\n|inline request too long||0||65538~
|x|65536|x\n|inline request too long||0||65538~
|x|65536|x\nPING\n|inline request too long||0||65543";

/// The next number of a row.
fn number(parts: &mut Split<'_, char>) -> usize {
    parts.next().unwrap_or("").parse::<usize>().unwrap_or(0)
}

/// The next bytes of a row.
fn bytes_of<A: Allocator>(alloc: A, parts: &mut Split<'_, char>) -> Result<Vec<u8, A>, AllocError> {
    let mut bytes = Vec::from_slice(alloc, parts.next().unwrap_or("").as_bytes())?;
    let repeated = parts.next().unwrap_or("").as_bytes();
    for _ in 0..number(parts) {
        bytes.extend_from_slice(repeated)?;
    }
    bytes.extend_from_slice(parts.next().unwrap_or("").as_bytes())?;
    Ok(bytes)
}

/// Whether bytes are told so in pieces of several sizes. Those of a line also come one by one.
fn is_told<A: Allocator + Copy>(alloc: A, bytes: &[u8], told: &[u8]) -> Result<bool, AllocError> {
    let least = if bytes.len() < 70_000 { 1 } else { 1_000 };
    for size in [least, 4_096, 65_536, 2_000_000] {
        if !is_told_in_pieces(alloc, bytes, (0, size), told)? {
            return Ok(false);
        }
    }
    Ok(true)
}

/// Whether a long stream is told so, also by the plain reader.
fn is_stream<A: Allocator + Copy>(alloc: A, row: &str) -> Result<bool, AllocError> {
    let parts = &mut row.split('|');
    let bytes = bytes_of(alloc, parts)?;
    let told = bytes_of(alloc, parts)?;
    Ok(
        is_told(alloc, bytes.as_slice(), told.as_slice())?
            && is_read(alloc, bytes.as_slice(), told.as_slice(), number(parts))?,
    )
}

#[test]
fn words_and_lines_have_limits(rt: HostRuntime) -> Result<(), Fail> {
    for (number, row) in LONG.split("~\n").enumerate() {
        assert!(rt; is_stream(rt.alloc(), row)?, "stream {number}");
    }
    Ok(())
}
