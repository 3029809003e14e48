//! Bytes as a script writes them: the printing characters of ASCII stand for themselves, but a backslash
//! begins `\r`, `\n`, `\\`, or `\xHH` with two hexadecimal digits.
ghost use Rattle.std.specs.Prelude.{◌≡◌, ◌<◌, ◌≤◌, ◌++◌, IfOk, IfErr, IfSome, OnOk, length};
ghost use Rattle.std.specs.Io.{StartsWith};
ghost use Rattle.stow_script.specs.Text.{IsByteText, IsEscape, IsHexadecimal, StandsFor, byte_text, text_of};
ghost use Rattle.stow_script.specs.Read.{IsFault, IsFront, StandsForNone};

use std::alloc::{AllocError, Allocator};
use stow_commands::stow_bytes::byte_string::ByteString;

/// Why there are no bytes.
#[derive(Clone, Copy, Debug, PartialEq, Eq)]
pub enum TextFault<'a> {
    /// The text is none: from here on.
    Malformed(&'a [u8]),
    Memory,
}

impl From<AllocError> for TextFault<'_> {
    ghost use Rattle.std.specs.Prelude.{◌≡◌};
    ghost use Rattle.stow_script.specs.declared.text.TextFault.TheVariants.{Memory};

    ghost from_gives = { λ _ fault. fault ≡ Memory };

    fn from(_error: AllocError) -> Self {
        TextFault::Memory
    }
}

/// The bytes that the text stands for.
pub fn unescape<A: Allocator + Copy>(alloc: A, text: &[u8]) -> Result<ByteString<A>, TextFault<'_>>
    ensures ok { IfOk result (λ bytes. StandsFor text.now bytes) }
    ensures err { IfErr result (IsFault (StandsForNone text.now)) }
{
    let mut bytes = Vec::with_capacity(alloc, text.len())?;
    let mut left = text;
    while !left.is_empty() {
        let Some((byte, after)) = first_byte(left) else {
            return Err(TextFault::Malformed(left));
        };
        bytes.push(byte).map_err(|_| TextFault::Memory)?;
        left = after;
    }
    Ok(ByteString::from_vec(bytes))
}

/// The byte that the front of the text stands for, and what comes after it.
fn first_byte(text: &[u8]) -> Option<(u8, &[u8])>
    ensures shorter { IfSome result (λ found. length found.1.now < length text.now) }
    ensures front { IsFront IsByteText text.now result }
{
    let (first, rest) = text.split_first()?;
    match *first {
        b'\\' => escaped(rest),
        b' '..=b'~' => Some((*first, rest)),
        _ => None,
    }
}

/// The byte that stands behind a backslash, and what comes after it.
fn escaped(text: &[u8]) -> Option<(u8, &[u8])>
    ensures shorter { IfSome result (λ found. length found.1.now < length text.now) }
    ensures front { IsFront IsEscape text.now result }
{
    let (kind, rest) = text.split_first()?;
    match *kind {
        b'r' => Some((b'\r', rest)),
        b'n' => Some((b'\n', rest)),
        b'\\' => Some((b'\\', rest)),
        b'x' => hexadecimal(rest),
        _ => None,
    }
}

/// The byte of the two hexadecimal digits at the front, and what comes after them.
fn hexadecimal(text: &[u8]) -> Option<(u8, &[u8])>
    ensures shorter { IfSome result (λ found. length found.1.now ≤ length text.now) }
    ensures front { IsFront IsHexadecimal text.now result }
{
    let (digits, rest) = text.split_at_checked(2)?;
    let mut byte = [0u8];
    hex::decode_to_slice(digits, &mut byte).ok()?;
    Some((byte[0], rest))
}

/// Adds the text that stands for the bytes, with no longer form than each byte needs.
pub fn escape<A: Allocator>(bytes: &[u8], out: &mut Vec<u8, A>) -> Result<(), AllocError>
    ensures ok { OnOk result (out.new.items ≡ out.old.items ++ text_of bytes.now) }
    ensures front { StartsWith out.new.items out.old.items }
{
    for byte in bytes {
        escape_byte(*byte, out)?;
    }
    Ok(())
}

fn escape_byte<A: Allocator>(byte: u8, out: &mut Vec<u8, A>) -> Result<(), AllocError>
    ensures ok { OnOk result (out.new.items ≡ out.old.items ++ byte_text byte) }
    ensures front { StartsWith out.new.items out.old.items }
{
    match byte {
        b'\r' => out.extend_from_slice(b"\\r"),
        b'\n' => out.extend_from_slice(b"\\n"),
        b'\\' => out.extend_from_slice(b"\\\\"),
        b' '..=b'~' => {
            out.push(byte)?;
            Ok(())
        }
        _ => {
            let mut digits = [0u8; 2];
            let _ = hex::encode_to_slice([byte], &mut digits);
            out.extend_from_slice(b"\\x")?;
            out.extend_from_slice(&digits)
        }
    }
}
