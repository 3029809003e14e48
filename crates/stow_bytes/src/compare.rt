//! The order of bytes, by words of eight.
ghost use Rattle.std.specs.Prelude.{◌≡◌, ◌+◌, ◌≤◌, length, drop};
ghost use Rattle.std.specs.Int.{from_be_bytes, w32, w64};
ghost use Rattle.stow_bytes.specs.Bytes.{bytes_cmp};
ghost use Rattle.stow_bytes.specs.Words.{AreAlike, AreBytes};

use std::cmp::Ordering;

/// How bytes stand to others, and how many of both at the front were seen to be the same.
#[derive(Clone, Copy)]
pub struct Standing {
    pub order: Ordering,
    pub shared: usize,
}

/// How bytes stand to others: byte by byte, a front before its continuation.
#[inline(always)]
pub fn compare(one: &[u8], other: &[u8]) -> Ordering
    ensures { result ≡ bytes_cmp one.now other.now }
{
    compare_past(one, other, 0).order
}

/// The same of bytes of which so many at the front are known to be the same: these aren't looked at again. Fewer than eight at
/// the end are read with some before them, as one word.
#[inline(always)]
pub fn compare_past(one: &[u8], other: &[u8], shared: usize) -> Standing
    requires { AreAlike shared one.now other.now }
    ensures order { result.order ≡ bytes_cmp one.now other.now }
    ensures shared { AreAlike result.shared one.now other.now }
{
    let common = one.len().min(other.len());
    if common < 8 {
        let order = compare_short(one, other);
        return Standing { order, shared };
    }
    let last = common - 8;
    let mut shared = shared;
    while shared < last {
        let (word, against) = (word_at(one, shared), word_at(other, shared));
        if word != against {
            let order = word.cmp(&against);
            return Standing { order, shared };
        }
        shared += 8;
    }
    let (word, against) = (word_at(one, last), word_at(other, last));
    let order = if word != against {
        word.cmp(&against)
    } else {
        one.len().cmp(&other.len())
    };
    Standing { order, shared }
}

/// How bytes stand to others, where one has fewer than eight: by four at once, then byte by byte.
fn compare_short(one: &[u8], other: &[u8]) -> Ordering
    ensures { result ≡ bytes_cmp one.now other.now }
{
    if one.len() < 4 || other.len() < 4 {
        return one.cmp(other);
    }
    let (word, after_one) = split_four(one);
    let (against, after_other) = split_four(other);
    if word != against {
        return word.cmp(&against);
    }
    after_one.cmp(after_other)
}

/// The number in the eight bytes from `at` on, the highest first.
#[inline(always)]
pub fn word_at(bytes: &[u8], at: usize) -> u64
    requires { at + 8 ≤ length bytes.now }
    ensures bytes { AreBytes bytes.now }
    ensures number { result ≡ from_be_bytes w64 (drop at bytes.now) }
{
    u64::from_be_bytes([
        bytes[at],
        bytes[at + 1],
        bytes[at + 2],
        bytes[at + 3],
        bytes[at + 4],
        bytes[at + 5],
        bytes[at + 6],
        bytes[at + 7],
    ])
}

/// The number in the first four bytes, the highest first, and what follows them.
fn split_four(bytes: &[u8]) -> (u32, &[u8])
    requires { 4 ≤ length bytes.now }
    ensures bytes { AreBytes bytes.now }
    ensures number { result.0 ≡ from_be_bytes w32 bytes.now }
    ensures rest { result.1.now ≡ drop 4 bytes.now }
{
    let number = u32::from_be_bytes([bytes[0], bytes[1], bytes[2], bytes[3]]);
    (number, bytes.split_at(4).1)
}
