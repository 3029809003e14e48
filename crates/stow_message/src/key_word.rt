//! The word of one key.
ghost use Rattle.std.specs.Prelude.{◌≡◌, ◌≤◌, drop, length};

use std::cmp::Ordering;
use stow_slots::quartering::{Sought, step_if};
use stow_tree_model::stow_bytes::compare::{compare, word_at};

/// Where a key's own bytes begin, behind its tenant's index.
const INDEX: usize = 4;

/// How many own bytes of a key a word has.
const OWN: usize = 10;

/// How many bytes are read at once.
const EIGHT: usize = 8;

/// The lower half of a tenant's index, and ten bytes of a key behind some that are left out, but for the last bit: 95 bits, in a front
/// of 63 and a back of 32, so that two words are compared by two numbers each. Words rise as those bytes do.
#[derive(Clone, Copy)]
pub(crate) struct KeyWord {
    front_low: u32,
    front_high: u32,
    back: u32,
}

/// A key's bytes behind its tenant's index.
#[inline(always)]
pub fn own(key: &[u8]) -> &[u8]
    ensures { result.now ≡ drop 4 key.now }
{
    if key.len() < INDEX {
        return &[];
    }
    &key[INDEX..]
}

/// How many bytes at the front of both are the same, of so many.
pub fn shared_of(one: &[u8], other: &[u8], most: usize) -> usize {
    let most = most.min(one.len()).min(other.len());
    if compare(&one[..most], &other[..most]) == Ordering::Equal {
        return most;
    }
    for i in 0..most {
        if one[i] != other[i] {
            return i;
        }
    }
    most
}

/// The first ten of these bytes as a number, the highest first.
fn ten(bytes: &[u8]) -> u128
    requires { 10 ≤ length bytes.now }
{
    let high = u16::from_be_bytes([bytes[0], bytes[1]]);
    let low = u64::from_be_bytes([
        bytes[2], bytes[3], bytes[4], bytes[5], bytes[6], bytes[7], bytes[8], bytes[9],
    ]);
    (u128::from(high) << 64) | u128::from(low)
}

/// The bytes as a number, and zeros behind them where they are fewer than ten.
fn fewer(bytes: &[u8]) -> u128 {
    let mut number = 0;
    for i in 0..OWN {
        let byte = match bytes.get(i) {
            Some(byte) => *byte,
            None => 0,
        };
        number = (number << 8) | u128::from(byte);
    }
    number
}

/// The ten own bytes of a key behind so many as a number, and zeros behind the key's end. Where fewer are left, the key's last ten
/// are read, and what stands before those that are left is shifted out.
fn number_behind(key: &[u8], shared: usize) -> u128 {
    let left = key.len().saturating_sub(INDEX).saturating_sub(shared);
    if left >= OWN {
        return ten(&key[key.len() - left..]);
    }
    if key.len() < OWN {
        return fewer(&key[key.len() - left..]);
    }
    let last = ten(&key[key.len() - OWN..]);
    (last << (8 * (OWN - left))) & ((1 << 80) - 1)
}

/// The first eight of the ten own bytes of a key behind so many, as `number_behind` reads them.
#[inline(always)]
fn eight_behind(key: &[u8], shared: usize) -> u64 {
    let left = key.len().saturating_sub(INDEX).saturating_sub(shared);
    if left >= EIGHT {
        return word_at(key, key.len() - left);
    }
    if left == 0 || key.len() < EIGHT {
        return ((number_behind(key, shared) << 48) >> 64) as u64;
    }
    word_at(key, key.len() - EIGHT) << (8 * (EIGHT - left))
}

/// The front of a key's word (`KeyWord::number_of`), read at once: 63 bits, which rise as the bytes do that the word has.
#[inline(always)]
pub fn front_of(key: &[u8], shared: usize) -> u64 {
    if key.len() < INDEX {
        return 0;
    }
    let tenant = u16::from_be_bytes([key[2], key[3]]);
    (u64::from(tenant) << 47) | (eight_behind(key, shared) >> 17)
}

impl KeyWord {
    /// Below each word of a key.
    pub(crate) fn none() -> KeyWord {
        KeyWord {
            front_low: 0,
            front_high: 0,
            back: 0,
        }
    }

    /// The word of a key, of whose own bytes so many are left out.
    pub(crate) fn of(key: &[u8], shared: usize) -> KeyWord {
        let bytes = KeyWord::number_of(key, shared).to_be_bytes();
        KeyWord {
            front_low: u32::from_be_bytes([bytes[4], bytes[5], bytes[6], bytes[7]]),
            front_high: u32::from_be_bytes([bytes[0], bytes[1], bytes[2], bytes[3]]),
            back: u32::from_be_bytes([bytes[12], bytes[13], bytes[14], bytes[15]]),
        }
    }

    /// The number of a key's word. It isn't inlined, so that a search for it is compiled without branches.
    #[inline(never)]
    pub(crate) fn number_of(key: &[u8], shared: usize) -> u128 {
        if key.len() < INDEX {
            return 0;
        }
        let tenant = u16::from_be_bytes([key[2], key[3]]);
        let bits = (u128::from(tenant) << 80) | number_behind(key, shared);
        ((bits >> 33) << 64) | ((bits >> 1) & 0xffff_ffff)
    }

    /// The word as one number: its front in the upper half, whose highest bit is 0, and its back in the lower.
    #[inline(always)]
    pub(crate) fn number(self) -> u128 {
        let front = (u64::from(self.front_high) << 32) | u64::from(self.front_low);
        (u128::from(front) << 64) | u128::from(self.back)
    }
}

/// A word's number, as it is sought among words.
#[derive(Clone, Copy)]
pub(crate) struct WordOf {
    pub(crate) number: u128,
}

impl Sought<KeyWord> for WordOf {
    /// The highest bit of no word's number is set, so that of a difference tells which one is below.
    #[inline(always)]
    fn step_past(&self, word: KeyWord, _at: usize, step: usize) -> usize {
        let difference = word.number().wrapping_sub(self.number);
        step_if((difference >> 127) as usize, step)
    }
}
