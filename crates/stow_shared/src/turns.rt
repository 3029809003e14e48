//! Turns of the requests that ask for many rows.
ghost use Rattle.std.specs.Prelude.{◌<◌, length};
ghost use Rattle.stow_model.specs.LentWords.{words_in};

use std::alloc::Allocator;
use std::sync::atomic::AtomicU64;
use std::sync::{Mutex, MutexGuard, Wait};
use std::time::Duration;
use stow_model::item::Item;
use stow_model::items::Items;
use stow_model::lent_words::LentWords;
use stow_model::reply::Reply;
use stow_model::words::Words;

/// Of how many digits on a count of rows is one of many.
const DIGITS: usize = 3;

/// From how many words on an MGET asks for many rows: its name, and a hundred keys.
const WORDS: usize = 101;

/// Behind a reply of fewer bytes a turn begins at once, since a sleep would take longer than the reply did.
const SHORT: u64 = 65_536;

/// The nanoseconds, and so the bytes, after which a turn begins in any case: a tenth of a second.
const LONGEST: u64 = 100_000_000;

/// What is taken before the lock by whoever answers a request that asks for many rows, and given back after it. So at most
/// one of these requests stands among those that wait for the lock, and no other request waits for more than one of them.
#[derive(Drop)]
pub(crate) struct Turns {
    /// The bytes of the reply of the turn before.
    before: Mutex<u64>,
    /// Nobody writes it, so a sleep on it ends by its time alone.
    still: AtomicU64,
}

impl Turns {
    pub fn new() -> Turns {
        Turns {
            before: Mutex::new(0),
            still: AtomicU64::new(0),
        }
    }

    /// Takes the turn, in which the bytes of its reply are to be left. Where another one had it the lock is first left to all
    /// others, for a nanosecond for each byte of that one's reply.
    pub fn take<R: Wait>(&self, rt: &R) -> MutexGuard<'_, u64> {
        if let Some(turn) = self.before.try_lock() {
            return turn;
        }
        let turn = self.before.lock(rt);
        let pause = (*turn).min(LONGEST);
        if pause >= SHORT {
            self.still.park_timeout(rt, 0, Duration::from_nanos(pause));
        }
        turn
    }
}

/// Whether a request may ask for many rows: a RANGE by its count, an MGET by its keys, and each DROP of a snapshot.
pub(crate) fn asks_for_many<A: Allocator + Copy>(words: &Words<A>) -> bool {
    let words = words.lent();
    match words.len() {
        3 => is_of_snapshot(words, b"drop"),
        4 => words.get(0).eq_ignore_ascii_case(b"range") && words.get(3).len() >= DIGITS,
        6 => is_of_snapshot(words, b"range") && words.get(5).len() >= DIGITS,
        count => count >= WORDS && words.get(0).eq_ignore_ascii_case(b"mget"),
    }
}

/// Whether the words begin with SNAPSHOT and this name, which is in lower case.
fn is_of_snapshot(words: LentWords<'_>, name: &[u8]) -> bool
    requires { 1 < length (words_in words) }
{
    words.get(0).eq_ignore_ascii_case(b"snapshot") && words.get(1).eq_ignore_ascii_case(name)
}

/// The bytes of a reply's list.
pub(crate) fn bytes_of<A: Allocator>(reply: &Reply<A>) -> u64 {
    match reply {
        Reply::Array(items) => bytes_in(items),
        _ => 0,
    }
}

/// The bytes of the strings among these.
fn bytes_in<A: Allocator>(items: &Items<A>) -> u64 {
    let mut bytes = 0u64;
    for index in 0..items.len() {
        if let Item::Bulk(text) = items.get(index) {
            bytes = bytes.saturating_add(text.len() as u64);
        }
    }
    bytes
}
