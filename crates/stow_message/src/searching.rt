//! Where messages stand in a buffer.
ghost use Rattle.std.specs.Option.{option_map};
ghost use Rattle.std.specs.Prelude.{◌≡◌, ◌-◌, ◌<◌, ◌≤◌, ◌==◌, length, max, IsTrue, false};
ghost use Rattle.stow_tree_model.specs.TreeMessage.{message_of};
ghost use Rattle.stow_tree_model.specs.Order.{MessagesRise};
ghost use Rattle.stow_message.specs.Packed.{IsMessage};
ghost use Rattle.stow_message.specs.Rising.{is_below, below, message_before};
ghost use Rattle.std.specs.List.{All};

use crate::below::Below;
use crate::beside::look;
use crate::guessing::{guess, newest_place};
use crate::message_buf::MessageBuf;
use crate::place::Place;
use crate::slots::{search_between, search_from};
use std::alloc::Allocator;
use std::cmp::Ordering;
use stow_tree_model::message::Message;
use stow_tree_model::stow_bytes::compare::compare;
use stow_tree_model::tenant_key::TenantKey;

/// Whether the message stands below the key and number.
fn is_message_below(message: Message<'_>, key: &[u8], number: u64) -> bool
    ensures { result ≡ is_below (key.now, number) (message_of message.entry) }
{
    match compare(message.key.bytes, key) {
        Ordering::Less => true,
        Ordering::Equal => message.number < number,
        Ordering::Greater => false,
    }
}

impl<A: Allocator> MessageBuf<A> {
    /// How many messages stand below the key and number.
    #[inline(always)]
    pub(crate) fn search(&self, key: &[u8], number: u64) -> usize
        ensures count { result ≡ below (key.now, number) self.now.messages }
        ensures rising { MessagesRise self.now.messages }
        ensures valid { All IsMessage self.now.messages }
        ensures small { length self.now.messages < 4294967296 }
    {
        self.seek(key, number).count
    }

    /// The messages that stand below the key and number.
    #[inline(always)]
    fn seek(&self, key: &[u8], number: u64) -> Below<'_>
        ensures count { result.count ≡ below (key.now, number) self.now.messages }
        ensures last { option_map message_of result.last
            ≡ message_before result.count self.now.messages }
        ensures rising { MessagesRise self.now.messages }
        ensures valid { All IsMessage self.now.messages }
        ensures small { length self.now.messages < 4294967296 }
    {
        let _known = self.len();
        if self.raw.young_count() == 0 && !self.words.serve(&self.raw) {
            return self.front(self.search_all(key, number));
        }
        if self.words.serve(&self.raw) {
            let newest = newest_place(&self.raw, &self.words, key);
            if let Some(found) = look(&self.raw, newest, key, number) {
                return found;
            }
        }
        let guess = guess(&self.raw, &self.words, key, number);
        match look(&self.raw, guess, key, number) {
            Some(found) => found,
            None => self.front(self.search_all(key, number)),
        }
    }

    /// How many messages stand below the key and number, by a search among all.
    fn search_all(&self, key: &[u8], number: u64) -> usize
        ensures count { result ≡ below (key.now, number) self.now.messages }
        ensures rising { MessagesRise self.now.messages }
        ensures valid { All IsMessage self.now.messages }
        ensures small { length self.now.messages < 4294967296 }
    {
        search_between(&self.raw, 0, self.len(), key, number)
    }

    /// So many messages at the front.
    #[inline(always)]
    fn front(&self, count: usize) -> Below<'_>
        requires { count ≤ length self.now.messages }
        ensures count { result.count ≡ count }
        ensures last { option_map message_of result.last ≡ message_before count self.now.messages }
    {
        let last = if count == 0 {
            None
        } else {
            Some(self.message(count - 1))
        };
        Below {
            count,
            last,
            young: self.raw.rank(count),
        }
    }

    /// Whether so many messages at least stand below the key and number, and one at least.
    fn is_past(&self, count: usize, key: &[u8], number: u64) -> bool
        ensures below { IsTrue result → count ≤ below (key.now, number) self.now.messages }
        ensures within { IsTrue result → count ≤ length self.now.messages }
    {
        if count == 0 || count > self.len() {
            return false;
        }
        is_message_below(self.message(count - 1), key, number)
    }

    /// The first index from `from` on whose message doesn't stand below the key and number, in steps that double.
    pub(crate) fn search_from(&self, from: usize, key: &[u8], number: u64) -> usize
        requires { from ≤ length self.now.messages }
        ensures { result ≡ max (below (key.now, number) self.now.messages) from }
    {
        search_from(&self.raw, from, key, number)
    }

    /// How many messages stand below the key and number. The search is the shorter the nearer the guess is.
    #[inline(always)]
    pub fn count_below(&self, key: TenantKey<'_>, number: u64, guess: usize) -> usize
        ensures count { result ≡ below (key.entry.bytes.now, number) self.now.messages }
        ensures rising { MessagesRise self.now.messages }
        ensures valid { All IsMessage self.now.messages }
    {
        self.below(key, number, self.near(guess)).count
    }

    /// The place behind so many messages, if there are so many.
    #[inline(always)]
    pub fn near(&self, count: usize) -> Place {
        if count > self.raw.slot_count() {
            return Place::none();
        }
        Place {
            count,
            young: self.raw.rank(count),
        }
    }

    /// The messages that stand below the key and number. The search is the shorter the nearer the guess is to the place behind them.
    #[inline(always)]
    pub fn below(&self, key: TenantKey<'_>, number: u64, guess: Place) -> Below<'_>
        ensures count { result.count ≡ below (key.entry.bytes.now, number) self.now.messages }
        ensures last { option_map message_of result.last
            ≡ message_before result.count self.now.messages }
        ensures rising { MessagesRise self.now.messages }
        ensures valid { All IsMessage self.now.messages }
    {
        if guess.count > self.len() {
            return self.seek(key.bytes, number);
        }
        if let Some(found) = look(&self.raw, guess, key.bytes, number) {
            return found;
        }
        if self.is_past(guess.count, key.bytes, number) {
            self.front(self.search_from(guess.count, key.bytes, number))
        } else {
            self.seek(key.bytes, number)
        }
    }
}
