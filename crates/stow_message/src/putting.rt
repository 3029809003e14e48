//! Messages that come to a buffer.
ghost use Rattle.std.specs.Prelude.{◌≡◌, ◌+◌, ◌-◌, ◌*◌, ◌<◌, ◌≤◌, ◌==◌, ◌++◌, length, IsTrue, ◌↔◌, false};
ghost use Rattle.std.specs.Ordering.{is_eq};
ghost use Rattle.stow_tree_model.specs.TreeMessage.{message_of};
ghost use Rattle.stow_tree_model.specs.Order.{place_cmp, place_of, MessagesRise};
ghost use Rattle.stow_slots.specs.StowRaw.RawBuf.{raw_lists, RawFits};
ghost use Rattle.stow_message.specs.MessageBuf.{message_list, Fits, with_message, with_messages, without_range};
ghost use Rattle.stow_message.specs.Packed.{message_bytes, message_size, IsMessage, all_bytes};
ghost use Rattle.stow_message.specs.Rising.{below, IsNew, in_range, all_placed, AreNew};
ghost use Rattle.std.specs.List.{All, sum_by};

use crate::head::{SLOT, size, write_head};
use crate::marking::mark_run;
use crate::message_buf::MessageBuf;
use crate::place::Place;
use crate::run::Run;
use crate::slots::search_from;
use std::alloc::Allocator;
use std::cmp::Ordering;
use stow_slots::slot_buf::SlotBuf;
use stow_tree_model::message::Message;
use stow_tree_model::stow_bytes::compare::compare;
use stow_tree_model::tenant_key::TenantKey;

/// The bytes of a short message, its slot among them.
const SHORT: usize = 32;

/// Whether the message stands at the key and number.
fn is_message_at(message: Message<'_>, key: &[u8], number: u64) -> bool
    ensures { result ≡ is_eq (place_cmp (place_of (message_of message.entry)) (key.now, number)) }
{
    match compare(message.key.bytes, key) {
        Ordering::Equal => message.number == number,
        _ => false,
    }
}

/// Packs the message after the bytes at the front.
fn append<A: Allocator>(raw: &mut SlotBuf<A>, message: Message<'_>)
    requires { RawFits raw.old (length (message_bytes (message_of message))) }
    ensures { raw.new
        ≡ raw_lists (raw.old.front
        ++ message_bytes (message_of message.entry)) raw.old.slots raw.old.capacity }
{
    raw.push_front(&write_head(message));
    raw.push_front(message.key.bytes);
    raw.push_front(message.op.carried());
}

/// Copies the packed messages of a run behind the bytes at the front.
fn append_all<A: Allocator, B: Allocator>(raw: &mut SlotBuf<A>, run: &Run<'_, B>)
    requires { RawFits raw.old (length (all_bytes run.now)) }
    ensures { raw.new
        ≡ raw_lists (raw.old.front ++ all_bytes run.now) raw.old.slots raw.old.capacity }
{
    for i in 0..run.len() {
        raw.push_front(run.packed(i));
    }
}

impl<A: Allocator> MessageBuf<A> {
    /// The same where the next message that is put would do it.
    fn settle_ripe(&mut self)
        ensures { self.new ≡ self.old }
    {
        if self.raw.is_ripe() {
            self.settle();
        }
    }

    /// Sees that the words of keys serve where so many bytes of messages more come, which may be short ones: then more room is asked for,
    /// and nothing is lost where it is refused.
    #[inline(always)]
    pub fn widen(&mut self, bytes: usize)
        ensures { self.new ≡ self.old }
    {
        let young = self.raw.young_most();
        let count = self
            .raw
            .slot_count()
            .saturating_add(young)
            .saturating_add(bytes / SHORT);
        if count > self.words.room() && self.live > 0 {
            self.widen_words();
        }
    }

    /// Gets room for words of as many messages as the block has room for, if the others are as long as these.
    #[inline(never)]
    fn widen_words(&mut self)
        ensures { self.new ≡ self.old }
    {
        let each = self.live / self.raw.slot_count().max(1);
        self.words
            .widen(&self.raw, self.raw.capacity() / each.max(SHORT));
    }

    /// Sees that there is room for words of so many messages more, where memory isn't refused.
    fn widen_by(&mut self, count: usize)
        ensures { self.new ≡ self.old }
    {
        let most = self.raw.slot_count().saturating_add(count);
        if self.raw.young_most() > 0 && most > self.words.room() {
            self.words.widen(&self.raw, most);
        }
    }

    /// Whether there is room for the message, its slot among it.
    pub fn fits(&self, message: Message<'_>) -> bool
        ensures { IsTrue result ↔ Fits self.now (message_of message.entry) }
    {
        size(message) <= self.raw.room()
    }

    /// Whether no message of this one's key and number is held.
    pub fn is_new(&self, message: Message<'_>) -> bool
        ensures { IsTrue result ↔ IsNew (message_of message.entry) self.now.messages }
    {
        let index = self.search(message.key.bytes, message.number);
        if index == self.len() {
            return true;
        }
        !is_message_at(self.message(index), message.key.bytes, message.number)
    }

    /// Whether no message of the run has the key and number of one that is held.
    pub fn are_new<B: Allocator>(&self, run: &Run<'_, B>) -> bool
        ensures { IsTrue result ↔ AreNew run.now self.now.messages }
    {
        for i in 0..run.len() {
            if !self.is_new(run.get(i)) {
                return false;
            }
        }
        true
    }

    /// Puts a message to its place.
    pub fn push(&mut self, message: Message<'_>)
        requires { Fits self.old (message_of message)
            × IsNew (message_of message) self.old.messages }
        ensures { self.new ≡ with_message (message_of message.entry) self.old }
    {
        self.push_near(message, Place::none());
    }

    /// The same; the search is the shorter the nearer the guess is to that place.
    #[inline(never)]
    pub fn push_near(&mut self, message: Message<'_>, guess: Place)
        requires { Fits self.old (message_of message)
            × IsNew (message_of message) self.old.messages }
        ensures { self.new ≡ with_message (message_of message.entry) self.old }
    {
        self.settle_ripe();
        self.put(message, guess);
    }

    /// The same, where no slot is to come to the others by it.
    #[inline(always)]
    fn put(&mut self, message: Message<'_>, guess: Place)
        requires { Fits self.old (message_of message)
            × IsNew (message_of message) self.old.messages }
        ensures { self.new ≡ with_message (message_of message.entry) self.old }
    {
        let place = self.below(message.key, message.number, guess).place();
        let at = self.raw.front_len() as u32;
        append(&mut self.raw, message);
        self.raw.insert_slot_near(place.count, place.young, at);
        self.filter.add(message.key.bytes);
        self.live += size(message);
        self.largest = self.largest.max(size(message));
    }

    /// Puts a message below which none stands before the others. No slot is moved.
    pub fn push_first(&mut self, message: Message<'_>)
        requires new { Fits self.old (message_of message)
            × IsNew (message_of message) self.old.messages }
        requires first { below (place_of (message_of message)) self.old.messages ≡ 0 }
        ensures { self.new ≡ with_message (message_of message.entry) self.old }
    {
        let _known = self.len();
        let key = message.key.bytes;
        let at = self.raw.front_len() as u32;
        append(&mut self.raw, message);
        self.raw.add_slots(1);
        self.raw.set_slot(0, at);
        self.filter.add(key);
        self.words.clear();
        self.live += size(message);
        self.largest = self.largest.max(size(message));
    }

    /// Puts the messages of a run to their places. Each is searched from the place of the one before on, and the slots between are
    /// moved unread.
    pub(crate) fn push_all<B: Allocator>(&mut self, run: &Run<'_, B>)
        requires room { self.old.used + sum_by message_size run.now ≤ self.old.capacity }
        requires valid { All IsMessage run.now }
        requires rising { MessagesRise run.now }
        requires new { AreNew run.now self.old.messages }
        ensures { self.new ≡ message_list (all_placed run.now self.old.messages)
            (self.old.used + sum_by message_size run.now) self.old.capacity }
    {
        mark_run(&mut self.filter, run);
        self.words.admit(&self.raw, run);
        let mut at = self.raw.front_len();
        append_all(&mut self.raw, run);
        let count = run.len();
        let bytes = self.raw.front_len() - at + SLOT * count;
        self.raw.add_slots(count);
        let mut old = count;
        for new in 0..count {
            let message = run.get(new);
            let end = search_from(&self.raw, old, message.key.bytes, message.number);
            let gap = count - new;
            self.raw.move_slots(old - gap, old, end - old);
            self.raw.set_slot(end - gap, at as u32);
            self.words.move_down(old - gap, old, end - old);
            self.words.put(end - gap, message.key.bytes);
            at += size(message) - SLOT;
            old = end;
        }
        self.live += bytes;
        self.largest = self.largest.max(run.largest());
    }

    /// Moves the messages of the keys from `from` on and below `to` into another buffer. Their bytes here are dead. Room for words of them is
    /// asked for there: an empty buffer doesn't tell how long its messages will be.
    pub fn move_range(&mut self, from: TenantKey<'_>, to: TenantKey<'_>, into: &mut MessageBuf<A>)
        requires room { into.old.used + sum_by message_size
            (in_range from.bytes.now to.bytes.now self.old.messages) ≤ into.old.capacity }
        requires new { AreNew
            (in_range from.bytes.now to.bytes.now self.old.messages) into.old.messages }
        ensures rest { self.new ≡ without_range from.entry.bytes.now to.entry.bytes.now self.old }
        ensures moved { into.new ≡ with_messages
            (in_range from.entry.bytes.now to.entry.bytes.now self.old.messages) into.old }
    {
        let low = self.search(from.bytes, 0);
        let high = self.search_from(low, to.bytes, 0);
        into.widen_by(high - low);
        into.push_all(&Run {
            buf: self,
            from: low,
            to: high,
        });
        self.remove(low, high - low);
    }
}
