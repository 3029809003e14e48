//! Batches of messages that a buffer holds, and that leave it together.
ghost use Rattle.std.specs.Prelude.{◌≡◌, ◌+◌, ◌-◌, ◌*◌, ◌<◌, ◌≤◌, ◌==◌, length, drop, slice_index_or, IsTrue, ◌↔◌, false};
ghost use Rattle.stow_tree_model.specs.TreeMessage.{TreeMessage, message_of};
ghost use Rattle.stow_message.specs.MessageBuf.{message_list, without_batch};
ghost use Rattle.stow_message.specs.Rising.{below, is_same, is_first, AreHeld, AreOldest, without};

use crate::head::kind;
use crate::message_buf::MessageBuf;
use crate::slots::search_from;
use std::alloc::Allocator;
use stow_tree_model::message::Message;

/// Whether the messages are one: of one key and number, with one operation.
fn is_same(a: Message<'_>, b: Message<'_>) -> bool
    ensures { result ≡ is_same (message_of a.entry) (message_of b.entry) }
{
    a.number == b.number
        && kind(a.op) == kind(b.op)
        && a.key.bytes == b.key.bytes
        && a.op.carried() == b.op.carried()
}

impl<A: Allocator> MessageBuf<A> {
    /// Whether the message at `index` is there and is this one.
    fn has_at(&self, index: usize, message: Message<'_>) -> bool
        ensures same { result ≡ is_first (message_of message.entry) (drop index self.now.messages) }
        ensures within { IsTrue result → index < length self.now.messages }
        ensures small { IsTrue result → index < 4294967296 }
    {
        if index < self.len() {
            is_same(self.message(index), message)
        } else {
            false
        }
    }

    /// Whether each message of the batch is held, its operation too.
    pub fn holds<B: Allocator>(&self, batch: &MessageBuf<B>) -> bool
        ensures { IsTrue result ↔ AreHeld batch.now.messages self.now.messages }
    {
        let mut place = 0;
        for i in 0..batch.len() {
            let message = batch.message(i);
            let at = self.count_below(message.key, message.number, place);
            if !self.has_at(at, message) {
                return false;
            }
            place = at + 1;
        }
        true
    }

    /// From which number on the message at `index` is the first of its key: past that of the one before it, where that is of the
    /// key too.
    fn first_number(&self, index: usize) -> u64
        requires { index < length self.now.messages }
        ensures first { (none : TreeMessage)
            → below ((slice_index_or self.now.messages index none).key, result) self.now.messages
            ≡ index }
        ensures within { (none : TreeMessage)
            → result ≤ (slice_index_or self.now.messages index none).number }
        ensures past { (none : TreeMessage) → 0 < result → (0 < index)
            × ((slice_index_or self.now.messages (index - 1) none).key
            ≡ (slice_index_or self.now.messages index none).key)
            × (result ≡ (slice_index_or self.now.messages (index - 1) none).number + 1) }
    {
        let _known = self.len();
        if index == 0 {
            return 0;
        }
        let before = self.message(index - 1);
        if before.key.bytes == self.message(index).key.bytes {
            before.number + 1
        } else {
            0
        }
    }

    /// Whether of each key of the batch the messages that are held up to the batch's newest are the batch's.
    pub fn holds_oldest<B: Allocator>(&self, batch: &MessageBuf<B>) -> bool
        ensures { IsTrue result ↔ AreOldest batch.now.messages self.now.messages }
    {
        let mut place = 0;
        for i in 0..batch.len() {
            let message = batch.message(i);
            let at = self.count_below(message.key, batch.first_number(i), place);
            if !self.has_at(at, message) {
                return false;
            }
            place = at + 1;
        }
        true
    }

    /// Lets the batch's messages go: their bytes are dead. Each is searched from the place of the one before on, and the slots
    /// between are moved unread.
    fn remove_all<B: Allocator>(&mut self, batch: &MessageBuf<B>)
        requires { AreHeld batch.now.messages self.old.messages }
        ensures { self.new ≡ message_list (without batch.now.messages self.old.messages)
            (self.old.used - 4 * length batch.now.messages) self.old.capacity }
    {
        let (mut kept, mut from) = (0, 0);
        for i in 0..batch.len() {
            let gone = batch.message(i);
            let at = search_from(&self.raw, from, gone.key.bytes, gone.number);
            self.raw.move_slots(kept, from, at - from);
            self.words.move_down(kept, from, at - from);
            kept += at - from;
            from = at + 1;
        }
        self.raw.remove_slots(kept, from - kept);
        self.words.remove(kept, from - kept);
        self.live -= batch.live();
    }

    /// Takes all messages of the batch out, or none where one of them is missing. Their bytes are dead.
    pub fn take_out<B: Allocator>(&mut self, batch: &MessageBuf<B>) -> bool
        ensures held { IsTrue result ↔ AreHeld batch.now.messages self.old.messages }
        ensures taken { IsTrue result → self.new ≡ without_batch batch.now.messages self.old }
        ensures unchanged { result ≡ false → self.new ≡ self.old }
    {
        if !self.holds(batch) {
            return false;
        }
        self.settle();
        self.remove_all(batch);
        true
    }
}
