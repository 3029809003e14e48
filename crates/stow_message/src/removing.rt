//! Messages that leave a buffer, and dead bytes that are dropped.
ghost use Rattle.std.specs.Prelude.{◌≡◌, ◌+◌, ◌-◌, ◌*◌, ◌<◌, ◌≤◌, [], length, IsTrue, Some, false};
ghost use Rattle.stow_slots.specs.StowRaw.RawBuf.{raw_lists};
ghost use Rattle.stow_message.specs.Filter.{Covers};
ghost use Rattle.stow_message.specs.MessageBuf.{message_list, messages_in, IsPackedBuffer, without_range};
ghost use Rattle.stow_message.specs.Packed.{message_size};
ghost use Rattle.stow_message.specs.Rising.{below};
ghost use Rattle.std.specs.List.{sum_by, remove_range};

use crate::guessing::guess;
use crate::head::SLOT;
use crate::message_buf::{MessageBuf, bytes_in, packed_at, read_message};
use crate::place::Place;
use crate::run::Run;
use crate::slots::search_from;
use std::alloc::Allocator;
use stow_filter::filter::Filter;
use stow_slots::slot_buf::SlotBuf;
use stow_slots::stow_raw::raw_buf::RawBuf;
use stow_tree_model::tenant_key::TenantKey;

/// Brings the front of a spare block in the place of the block's own. Where the two have as many bytes they change places, so
/// that nothing but the slots is copied.
fn bring_front<A: Allocator>(raw: &mut SlotBuf<A>, spare: &mut RawBuf<A>)
    requires { length spare.old.front + 4 * length raw.old.slots ≤ raw.old.capacity }
    ensures brought { raw.new ≡ raw_lists spare.old.front raw.old.slots raw.old.capacity }
    ensures spare { spare.new.capacity ≡ spare.old.capacity }
{
    if spare.capacity() == raw.capacity() {
        raw.exchange(spare);
    } else {
        raw.clear_front();
        raw.push_front(spare.bytes(0, spare.front_len()));
    }
}

/// Adds the key of each message to the filter.
fn mark_all<A: Allocator>(raw: &SlotBuf<A>, filter: &mut Filter<A>)
    requires filled { IsPackedBuffer raw.now }
    ensures { Covers filter.new (messages_in raw.now) }
{
    for i in 0..raw.slot_count() {
        let message = read_message(raw, raw.slot(i) as usize);
        filter.add(message.key.bytes);
    }
}

/// Drops the marks of keys that left, where they may be many.
fn renew_marks<A: Allocator>(raw: &SlotBuf<A>, filter: &mut Filter<A>)
    requires filled { IsPackedBuffer raw.now }
    requires covers { Covers filter.old (messages_in raw.now) }
    ensures { Covers filter.new (messages_in raw.now) }
{
    if filter.is_stale(raw.slot_count()) {
        filter.clear();
        mark_all(raw, filter);
    }
}

impl<A: Allocator> MessageBuf<A> {
    /// Lets the `count` messages from `index` on go: their bytes are dead.
    pub(crate) fn remove(&mut self, index: usize, count: usize)
        requires { index + count ≤ length self.old.messages }
        ensures { self.new
            ≡ message_list (remove_range self.old.messages index (index + count))
            (self.old.used - 4 * count) self.old.capacity }
    {
        self.settle();
        self.remove_ordered(index, count);
    }

    /// The same, where none of their slots is to be young.
    fn remove_ordered(&mut self, index: usize, count: usize)
        requires { index + count ≤ length self.old.messages }
        ensures { self.new
            ≡ message_list (remove_range self.old.messages index (index + count))
            (self.old.used - 4 * count) self.old.capacity }
    {
        let _known = self.len();
        let gone = bytes_in(&Run {
            buf: self,
            from: index,
            to: index + count,
        });
        self.raw.remove_slots(index, count);
        self.words.remove(index, count);
        self.live -= gone;
    }

    /// Lets the message at a place go if its slot is a young one, so that no other is moved. Its bytes are dead.
    #[inline(always)]
    pub fn remove_young(&mut self, place: Place) -> bool
        ensures gone { IsTrue result → self.new
            ≡ message_list (remove_range self.old.messages place.count (place.count + 1))
            (self.old.used - 4) self.old.capacity }
        ensures none { result ≡ false → self.new ≡ self.old }
    {
        let Some(slot) = self.raw.remove_young(place.count, place.young) else {
            return false;
        };
        self.live -= packed_at(&self.raw, slot as usize).len() + SLOT;
        true
    }

    /// Lets the messages of the keys from `from` on and below `to` go: their bytes are dead.
    pub fn drop_range(&mut self, from: TenantKey<'_>, to: TenantKey<'_>)
        ensures { self.new ≡ without_range from.entry.bytes.now to.entry.bytes.now self.old }
    {
        let low = self.search(from.bytes, 0);
        let end = self.search_from(low, to.bytes, 0);
        self.remove(low, end - low);
    }

    /// Drops the dead bytes, with the help of a block that is at least as large. What that block held is lost: where it has as
    /// many bytes as the buffer's own, the two change places.
    pub fn squeeze(&mut self, spare: &mut RawBuf<A>)
        requires { self.old.capacity ≤ spare.old.capacity }
        ensures squeezed { self.new
            ≡ message_list self.old.messages
            (sum_by message_size self.old.messages) self.old.capacity }
        ensures spare { spare.new.capacity ≡ spare.old.capacity }
    {
        self.settle();
        self.words.mend(&self.raw);
        self.squeeze_ordered(spare);
    }

    /// The same, where no slot is to be young.
    fn squeeze_ordered(&mut self, spare: &mut RawBuf<A>)
        requires { self.old.capacity ≤ spare.old.capacity }
        ensures squeezed { self.new
            ≡ message_list self.old.messages
            (sum_by message_size self.old.messages) self.old.capacity }
        ensures spare { spare.new.capacity ≡ spare.old.capacity }
    {
        spare.reset();
        let mut largest = 0;
        for i in 0..self.raw.slot_count() {
            let at = spare.front_len() as u32;
            let message = packed_at(&self.raw, self.raw.slot(i) as usize);
            largest = (message.len() + SLOT).max(largest);
            spare.push_front(message);
            self.raw.set_slot(i, at);
        }
        self.largest = largest;
        bring_front(&mut self.raw, spare);
        renew_marks(&self.raw, &mut self.filter);
    }

    /// Drops every message.
    pub fn reset(&mut self)
        ensures { self.new ≡ message_list [] 0 self.old.capacity }
    {
        self.raw.reset();
        self.filter.clear();
        self.words.clear();
        self.live = 0;
        self.largest = 0;
    }
}
