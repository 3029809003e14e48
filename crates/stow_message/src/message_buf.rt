//! A buffer of packed messages.
ghost use Rattle.std.specs.Prelude.{◌≡◌, ◌+◌, ◌-◌, ◌^◌, ◌<◌, ◌≤◌, [], length, take, drop, reverse, slice_get, slice_index_or, IfOk, IfSome, IsSome, None, Some, false};
ghost use Rattle.stow_tree_model.specs.TreeMessage.{TreeMessage, message_of};
ghost use Rattle.stow_tree_model.specs.Order.{MessagesRise};
ghost use Rattle.stow_message.specs.MessageBuf.{message_list, messages_in, AreNoLarger};
ghost use Rattle.stow_message.specs.Packed.{message_bytes, message_size, message_at, IsMessage, BeginsWith};
ghost use Rattle.stow_message.specs.Rising.{below, of_key, in_range};
ghost use Rattle.std.specs.List.{All, sum_by};

use crate::head::{HEAD, SLOT, kind, op_with, read_head};
use crate::key_words::KeyWords;
use crate::newest::Newest;
use crate::place::Place;
use crate::run::Run;
use crate::slots::search_from;
use std::alloc::{AllocError, Allocator, Global};
use std::marker::Model;
use stow_filter::filter::Filter;
use stow_slots::slot_buf::SlotBuf;
use stow_slots::stow_raw::raw_buf::RawBuf;
use stow_tree_model::message::Message;
use stow_tree_model::tenant_key::TenantKey;

/// Messages in one block, in the order of their keys and numbers, with a filter by which most look-ups of a key that has
/// none are short.
#[derive(Drop)]
pub struct MessageBuf<A: Allocator = Global> {
    pub(crate) raw: SlotBuf<A>,
    pub(crate) filter: Filter<A>,
    pub(crate) words: KeyWords<A>,
    /// How many bytes the messages take, their slots among them.
    pub(crate) live: usize,
    /// How many bytes each of them takes at most, its slot among them.
    pub(crate) largest: usize,
}

impl<A: Allocator> Model for MessageBuf<A> {
    ghost use Rattle.stow_slots.specs.StowRaw.RawBuf.{raw_used};
    ghost use Rattle.stow_message.specs.MessageBuf.{MessageList, message_list, message_list_code, messages_in, IsMarked};

    ghost Value = { MessageList };

    ghost coded = { message_list_code };

    ghost view = { λ b. message_list (messages_in b.raw) (raw_used b.raw) b.raw.capacity };

    ghost invariant = { λ b. IsMarked b.raw b.filter b.live b.largest };
}

/// The message that begins `at` bytes into the front.
pub(crate) fn read_message<A: Allocator>(raw: &SlotBuf<A>, at: usize) -> Message<'_>
    requires begins { BeginsWith (drop at raw.now.front) }
    requires small { length raw.now.front < 2 ^ 32 }
    ensures { message_of result ≡ message_at (drop at raw.now.front) }
{
    let head = read_head(raw.bytes(at, HEAD));
    let key = raw.bytes(at + HEAD, head.key_len);
    let value = raw.bytes(at + HEAD + head.key_len, head.value_len);
    Message {
        key: TenantKey::from_packed(key),
        number: head.number,
        op: op_with(head.kind, value),
    }
}

/// The bytes of the packed message that begins `at` bytes into the front.
pub(crate) fn packed_at<A: Allocator>(raw: &SlotBuf<A>, at: usize) -> &[u8]
    requires begins { BeginsWith (drop at raw.now.front) }
    requires small { length raw.now.front < 2 ^ 32 }
    ensures { result.now ≡ message_bytes (message_at (drop at raw.now.front)) }
{
    let head = read_head(raw.bytes(at, HEAD));
    raw.bytes(at, HEAD + head.key_len + head.value_len)
}

/// How many bytes the messages of a run take, their slots among them: each is looked at.
fn sum_of<A: Allocator>(run: &Run<'_, A>) -> usize
    requires { length run.now < 4294967296 }
    ensures { result ≡ sum_by message_size run.now }
{
    let _known = run.buf.used();
    let mut total = 0;
    for i in 0..run.len() {
        total += run.packed(i).len() + SLOT;
    }
    total
}

/// How many bytes the messages of a run take, their slots among them: each is looked at, or each of the others where those are
/// fewer.
pub(crate) fn bytes_in<A: Allocator>(run: &Run<'_, A>) -> usize
    ensures { result ≡ sum_by message_size run.now }
{
    let (buf, count) = (run.buf, run.buf.len());
    if run.len() <= count / 2 {
        return sum_of(run);
    }
    let (from, to) = (run.from, run.to);
    let before = sum_of(&Run {
        buf,
        from: 0,
        to: from,
    });
    let after = sum_of(&Run {
        buf,
        from: to,
        to: count,
    });
    buf.live() - before - after
}

impl<A: Allocator + Copy> MessageBuf<A> {
    /// A buffer of `capacity` bytes with no message. A capacity of 0 asks for no memory.
    pub fn with_capacity(alloc: A, capacity: usize) -> Result<Self, AllocError>
        requires { capacity < 4294967296 }
        ensures { IfOk result (λ b. b ≡ message_list [] 0 capacity) }
    {
        let raw = SlotBuf::with_capacity(alloc, capacity)?;
        let filter = Filter::with_capacity(alloc, capacity)?;
        let words = KeyWords::for_block(alloc, &raw)?;
        Ok(MessageBuf {
            raw,
            filter,
            words,
            live: 0,
            largest: 0,
        })
    }
}

impl<A: Allocator> MessageBuf<A> {
    /// How many bytes the block has.
    pub fn capacity(&self) -> usize
        ensures { result ≡ self.now.capacity }
    {
        self.raw.capacity()
    }

    /// How many bytes are in use, dead ones among them.
    pub fn used(&self) -> usize
        ensures used { result ≡ self.now.used }
        ensures within { result ≤ self.now.capacity }
        ensures live { sum_by message_size self.now.messages ≤ result }
    {
        self.raw.capacity() - self.raw.room()
    }

    /// How many bytes the messages take, their slots among them: as many as are in use where none are dead.
    pub fn live(&self) -> usize
        ensures { result ≡ sum_by message_size self.now.messages }
    {
        self.live
    }

    /// How many bytes each message takes at most, its slot among them.
    pub(crate) fn largest(&self) -> usize
        ensures { AreNoLarger result self.now.messages }
    {
        self.largest
    }

    /// Orders what was put last among the others, so that reads of many are fast. No message moves.
    pub fn settle(&mut self)
        ensures { self.new ≡ self.old }
    {
        self.words.settle(&self.raw);
        self.raw.settle();
    }

    /// How many messages there are.
    pub fn len(&self) -> usize
        ensures len { result ≡ length self.now.messages }
        ensures rising { MessagesRise self.now.messages }
        ensures valid { All IsMessage self.now.messages }
        ensures small { result < 4294967296 }
    {
        self.raw.slot_count()
    }

    /// The message at `index`, lent out of the block.
    #[inline(always)]
    pub fn message(&self, index: usize) -> Message<'_>
        requires { index < length self.now.messages }
        ensures { message_of result ≡ slice_index_or self.now.messages index (message_of result) }
    {
        read_message(&self.raw, self.raw.slot(index) as usize)
    }

    /// The last two messages before a place, lent out of the block, where they are there. They are found the faster where the last one has
    /// a young slot.
    #[inline(always)]
    pub fn last_two(&self, place: Place) -> Option<(Message<'_>, Message<'_>)>
        ensures two { IfSome result (λ two. (2 ≤ place.count)
            × (slice_get self.now.messages (place.count - 2) ≡ Some (message_of two.0))
            × (slice_get self.now.messages (place.count - 1) ≡ Some (message_of two.1))) }
        ensures there { 2 ≤ place.count → place.count ≤ length self.now.messages
            → IsSome result }
    {
        if place.count < 2 || place.count > self.len() {
            return None;
        }
        let beside = self
            .raw
            .around(place.count - 1, place.young.saturating_sub(1));
        let Some(first) = beside.0 else {
            return None;
        };
        let Some(second) = beside.1 else {
            return None;
        };
        Some((
            read_message(&self.raw, first as usize),
            read_message(&self.raw, second as usize),
        ))
    }

    /// The bytes of the packed message at `index`, lent.
    pub(crate) fn packed(&self, index: usize) -> &[u8]
        requires { index < length self.now.messages }
        ensures { (none : TreeMessage)
            → result.now ≡ message_bytes (slice_index_or self.now.messages index none) }
    {
        packed_at(&self.raw, self.raw.slot(index) as usize)
    }

    /// Whether messages of the key may be held. The answer takes no search.
    #[inline(always)]
    pub fn may_have(&self, key: TenantKey<'_>) -> bool
        ensures { result ≡ false → of_key key.entry.bytes.now self.now.messages ≡ [] }
    {
        self.filter.may_have(key.bytes)
    }

    /// No messages.
    fn none(&self) -> Newest<'_, A>
        ensures { result ≡ [] }
    {
        Newest {
            run: Run {
                buf: self,
                from: 0,
                to: 0,
            },
        }
    }

    /// The messages of a key, the newest first, lent.
    pub fn of_key(&self, key: TenantKey<'_>) -> Newest<'_, A>
        ensures { result ≡ reverse (of_key key.entry.bytes.now self.now.messages) }
    {
        if !self.may_have(key) {
            return self.none();
        }
        let _known = self.len();
        let from = self.search(key.bytes, 0);
        let to = self.search_from(from, key.bytes, u64::MAX);
        Newest {
            run: Run {
                buf: self,
                from,
                to,
            },
        }
    }

    /// The messages of the keys from `from` on and below `to`, in their order, lent.
    pub fn in_range(&self, from: TenantKey<'_>, to: TenantKey<'_>) -> Run<'_, A>
        ensures messages { result
            ≡ in_range from.entry.bytes.now to.entry.bytes.now self.now.messages }
        ensures small { length result < 4294967296 }
    {
        let low = self.search(from.bytes, 0);
        Run {
            buf: self,
            from: low,
            to: self.search_from(low, to.bytes, 0),
        }
    }

    /// How many bytes the messages of the keys from `from` on and below `to` take, their slots among them.
    pub fn range_bytes(&self, from: TenantKey<'_>, to: TenantKey<'_>) -> usize
        ensures { result
            ≡ sum_by message_size
            (in_range from.entry.bytes.now to.entry.bytes.now self.now.messages) }
    {
        bytes_in(&self.in_range(from, to))
    }

    /// The same, if it is more than so many: no message is looked at where their count tells that it isn't.
    pub fn range_bytes_above(
        &self,
        from: TenantKey<'_>,
        to: TenantKey<'_>,
        bytes: usize,
    ) -> Option<usize>
        ensures more { IfSome result (λ found. (bytes < found) × (found ≡ sum_by message_size
            (in_range from.entry.bytes.now to.entry.bytes.now self.now.messages))) }
        ensures none { result ≡ None → sum_by message_size
            (in_range from.entry.bytes.now to.entry.bytes.now self.now.messages) ≤ bytes }
    {
        let run = self.in_range(from, to);
        if run.most_bytes() <= bytes {
            return None;
        }
        let found = bytes_in(&run);
        if found > bytes { Some(found) } else { None }
    }
}
