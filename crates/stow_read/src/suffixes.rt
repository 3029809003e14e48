//! What the appends on the way down add to a value further below.
ghost use Rattle.std.specs.Prelude.{◌≡◌, ◌+◌, ◌^◌, ◌<◌, ◌++◌, [], ◌∷◌, ℕ, List, IfOk, OnOk, length, map, sum_by};
ghost use Rattle.std.specs.Option.{option_map};
ghost use Rattle.stow_tree_model.specs.Messages.{ops_in};
ghost use Rattle.stow_tree_model.specs.Operations.{bytes_or_none, value_in};
ghost use Rattle.stow_tree_model.specs.Value.{IsValue};
ghost use Rattle.stow_read.specs.Suffixes.{suffixes_of, with_suffix, continued, extended, Carries, bytes_lent};
ghost use Rattle.stow_read.specs.Found.{found_value, lent_of};
ghost use Rattle.stow_read.specs.Walk.{head_of};

use crate::found::Found;
use crate::lent_value::LentValue;
use crate::up_to::{from_last, front_up_to, place_behind};
use crate::value_head::ValueHead;
use std::alloc::{AllocError, Allocator};
use stow_bytes::byte_string::ByteString;
use stow_node::stow_message::message_buf::MessageBuf;
use stow_node::stow_message::place::Place;
use stow_tree_model::numbered_value::NumberedValue;
use stow_tree_model::op::Op;
use stow_tree_model::tenant_key::TenantKey;

/// What the appends that were met add to the value below them, the newest first.
#[derive(Drop)]
pub(crate) struct Suffixes<'a, A: Allocator> {
    /// The newest append's number.
    pub(crate) number: u64,
    pub(crate) suffixes: Vec<&'a [u8], A>,
    /// Where the key's next message may come to stand in the buffer that was searched first, if one was.
    pub(crate) place: Option<Place>,
}

/// What a key's messages in one buffer come to.
#[derive(Clone, Copy)]
pub(crate) enum Look<'a> {
    /// They are appends at most.
    Deeper,
    /// This is what the key has below the suffixes.
    Base(Option<LentValue<'a>>),
}

impl<'a, A: Allocator + Copy> Suffixes<'a, A> {
    /// No suffixes.
    pub(crate) fn new(alloc: A) -> Suffixes<'a, A>
        ensures { suffixes_of result ≡ (0, []) }
    {
        Suffixes {
            number: 0,
            suffixes: Vec::new(alloc),
            place: None,
        }
    }

    /// Keeps where the first search ended.
    fn keep_place(&mut self, place: Place)
        ensures { suffixes_of self.new ≡ suffixes_of self.old }
    {
        if self.place.is_none() {
            self.place = Some(place);
        }
    }

    /// Puts the suffix of an older append behind them.
    fn add(&mut self, number: u64, suffix: &'a [u8]) -> Result<(), AllocError>
        ensures { OnOk result (suffixes_of self.new
            ≡ with_suffix number suffix.now (suffixes_of self.old)) }
    {
        if self.suffixes.is_empty() {
            self.number = number;
        }
        self.suffixes.push(suffix)?;
        Ok(())
    }

    /// Goes over the key's messages numbered at most `at`, from the newest on, up to the first one that is no append.
    /// They are found the faster the nearer the guess is.
    #[inline(always)]
    pub(crate) fn look(
        &mut self,
        buffer: &'a MessageBuf<A>,
        key: TenantKey<'_>,
        at: u64,
        guess: Place,
    ) -> Result<Look<'a>, AllocError>
        ensures { IfOk result (λ look. Carries (ops_in buffer.now.messages key.entry.bytes.now) at
            (suffixes_of self.old) (suffixes_of self.new) look) }
    {
        let _known = buffer.len();
        let front = front_up_to(buffer, key, at, guess);
        self.keep_place(place_behind(&front));
        for i in 0..front.count {
            let message = from_last(buffer, front, i);
            if !message.key.is_same(key) {
                return Ok(Look::Deeper);
            }
            let number = message.number;
            match message.op {
                Op::Put(value) => return Ok(Look::Base(Some(LentValue { number, value }))),
                Op::Gone => return Ok(Look::Base(None)),
                Op::Append(suffix) => self.add(number, suffix)?,
            }
        }
        Ok(Look::Deeper)
    }

    /// How many bytes the suffixes have, where a number of bytes can tell.
    fn size(&self) -> usize
        ensures { sum_by length (bytes_lent self.now.suffixes.items) < 2 ^ 64
            → result ≡ sum_by length (bytes_lent self.now.suffixes.items) }
    {
        let mut size: usize = 0;
        for i in 0..self.suffixes.len() {
            size = size.saturating_add(self.suffixes[i].len());
        }
        size
    }

    /// The bytes of a base, and then the suffixes, the oldest first, copied once.
    fn folded(&self, alloc: A, base: &[u8]) -> Result<ByteString<A>, AllocError>
        ensures { IfOk result (λ value. value ≡ bytes_or_none
            (extended (Some base.now) (bytes_lent self.now.suffixes.items))) }
    {
        let mut bytes = Vec::with_capacity(alloc, base.len().saturating_add(self.size()))?;
        bytes.extend_from_slice(base)?;
        let count = self.suffixes.len();
        for i in 0..count {
            bytes.extend_from_slice(self.suffixes[count - 1 - i])?;
        }
        Ok(ByteString::from_vec(bytes))
    }

    /// What the key has, given what it has below the suffixes.
    #[inline(always)]
    pub(crate) fn on(
        &self,
        alloc: A,
        base: Option<LentValue<'a>>,
    ) -> Result<Option<Found<'a, A>>, AllocError>
        ensures { IfOk result (λ found. option_map found_value found
            ≡ continued (suffixes_of self.now) (option_map lent_of base.entry)) }
    {
        if self.suffixes.is_empty() {
            return Ok(match base {
                None => None,
                Some(lent) => Some(Found::Lent(lent)),
            });
        }
        let below: &[u8] = match base {
            None => &[],
            Some(lent) => lent.value,
        };
        let number = self.number;
        let value = self.folded(alloc, below)?;
        Ok(Some(Found::Folded(NumberedValue { number, value })))
    }

    /// What is told of the value that the key has, given what it has below the suffixes.
    pub(crate) fn head_on(&self, base: Option<LentValue<'_>>) -> Option<ValueHead>
        requires { IsValue (value_in (continued (suffixes_of self.now) (option_map lent_of base))) }
        ensures { result ≡ option_map head_of
            (continued (suffixes_of self.now) (option_map lent_of base.entry)) }
    {
        if self.suffixes.is_empty() {
            let lent = base?;
            return Some(ValueHead {
                number: lent.number,
                length: lent.value.len() as u32,
            });
        }
        let below = match base {
            None => 0,
            Some(lent) => lent.value.len(),
        };
        Some(ValueHead {
            number: self.number,
            length: (below + self.size()) as u32,
        })
    }
}
