//! Replies on their way to a writer.
ghost use Rattle.std.specs.Prelude.{◌≡◌, ◌≤◌, vec_len, false, [], length, drop, IsTrue, ◌<◌, OnOk, OnErr, option_map};

use crate::nonblocking_sink::NonblockingSink;
use crate::sink::Sink;
use crate::writing::write_all;
use std::alloc::{AllocError, Allocator, Global};
use stow_model::reply::Reply;
use stow_shared::stow_resp::encode::Encode;

/// More bytes than these are written at once, and more room than for these isn't kept.
const KEPT: usize = 65_536;

/// The bytes of replies that wait to be written. Once a write has failed, replies are neither spelled nor
/// written any more.
#[derive(Drop)]
pub struct Replies<A: Allocator = Global> {
    alloc: A,
    bytes: Vec<u8, A>,
    /// How many of the bytes were written.
    passed: usize,
    has_failed: bool,
    ghost within: { passed ≤ vec_len bytes },
}

impl<A: Allocator + Copy> Replies<A> {
    ghost use Rattle.stow_model.specs.Reply.{encoding, reply_of};
    ghost use Rattle.stow_workers.specs.Sent.{Written, written_of, Sends, SendsReply, StaysSent, NoneWaits, sent_of, sent_at};

    /// Nothing waits.
    pub fn new(alloc: A) -> Replies<A>
        ensures bytes { result.bytes.items ≡ [] }
        ensures passed { result.passed ≡ 0 }
        ensures failed { result.has_failed ≡ false }
    {
        Replies {
            alloc,
            bytes: Vec::new(alloc),
            passed: 0,
            has_failed: false,
        }
    }

    /// Whether a write has failed.
    pub fn has_failed(&self) -> bool
        ensures { result ≡ self.now.has_failed }
    {
        self.has_failed
    }

    /// How many bytes wait.
    pub fn waiting(&self) -> usize
        ensures { result ≡ length (drop self.now.passed self.now.bytes.items) }
    {
        self.bytes.len() - self.passed
    }

    /// How many bytes there is room for.
    pub fn room(&self) -> usize {
        self.bytes.capacity()
    }

    /// Whether more bytes wait than are to be written at once.
    pub fn is_long(&self) -> bool
        ensures same { IsTrue result → 0 < length (drop self.now.passed self.now.bytes.items) }
    {
        self.waiting() > KEPT
    }

    /// Adds a reply, if there is one. An `Err` adds nothing.
    pub fn add(&mut self, reply: &Option<Reply<A>>) -> Result<(), AllocError>
        ensures ok { (writer : Written) → OnOk result (SendsReply (option_map reply_of reply.now)
            (sent_at writer self.old) (sent_at writer self.new)) }
        ensures err { (writer : Written) → OnErr result
            (sent_at writer self.new ≡ sent_at writer self.old) }
    {
        match reply {
            Some(reply) => self.add_reply(reply),
            None => Ok(()),
        }
    }

    /// Adds a reply. An `Err` adds nothing.
    #[inline(always)]
    pub fn add_reply(&mut self, reply: &Reply<A>) -> Result<(), AllocError>
        ensures ok { (writer : Written) → OnOk result (Sends
            (sent_at writer self.old) (sent_at writer self.new) (encoding (reply_of reply.now))) }
        ensures err { (writer : Written) → OnErr result
            (sent_at writer self.new ≡ sent_at writer self.old) }
    {
        if self.has_failed {
            return Ok(());
        }
        reply.write(&mut self.bytes)
    }

    /// Writes what waits.
    pub fn flush<W: Sink>(&mut self, writer: &mut W)
        ensures sent { StaysSent (sent_of (W.contents writer.old) (W.failures writer.old) self.old)
            (sent_of (W.contents writer.new) (W.failures writer.new) self.new) }
        ensures written { NoneWaits self.new.has_failed (drop self.new.passed self.new.bytes.items) }
        ensures same_borrow { W.borrow writer.new ≡ W.borrow writer.old }
    {
        if self.has_failed {
            return;
        }
        self.has_failed = write_all(writer, &self.bytes.as_slice()[self.passed..]).is_err();
        self.clear();
    }

    /// Writes what waits, as far as the writer takes it without waiting.
    pub fn send<W: NonblockingSink>(&mut self, writer: &mut W)
        ensures sent { StaysSent
            (sent_at (written_of (W.contents writer.old) (W.failures writer.old)) self.old)
            (sent_at (written_of (W.contents writer.new) (W.failures writer.new)) self.new) }
    {
        if self.has_failed {
            return;
        }
        while self.passed < self.bytes.len() {
            if !self.write_some(writer) {
                return;
            }
        }
        self.clear();
    }

    /// Writes as much of what waits as the writer takes at once: whether it took any. Where it fails nothing waits any more.
    fn write_some<W: NonblockingSink>(&mut self, writer: &mut W) -> bool
        requires right { self.old.has_failed ≡ false }
        requires some { self.old.passed < vec_len self.old.bytes }
        ensures sent { StaysSent
            (sent_at (written_of (W.contents writer.old) (W.failures writer.old)) self.old)
            (sent_at (written_of (W.contents writer.new) (W.failures writer.new)) self.new) }
        ensures bytes { self.new.bytes ≡ self.old.bytes }
        ensures on { IsTrue result → (self.old.passed < self.new.passed)
            × (self.new.has_failed ≡ false) }
    {
        match writer.try_write(&self.bytes.as_slice()[self.passed..]) {
            Ok(Some(count)) if count > 0 => {
                self.passed += count;
                true
            }
            Ok(None) => false,
            Ok(Some(_)) | Err(_) => {
                self.has_failed = true;
                self.passed = self.bytes.len();
                false
            }
        }
    }

    /// Nothing waits any more.
    fn clear(&mut self)
        ensures bytes { self.new.bytes.items ≡ [] }
        ensures passed { self.new.passed ≡ 0 }
        ensures failed { self.new.has_failed ≡ self.old.has_failed }
    {
        self.passed = 0;
        if self.bytes.capacity() > KEPT {
            self.bytes = Vec::new(self.alloc);
        } else {
            self.bytes.clear();
        }
    }
}
