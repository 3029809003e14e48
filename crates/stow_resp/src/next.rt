//! What comes next on a stream.
ghost use Rattle.std.specs.Prelude.{List, ℕ};
ghost use Rattle.stow_model.specs.Message.{message_of};
ghost use Rattle.stow_resp.specs.Next.{IsNext, IsTaken};

use std::alloc::{Allocator, Global};
use stow_model::message::Message;
use stow_model::stream_fault::StreamFault;
use stow_model::words::Words;

/// What comes next on a stream. `specs/Next.antt` says when it is which.
#[derive(Drop)]
pub enum Next<A: Allocator = Global> {
    /// The words of a message, which was taken off.
    Message(Words<A>),
    /// An inline line with a quotation mark in it, which was taken off.
    Quoted,
    /// A message with nothing to do, which was taken off.
    Blank,
    /// The unread bytes begin a message, and aren't all of it.
    More,
    /// They can become no message, whatever comes.
    Fault(StreamFault),
    /// A message stands there, and memory for its words was refused. It is still unread.
    NoMemory,
}

impl<A: Allocator> Next<A> {
    /// What comes next where the message was taken off.
    pub fn of_message(message: Message<A>) -> Next<A>
        ensures { (old new : List ℕ) → IsTaken (message_of message) old new
            → IsNext result old new }
    {
        match message {
            Message::Words(words) => Next::Message(words),
            Message::Quoted => Next::Quoted,
            Message::Blank => Next::Blank,
        }
    }
}
