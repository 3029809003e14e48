//! Requests in, replies out: what stands between a connection's bytes and the values of `stow_model`.
//!
//! `input::Input` holds the unread bytes of a stream and gives the messages that they spell, in whatever pieces
//! they come; `encode::Encode` writes the bytes of a reply. Promised, and proved:
//!
//! - `next` gives a message only where its spelling stands at the front of the unread bytes, and takes off just
//!   that. It asks for more only where they begin a spelling, and tells a fault only where they can become none,
//!   whatever comes; then it takes nothing, and so the fault stays.
//! - Whatever the pieces, and whenever messages are asked for, the same bytes give the same messages and leave
//!   the same bytes unread (`laws`, whose body is empty, so no wrong body can be tried on it).
//! - A refused request for memory leaves the unread bytes and the written bytes as they were.
//!
//! Not proved: how much work it is. An element's body is looked at when it is whole, and the whole message is
//! copied at once; until then each piece costs a look at the line of the one unfinished element. Where room for the
//! spans of words stands, they are kept while elements are looked for, and else the elements are gone over once more.
//! The bytes of an inline line are looked at once for its LF, and its words are copied when it has ended. A body of
//! `reuse` that keeps nothing of the words is right too.
#![tactic(auto)]

pub mod encode;
pub mod input;
mod known;
pub mod laws;
mod line;
pub mod next;
mod progress;

pub use stow_model::item::Item;
pub use stow_model::items::Items;
pub use stow_model::message::Message;
pub use stow_model::refusal::Refusal;
pub use stow_model::reply::Reply;
pub use stow_model::simple_string::SimpleString;
pub use stow_model::stow_bytes::byte_string::ByteString;
pub use stow_model::stream_fault::StreamFault;
pub use stow_model::words::Words;
