//! What the service means: the values that a client and the service exchange, and, in `specs/`, the
//! definitions that every other crate is proved against.
//!
//! The definitions, each in a module of `specs/`: how a request is spelled in a stream (`Wire`), the
//! bytes of a reply (`Reply`), what words say (`Command`), whom a name and a password log in (`Login`),
//! what one tenant has and what a request means to it (`Store`), and what a list of events means to
//! each connection and each tenant (`History`). `docs/DEFINITIONS.md` tells them in plain words.
//!
//! `words` and `items` hold the words of a request and the replies of an array, each in one block of bytes with
//! the span of each, and seen as lists; `lent_words` lends words out of such a block.
//!
//! Beside them stand laws over the definitions (`laws`), and a reader of streams (`reader`) that is slow and
//! plain, and whose contract is the definition; `stow_plain` has one tenant's own run. Tests compare with them;
//! the service does not run them.
//!
//! A call that asks for memory may be refused it at any time, so a body that always answers `AllocError` meets
//! the contract of each such call; `inline_message`, whose lines may ask for no words, needs none for those. Tests
//! call each with ample memory, and with each request refused in turn. How much work a call does stands in no
//! contract: a body of `inline` that looks again at the bytes that were looked at meets its own.
#![tactic(auto)]

pub mod bulk_at;
pub mod event;
pub mod inline_at;
pub mod item;
pub mod item_span;
pub mod items;
pub mod laws;
pub mod lent_words;
pub mod message;
pub mod message_at;
pub mod number_at;
pub mod reader;
pub mod refusal;
pub mod reply;
pub mod simple_string;
pub mod snapshot_id;
pub mod span;
pub mod stream_fault;
pub mod stream_read;
pub mod stream_rest;
pub mod usage;
pub mod words;

pub use stow_bytes;
