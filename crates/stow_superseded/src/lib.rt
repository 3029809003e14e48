//! A buffer of the tree without the messages that newer ones of their key supersede.
//!
//! A message is superseded where a newer put or removal of its key stands behind it and no pin of its tenant stands from its
//! number on and below that one's (`specs/Superseded.antt`): nobody can read what it did. `without_superseded` gives the other
//! messages in a block of the same size, with no dead bytes, where a quarter of that block is free then. Some of the messages are
//! looked at first, so that a buffer of many different keys costs little (`sampling`): a hint, of which no contract speaks.
//!
//! `drop_hidden` lets one message go at once that the one right behind it hides (`specs/Hidden.antt`), where its slot is a young one, so that
//! no other is moved: a key that is written again and again has two messages then. A message that was ordered stays, as a job
//! for a flush outside the lock may have it.
//!
//! A body that always answers `None` or `false` meets the contract: tests call it with ample memory, and with its request refused.
#![tactic(auto)]

pub mod hidden;
pub mod laws;
mod sampling;
pub mod superseding;
