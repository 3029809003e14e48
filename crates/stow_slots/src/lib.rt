//! A block of bytes and slots, as `stow_raw` has it, into which slots are put fast.
//!
//! `SlotBuf` keeps what `RawBuf` promises, word for word: two lists and a capacity. But a slot that is put between others
//! moves none of them: the youngest slots, `YOUNG` at most, stand in a list of their own, each with how many of the older ones
//! it stands behind (`specs/Young.antt`: `merged`). They come to the older ones in one pass, when they are many, before
//! slots are changed in any other way, and when `settle` is called, for those who read many. The list's memory is got with the
//! block's; a block of fewer than `LARGE` bytes has none, and puts slots where they belong at once.
//!
//! How long a slot stands in which list is no part of a contract. `old_slot`, `young_slot` and their counts serve searches that
//! look into one list alone: what they give is a slot of the block, and nothing is said of its place, so what is found by them
//! is a guess. `around` gives the slots beside a place exactly, so that a guess is looked at from both sides; how many young slots stand before
//! it is a guess too (`rank`), made by a search in quarters (`quartering`), and believed after a look at those beside it.
#![tactic(auto)]

mod around;
pub mod quartering;
mod ranking;
mod settling;
pub mod slot_buf;
pub mod young_slot;

pub use stow_raw;
