//! Leaves of the buffered tree (Brodal and Fagerberg 2003; Bender and others 2015), and what comes in a leaf's place.
//!
//! A leaf is a fence, the lowest key that it may hold, and the rows of the keys from there on, up to the next leaf's
//! fence. `Leaf::replacement` merges a leaf with all messages that a buffer holds for it, under pins: what it answers
//! means the same at each pin and from the newest message on (`specs/Replacements.antt`). Merged rows above the leaf
//! target are cut between keys into leaves of their own, as many as it takes.
//!
//! A body that always answers `AllocError` meets the contract: a test calls it with ample memory, and with each request
//! refused. Rows that fit the target are one leaf (`IsReplacement`); that no more leaves come than the target asks for, where
//! they don't, stands in no contract: the same test shows it.
#![tactic(auto)]

pub mod ends;
pub mod leaf;
mod making;

pub use stow_merge;
pub use stow_merge::{stow_message, stow_raw};
