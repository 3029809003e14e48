//! The leaves that are held unpacked, so that a read near an earlier one finds its leaf's rows at once.
//!
//! `LeafCache` is a list of at most its limit's leaves, by low fence, the last used first. `find` brings a leaf to the
//! front and lends its rows; the list is the one with that leaf in front once the rows are given back. Only `new`,
//! `keep` and `resize` ask for memory. `keep` may be refused it, and then nothing is held under the fence; a body that
//! always forgets meets its contract too, and the tests show that with memory the rows are kept. `resize` may ask for
//! memory to give room back, and does without where it is refused.
#![tactic(auto)]

pub mod leaf_cache;

pub use stow_page;
pub use stow_page::stow_tree_model;
