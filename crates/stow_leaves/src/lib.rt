//! Leaves in a row, under one node of the buffered tree (Brodal and Fagerberg 2003; Bender and others 2015), as
//! messages are merged into one of them, or into all.
//!
//! The leaves share out the keys from the first one's fence on, up to the upper end of all tenants' keys. `merged`
//! merges all messages that a buffer holds for one of them into it (`stow_leaf::leaf::Leaf::replacement`): it gives way
//! to any number of leaves. Then small leaves are joined: of two neighbours one page is below a quarter of the leaf
//! target, and one page of both fits it. It is done from the lowest on until no two are left that are to become one
//! (`NoneToJoin`). A cache of leaves forgets the one that was replaced and those that were joined, and no other
//! (`Merges`).
//!
//! `all_merged` merges all that a buffer holds for the leaves, in one pass from the highest on: each leaf for which there are
//! messages gives way to others, any other one stays, and then small leaves are joined (`MergesAll`). The leaves' keys may
//! end before the upper end of all: the buffer may be one above them, with messages for other leaves too. The row means
//! the same under the pins then as it did with those messages (`StandsForAll`).
//!
//! After `merged`, with the messages that are left above it, the row means the same under the pins as before; its leaves share out the
//! same keys, and each is within the target or of one key (`StandsFor`).
//!
//! Both take the leaves by value: their caller keeps them and hands in others of the same rows (`Leaf::share`), so
//! where memory is refused they are as they were. The cache may have lost more then, but no leaf that is not there
//! comes into it (`Forgets`). A body of `merged` or `all_merged` that always answers `AllocError` meets its contract: tests of
//! the tree call them with ample memory and with each request refused.
#![tactic(auto)]

pub mod absorbing;
mod ends;
mod joining;

pub use stow_leaf;
pub use stow_leaf::{stow_merge, stow_message, stow_raw};
pub use stow_leaf_cache;
pub use stow_leaf_cache::stow_page;
