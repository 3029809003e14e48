//! Room at the root of the buffered tree (Brodal and Fagerberg 2003; Bender and others 2015).
//!
//! `make_room` makes room for so many bytes in the root's own buffer: dead bytes are dropped first, then messages that
//! newer ones supersede (`Node::drop_superseded`), and only where that is not enough messages move towards the leaves, one step at a time (`Node::step`), which may put nodes above the root. What
//! the tree means stays, under the pins that are given (`specs/Rooms.antt`). Beside that drop, room is made by steps down the tree alone, each
//! where the root lacked room for the bytes or for a quarter of its block (`MakesRoom`).
//!
//! A body that answers `AllocError` wherever bytes don't fit at once meets the contract:
//! a test calls it with ample memory, and with each request refused.
#![tactic(auto)]

pub mod room;

pub use stow_node;
pub use stow_node::{stow_leaf, stow_leaf_cache, stow_merge, stow_message, stow_superseded};
