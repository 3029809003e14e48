//! What a tenant is charged once a snapshot is dropped.
//!
//! A dropped snapshot frees each version that it alone showed. The tree's walk tells the rows that it showed, each with the
//! number of its key's next message: until then the row's version is the key's, so the pins that stay tell whether a
//! snapshot shows it still. The rows come in parts, and no value is copied.
//!
//! A body that always answers `AllocError` meets the contract: tests over a tree call it with ample memory, and with requests
//! refused.
#![tactic(auto)]

pub mod dropping;
pub mod laws;
mod parts;

pub use stow_tree;
pub use stow_tree::{stow_merge, stow_message, stow_node, stow_read, stow_superseded};
