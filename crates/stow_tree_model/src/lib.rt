//! What the tree means: messages, sets of them, what a key has at a number, and the merge of a leaf with a batch.
//!
//! The value types lend their bytes, so that a message in a buffer, a version in a page and a change that a
//! request makes are told apart from nobody's copy.
#![tactic(auto)]

pub mod in_order;
pub mod laws;
pub mod message;
pub mod numbered_value;
pub mod op;
pub mod pin;
pub mod plain;
pub mod rows;
pub mod tenant_key;
pub mod tenant_key_buf;
pub mod version;
pub mod version_buf;

pub use stow_bytes;
