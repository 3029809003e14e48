//! The state of all tenants in one set of messages, and one tenant's own store in it.
//!
//! It stands on both meanings: what a tenant's own store is and does (`stow_model`), and what a set of messages means
//! (`stow_tree_model`). A tenant's rows at a number are what the set's messages of its keys leave; so its store, with
//! its snapshots, is a view of the one set. All of it is definitions, and laws over them.
#![tactic(auto)]

pub mod laws;

pub use stow_model;
