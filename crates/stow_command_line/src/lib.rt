//! What the program is asked for by its words.
//!
//! Proved: words are refused for no other reason than those that `specs/Words.antt` says, and a tenant whose entry is asked for
//! has a name, a salt and a quota by the rules of the tenant file. Not proved: which words of the command
//! line ask for what, and that help is the argument parser's text. The parser's builders are dear to prove, so no must-fail edit
//! and no test stands here.
#![tactic(auto)]

pub mod arguments;
mod entry;

pub use stow_tree;
