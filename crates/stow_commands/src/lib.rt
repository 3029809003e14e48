//! Words to commands, and what a change of one row leads to.
//!
//! `Command::read` says what words mean to a tenant's store, for every list of words: the command, or the
//! first refusal that applies, of the name, the number of arguments, options, numbers among the arguments, and
//! the length of each key. `kind_of` says what words mean to a connection: a login, a quit, a malformed one of
//! these, or a request to the store. A command borrows its words: nothing is copied, and no memory is asked for.
//! `Update::outcome` is what a SET, APPEND, INCR, DECR or INCRBY leads to by the row's present value, and
//! `append_reply` what an APPEND is told, and `sum` what an addition comes to, without the value that they lead to.
#![tactic(auto)]

pub mod command;
pub mod condition;
pub mod kind;
mod name;
pub mod number;
pub mod outcome;
pub mod outcome_fault;
mod snapshots;
pub mod update;

pub use stow_model;
pub use stow_model::stow_bytes;
