//! Tests of the crates that stand below the tree and the core: the meaning of requests, requests in and replies out,
//! tenant files, words as commands, the tenant's own run, versions, accounts, and filters.
//!
//! They stand in a crate of their own for the gate's time: it proves a crate again with its tests. A module is named after
//! the crate that it tests. The outcomes of `stow_commands` are tested by `plain`, which asks for them, and the plain reader of
//! `stow_model` beside the inputs of `resp`.
#![tactic(auto)]

#[cfg(test)]
mod bytes;
#[cfg(test)]
mod filter;
#[cfg(test)]
mod ledger;
#[cfg(test)]
mod login;
#[cfg(test)]
mod model;
#[cfg(test)]
mod plain;
#[cfg(test)]
mod refusing;
#[cfg(test)]
mod resp;
#[cfg(test)]
mod testing;
#[cfg(test)]
mod tree_model;
#[cfg(test)]
mod versions;
