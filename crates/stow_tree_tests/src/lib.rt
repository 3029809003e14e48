//! Tests of the buffered tree's crates, from the raw block up to the tree, and of what a drop leaves charged.
//!
//! They stand in a crate of their own for the gate's time: it proves a crate again with its tests, and these crates'
//! proofs are the dearest. What contracts say exactly is run once; the tables show what they don't say: that calls succeed
//! where there is memory, that want of it is told where it was refused, and that the tree grows and shrinks. What stands
//! between a block and the tree (leaves, nodes, room, reads, merges) is run by whole trees alone.
#![tactic(auto)]

#[cfg(test)]
mod keys;
#[cfg(test)]
mod leaf_cache;
#[cfg(test)]
mod merge;
#[cfg(test)]
mod message;
#[cfg(test)]
mod page;
#[cfg(test)]
mod raw;
#[cfg(test)]
mod refusals;
#[cfg(test)]
mod slots;
#[cfg(test)]
mod superseded;
#[cfg(test)]
mod tree;
#[cfg(test)]
mod words;
