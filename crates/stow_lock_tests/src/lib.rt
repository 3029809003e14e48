//! Tests of the lock and of the threads that serve connections behind it.
//!
//! They stand in a crate of their own for the gate's time: it proves a crate again with its tests.
#![tactic(auto)]

#[cfg(test)]
mod shared;
#[cfg(test)]
mod workers;
