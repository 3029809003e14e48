//! Tests of the service's crates: a core's calls, and a house's events and sessions.
//!
//! They stand in a crate of their own for the gate's time: it proves a crate again with its tests.
#![tactic(auto)]

#[cfg(test)]
mod calls;
#[cfg(test)]
mod events;
#[cfg(test)]
mod making;
#[cfg(test)]
mod refusals;
#[cfg(test)]
mod refused;
#[cfg(test)]
mod sessions;
#[cfg(test)]
mod text;
