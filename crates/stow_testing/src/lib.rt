//! What tests of several crates share: tenant files, worked requests with their replies, requests of the words of a
//! line, replies as texts, and random numbers. Nothing else calls it, and its functions promise no more than that they
//! return.
#![tactic(auto)]

pub mod lines;
pub mod many;
pub mod random;
pub mod replies;
pub mod rows;
pub mod spelling;
pub mod tenants;
