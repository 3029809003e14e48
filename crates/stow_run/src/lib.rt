//! A run of the program: what it is asked to do, where its files are, why it ends early, and what it tells of that.
//!
//! Proved: each failure has its status and its line (`specs/Statuses.antt`), want of memory is told as that wherever it comes
//! from, and 0 stands for no failure. Of the second line, which tells more, it is proved that it is made safely.
#![tactic(auto)]

pub mod conclusion;
pub mod failure;
pub mod folder;
pub mod job;
pub mod salt_source;
pub mod serving;
