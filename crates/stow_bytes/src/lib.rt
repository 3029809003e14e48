//! Byte strings, their order, and the limits of keys, values and numbers: what the meaning of the service and
//! the meaning of the tree both stand on.
//!
//! A call that asks for memory may be refused it at any time, so a body that always answers `AllocError` meets
//! its contract: tests call each with ample memory.
#![tactic(auto)]

pub mod byte_string;
pub mod compare;
pub mod limits;
