//! Plain programs, whose contracts are the definitions: slow, and for tests of the crates above.
//!
//! A call that asks for memory may be refused it at any time, so a body that always answers `AllocError` meets its
//! contract: tests call each with ample memory.

mod fold;
mod lent;
mod merging;
mod rising;
mod sorting;
mod value_at;

pub use lent::{message, version};
pub use merging::merge;
pub use rising::{messages_rise, versions_rise};
pub use value_at::value_of_key;
