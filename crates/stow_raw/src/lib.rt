//! One block of memory that is filled from both ends: bytes from the front, 32-bit numbers (slots) from the back.
//!
//! A `RawBuf` is seen as two lists and a capacity. Every call but `with_capacity` takes no memory and can't fail. The
//! block is one allocation, whose bytes between the two lists are never written before they are used, and which goes back
//! when the `RawBuf` is dropped. Raw pointers stand in six functions of `cells` and `lease` alone, each proved by hand; the rest
//! is safe code. A body that always answers `AllocError` meets the contract of `with_capacity`: tests call it with ample
//! memory.
#![tactic(auto)]

pub mod block;
pub mod cells;
pub mod lease;
pub mod raw_buf;
mod words;
