//! Which keys may have been added to a set (Bloom 1970; in blocks of one word: Putze, Sanders and Singler 2007).
//!
//! A `Filter` is seen as its words. Where it says that a key was not added, it was not (`may_have`, `KeepsMarks`): the types that
//! keep one keep that each of their keys has its marks, so a missing mark spares a search. How many it spares stands in no
//! contract: a filter without words, in which each key may be, is right too. A body of `with_capacity` or `for_keys` that always
//! answers `AllocError` meets its contract: buffers and pages are made by tests with ample memory.
#![tactic(auto)]

pub mod filter;
pub mod hash;
