//! Reads of the buffered tree (Bender and others 2015): what a key has at a number, and the first keys of an interval.
//!
//! A read goes down one path. What it answers is told by all messages of the node: those in its buffers and those that its
//! leaves' rows stand for (`messages_of`). Messages in a buffer are newer than those below it, so the first ones found from
//! the top are the newest. A range goes down once a leaf: the buffers on the way and the leaf's rows have all that is told of
//! the leaf's keys, so the next one is the lowest of their next ones (`way`). Where the leaf ends, the next key is looked for
//! in the buffers from the top on and in the leaves from there on (`next_key`). A walk goes from key to key as a range does
//! (`stepping`), and copies no value.
//!
//! A body that always answers `AllocError` meets each contract here: tests call each with ample memory, and with each
//! request refused. How much of a node a read looks at stands in no contract. `leaf_for` may answer none, or another leaf of
//! the node: it is asked only for what to hold, and whatever leaf of the tree is held, and none, is right. That leaves are
//! held is seen by tests of the tree. A search finds the same wherever it begins: a guess or a place that is always 0 is
//! right, and only slower.
#![tactic(auto)]

mod descent;
pub mod found;
pub mod getting;
pub mod glance;
pub mod glancing;
mod guesses;
pub mod leaf_for;
pub mod lent_value;
mod level;
pub mod lookup;
pub mod newest;
mod next_key;
mod next_number;
mod path;
pub mod range;
pub mod row;
pub mod row_head;
pub mod start;
mod stepping;
mod suffixes;
mod up_to;
pub mod value_head;
pub mod versions;
pub mod walk;
mod way;
