//! The buffered tree (Brodal and Fagerberg 2003; Bender and others 2015), which holds the rows of all tenants.
//!
//! A `Tree` is seen as a root with all that stands below it, and the leaves that are held unpacked. What it means is one set
//! of messages (`specs/TreeState.antt`): all changes in its buffers, and those that the rows of its leaves stand for. A call's
//! messages are put in two steps: `reserve` makes room for them, which may move others towards the leaves and changes nothing
//! that the tree means under the pins that it is given; `put_all` then takes no memory and cannot fail. `reserve_near` and `put_near`
//! do both for one message by a guess of its place, and before it one may go that the newest message of the same key hides.
//! Reads (`versions`, `get`, `range`) tell what the set of messages tells, and move none.
//!
//! `plan` gives a job for a flush outside the lock (`stow_merge::flush_job::FlushJob`), or none exactly where no buffer holds
//! a message. It is of the deepest buffer that holds one; where that one stands above nodes, its messages for the child for
//! which most bytes are buffered move down first, into empty buffers (`Plans`). The tree means what it did. The job's batch
//! is not empty, and its result could be installed as the tree is then (`CanInstall`, the causes for which one is stale).
//!
//! `install` puts a job's result into the tree, whatever happened since its plan: the pages come in the leaf's place, and the batch
//! leaves the buffer above it. The tree means the same under the present pins. The result is stale exactly where `CanInstall`
//! doesn't hold, and then nothing changes; where memory is refused it comes back.
//!
//! A body of `reserve`, of `reserve_near`, of `plan`, of `install` or of a read that always answers `AllocError` meets its
//! contract, and so does a cache that holds nothing, as where `offer` does nothing, or `leaf_keys` gives no key: tests call each
//! with ample memory, and with each request refused, and look at what the cache holds. How much work a call does stands in no
//! contract, so a body of `versions` or of `range` that reads twice and answers what it read last meets it too: it answers the
//! same.
#![tactic(auto)]

mod counting;
pub mod shape_report;
pub mod tree;
pub mod tree_fault;
pub mod tree_shape;

pub use stow_flush::{stow_merge, stow_message, stow_node, stow_superseded};
pub use stow_read;
