//! A core that threads share, behind a lock, with a journal of what was done under it.
//!
//! What the lock holds is a `Book`, the core and its journal, and what is done under it is one `Step` at a time: a call, a
//! change of the cache's size, a quota for a tenant, a flush that is planned, or the result of its merge, which is made outside
//! the lock, so that others take steps meanwhile. A thread takes steps from a `Seat`. Over `Kept` each step leaves its entry in the journal and
//! the same entry, as a receipt, in its seat. Room for both, copies of words and reply too, is got before the step, so a step
//! that memory is refused to leaves neither and moves no store, and a call so refused is counted in its seat. Each step of the
//! `Book` is one of the state that all tenants share, or leaves it to others that mean the same (`specs/Books.antt`). Its type
//! keeps that this state is sound and that the journal leads from empty stores to the core (`specs/Journals.antt`): each tenant
//! was told what its own run over its own calls and quotas tells, alone, and its store is the last of that run. Over `Unkept`
//! there is no journal, and a step copies nothing and asks for no memory beside the core's own.
//!
//! Of a value under a lock a proof knows what its type keeps and nothing else. So what `Shared::call`, `resize`, `set_quota`, `plan`
//! and `install` promise is what their seat gained, and `Shared::close` compares what is handed back with what the lock held. Where it
//! answers `Ok`, the core's tenants are those that were opened, the journal leads to the core, each seat's receipts are the
//! journal's entries of its number, in order, and no entry is of anything else: what the seats were told is a legal
//! journal. Two such journals in which a tenant calls alike tell it the same and leave it the same store
//! (`laws::two_journals`). `Desk` is the door of a session over a seat, and that of a flusher.
//!
//! Requests that ask for many rows take turns (`Turns`) before they take the lock, so that others wait for one of them at most; no clause
//! speaks of that.
//!
//! Not said: that a call returns, since it waits for the lock, nor in which order steps of different seats come. A
//! body that answers want of memory, or a `close` that always gives all back, meets its contract; so does a `Shared::call`
//! that does nothing under the lock and makes its receipt up, whose journal `close` then refuses. Tests call each with
//! ample memory, from one seat and from two, and with each request for memory refused in turn.
#![tactic(auto)]

pub mod book;
pub mod closed;
mod closing;
pub mod comparing;
pub mod copies;
pub mod copying;
pub mod desk;
pub mod entry;
pub mod journal;
pub mod kept;
pub mod laws;
pub mod open_fault;
mod pipelined;
pub mod seat;
pub mod shared;
pub mod step;
mod turns;
pub mod unkept;

pub use stow_house;
pub use stow_house::{stow_core, stow_login, stow_merge, stow_node, stow_resp, stow_tree};
