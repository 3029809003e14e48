//! Connections and flushers over the core, in one thread: each event is one step.
//!
//! The house stands at a history (`specs/Steps.antt`): a new house at the empty one, and `House::step` gives one
//! step of its event by which each history of the house goes on. So whoever drives `step` has the isolation
//! theorem of all events so far: each connection is told what each tenant's own run, alone, over its own requests
//! would tell, and each tenant's store is the last of its own run. `House::run` does so with a list of events
//! (`specs/Runs.antt`).
//! `Conversation` is what a connection does with its bytes, one message after another (`specs/Conversations.antt`),
//! for whoever drives it: the house over its core, the workers over any `Door`, whose meaning is a relation.
//! `Session` holds its login (`specs/Sessions.antt`). `FlushDoor` is what a flusher plans and installs at, whose meaning is
//! a relation too (`specs/FlushDoors.antt`).
//! `Flusher` has no job, a job, or a job's result. By its answer each of its events says what it has then, and what became of
//! the tree (`specs/Flushers.antt`); none changes a tenant's store or tells anybody anything, wherever it comes between the
//! others. A refused event leaves the core as it was, and so does one of a connection that memory is refused to; what one of a
//! flusher leaves then is told too (`LeavesCore` of `specs/Steps.antt`). A body of such an event that always answers want of memory meets its contract: tests want the other answers.
//! Not said: time, and that memory is there; where memory was refused, the outputs name the event.
#![tactic(auto)]

pub mod answer;
pub mod connection;
pub mod connection_event;
pub mod conversation;
pub mod door;
pub mod flush_door;
pub mod flusher;
pub mod heard;
pub mod house;
pub mod laws;
pub mod mark;
pub mod outputs;
pub mod request;
pub mod run_fault;
pub mod session;
pub mod step_result;
pub mod stop;
pub mod taken;
pub mod told;

pub use stow_core;
pub use stow_core::{stow_login, stow_merge, stow_node, stow_tree};
pub use stow_resp;
