//! Connections served by workers: the service of one connection, from its reader to its writer, through any door, whole or
//! turn by turn between those of others, the flushes of one flusher, through any door too, and a pool of threads that
//! serve the connections of a listener over a shared core, and flush.
//!
//! Promised, and proved (`serving::serve_connection`, `specs/Talks.antt`), of every reader and writer that tell
//! their bytes:
//!
//! - What was read is taken message by message, by the grammar; who is served is told by the connection's own
//!   logins; each request that goes to a store is one call of the door, in their order, and the door goes from its
//!   state before to that after by these calls, each in its relation.
//! - What the connection is told with the door's replies, want of memory among them, is written in its order and
//!   once: all of it where the client quits, the stream has a fault, the input ends or the reader fails; a
//!   beginning where the writer fails or memory is refused. After a write that failed the messages of its piece are
//!   still served.
//! - The reader or the writer is said to have failed only where one of its calls did (`source::Source`,
//!   `sink::Sink`). `counted::Counted` makes these of any reader or writer that is lent, tries interrupted calls again,
//!   and keeps why the last call that failed did. The reader and the writer stay those that were lent, so the lender
//!   knows what is left of the one and what the other holds.
//! - Through a core with empty stores it is the history of one connection, of which the isolation theorem speaks
//!   (`laws`, whose body is empty, so no wrong body can be tried on it).
//!
//! Promised, and proved, of a connection that is served turn by turn (`nonblocking_connection::NonblockingConnection::turn`,
//! `specs/NonblockingConnections.antt`):
//!
//! - Wherever it stood, it stands behind the turn after what was read and asked in it, by the same relations: what it is told
//!   was written, or waits. Its own calls led the door from its state before the turn to that after it, so a worker may
//!   serve others between its turns. Where it ends it was served and told as above.
//! - That a read or a write would wait is neither a failure nor an end (`nonblocking_source::NonblockingSource`,
//!   `nonblocking_sink::NonblockingSink`).
//! - Where bytes wait for the writer when a turn begins, nothing is read in it, and the door isn't asked.
//!
//! Promised, and proved, of the others:
//!
//! - Bytes are written whole (`writing::write_all`), or a beginning of them where a call of the writer failed.
//! - One wake of a flusher (`flushing::serve_wake`, `specs/Flushes.antt`) is a plan and an install in turn, until
//!   there is no job, memory is refused, there were 16 of each, or a flush was of fewer than 512 messages; its door goes from its
//!   state before to that after by these, each in its relation.
//! - A pool (`pool::Pool`) gives each seat back in its place, at a fault too. From a worker's nothing but calls was done:
//!   it gained the receipt of each, where receipts are kept, or counted that memory was refused to it. From a flusher's
//!   nothing but plans and installs was, with their receipts (`specs/Pools.antt`). Whoever then closes the lock
//!   learns from it that these receipts are one legal journal. Where there is no fault it tells how many connections it
//!   accepted, as many as it was asked to.
//!
//! Only tested of the pool, over loopback: that it serves at all, that its workers do so side by side and while a flusher
//! merges, that flushers are woken at all, that a client which is silent, breaks off, faults or reads nothing holds up
//! nobody, that no more are served than there is room for, which fault it tells, and that it ends. Which connection a
//! worker serves next, and that a turn has the connection's own socket, no clause says. Nothing is said of a socket's
//! bytes, of the channels that hand connections and wakes over, or of when a thread runs; a pool that accepts and
//! serves nobody meets its contract. That a refused thread, or refused memory, gives the seats back is proved; that refused memory is told, and
//! only then, is tested of each request that the pool makes itself. No test refuses it a thread.
//!
//! Only tested of a connection: that want of memory is told only where it was refused, so a body that gives up with it is right by
//! the contracts; that replies are written before the next piece is read, and once much of them waits; that
//! the gate is passed around each call of a door, and before each merge. A gate's method promises nothing. Not said: time, that a
//! reader or a writer returns, and with which error a write failed, but that a `Counted` keeps the last one: so a
//! body of `write_all` that tells another error where a write failed is right by its contract.
#![tactic(auto)]

mod accepting;
mod client;
pub mod counted;
mod equipment;
mod event_loop;
pub mod flush_promise;
pub mod flushing;
pub mod gate;
pub mod laws;
pub mod nonblocking_connection;
pub mod nonblocking_sink;
pub mod nonblocking_source;
pub mod open_gate;
pub mod place;
mod polled_connection;
pub mod pool;
pub mod pool_fault;
pub mod replies;
pub mod seat_promise;
mod senders;
pub mod served;
pub mod serving;
pub mod sink;
pub mod source;
mod starting;
pub mod turned;
pub mod wake;
pub mod waker;
pub mod waking_desk;
pub mod worker;
mod worker_handle;
pub mod workplace;
pub mod writing;

pub use stow_shared;
pub use stow_shared::{stow_core, stow_house, stow_merge, stow_node, stow_resp, stow_tree};
