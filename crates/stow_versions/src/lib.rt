//! One tenant's write numbers, snapshots and pins.
//!
//! A tenant's writes are numbered from 1. A snapshot shows the rows as they are, which are those at the number of the
//! last write, so it is an id with that number and takes no write number. Ids go from 1 on, and are never used again.
//! `Versions` holds both, and the distinct numbers of the live snapshots, the pins: where two snapshots have one
//! number, dropping one keeps the pin. It is seen as a record (`specs/VersionsState.antt`), whose snapshots are a
//! finite map, as in a tenant's state.
//!
//! `take` asks for no memory: `ready` makes room for a snapshot before, and says of the versions that one more can be
//! taken. Only `ready` asks for memory, so a body of it that always answers that memory was refused meets its contract
//! where neither fewer nor other snapshots matter: tests call it with ample memory.
#![tactic(auto)]

pub mod no_such_snapshot;
pub mod snapshot_fault;
pub mod versions;

pub use stow_bytes;
