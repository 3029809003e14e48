//! One tenant's own run, slow and plain: what the service is compared with in tests.
//!
//! `plain_store::PlainStore` is one tenant's store: a sorted map that it has alone, and for each live snapshot a whole
//! copy of it (`plain_contents::PlainContents`). `step` serves one request as the definitions of `stow_model` say,
//! `usage` is the usage report, and `set_quota` is the operator's. What is charged is computed anew each time, from all
//! that the rows and the copies show: each version once. `own_run::own_run` serves a list of requests. Their contracts
//! are the definitions. The service doesn't run them.
//!
//! A write makes a copy of the rows first, and then takes it over or refuses it, so no call has anything to undo. That
//! every number fits a reply is kept by the types: `plain_number::PlainNumber`, and the invariant of the contents.
//!
//! A call that asks for memory may be refused it at any time, so a body that always answers `AllocError` meets
//! the contract of each such call. Tests call each with ample memory, and with each request refused in turn.
#![tactic(auto)]

pub mod own_run;
pub mod plain_contents;
pub mod plain_number;
pub mod plain_request;
pub mod plain_rows;
pub mod plain_run;
pub mod plain_snapshot;
pub mod plain_store;
pub mod plain_version;
