//! Who the tenants are: a tenant file, and whom a name and a password log in.
//!
//! `Tenants::read` says what a file's text says, by `specs/TenantFile.antt`: its tenants in order, or the
//! first fault; `laws` has what follows from the definition: the tenants are by the file's rules, and each has a
//! name of its own. `Tenants::check` is `login` over the entries that were read. Only `read` and `explain` ask for
//! memory: `explaining::explain` tells where the first fault is, and promises nothing of its words.
//!
//! `toml` has its memory from the program's own heap, whatever allocator the tenants have theirs from, so it
//! is handed in beside it, and a test's allocator cannot refuse what `toml` asks for. A body that answers
//! `OutOfMemory` without asking meets the contract too: the tests show that each call with memory succeeds.
#![tactic(auto)]

pub mod explaining;
pub mod laws;
mod names;
pub mod new_tenant;
mod reading;
pub mod spelling;
pub mod tenant;
pub mod tenants;
pub mod tenants_fault;
