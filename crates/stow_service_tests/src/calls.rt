//! A core's calls: that they succeed where there is memory, that a commit asks for none, and worked and random requests of
//! several tenants.
pub(crate) mod alone;
mod flushes;
mod full;
mod held;
pub(crate) mod refusals;
pub(crate) mod skipped;
mod worked;
