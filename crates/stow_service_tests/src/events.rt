//! A house's events: that they succeed where there is memory, and worked and random requests of several tenants, also
//! between the steps of flushes.
pub(crate) mod acts;
mod clients;
mod each;
pub(crate) mod flushes;
mod held;
pub(crate) mod runs;
mod shapes;
mod worked;
