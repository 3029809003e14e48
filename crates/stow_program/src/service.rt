//! A service whose last connection has ended.
use std::alloc::{Allocator, Global};
use stow_tasks::stow_shared::seat::Seat;
use stow_tasks::stow_shared::shared::Shared;
use stow_tasks::stow_shared::unkept::Unkept;

/// A service whose last connection has ended.
#[derive(Drop)]
pub struct Service<A: Allocator + Copy = Global> {
    /// The lock, which keeps no journal.
    pub shared: Shared<Unkept, A>,
    /// Its seats, first the workers' and then the flushers'.
    pub seats: Vec<Seat<Unkept, A>, A>,
    /// How many connections there were.
    pub accepted: u64,
}
