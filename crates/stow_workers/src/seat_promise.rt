//! What a worker's thread gives back.
ghost use Rattle.std.specs.Prelude.{◌≡◌};
ghost use Rattle.stow_workers.specs.Pools.{HasCalled};

use std::alloc::{Allocator, Global};
use std::snapshot::Snapshot;
use std::thread::Promise;
use stow_shared::journal::Journal;
use stow_shared::seat::Seat;

/// A thread that gives a seat back, from which nothing but calls was done.
#[derive(Drop)]
pub struct SeatPromise<J: Journal, A: Allocator = Global> {
    pub seat: Snapshot<Seat<J, A>>,
}

impl<J: Journal, A: Allocator> Promise<Seat<J, A>> for SeatPromise<J, A> {
    ghost kept_by = { λ promise seat. HasCalled J.keeps promise.seat.value seat };
}
