//! What a flusher's thread gives back.
ghost use Rattle.std.specs.Prelude.{◌≡◌};
ghost use Rattle.stow_shared.specs.Seats.{SeatFlushes};
ghost use Rattle.stow_workers.specs.Flushes.{HasFlushed};

use std::alloc::{Allocator, Global};
use std::snapshot::Snapshot;
use std::thread::Promise;
use stow_shared::journal::Journal;
use stow_shared::seat::Seat;

/// A thread that gives a seat back, from which nothing but plans and installs was done.
#[derive(Drop)]
pub struct FlushPromise<J: Journal, A: Allocator = Global> {
    pub seat: Snapshot<Seat<J, A>>,
}

impl<J: Journal, A: Allocator> Promise<Seat<J, A>> for FlushPromise<J, A> {
    ghost kept_by = { λ promise seat. HasFlushed (SeatFlushes J.keeps) promise.seat.value seat };
}
