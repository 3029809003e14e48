//! Where workers serve connections, and flushers flush.
ghost use Rattle.stow_shared.specs.Seats.{SeatFlushes};
ghost use Rattle.stow_workers.specs.Flushes.{HasFlushed};
ghost use Rattle.stow_workers.specs.Pools.{HasCalled};

use crate::equipment::Equipment;
use crate::event_loop::EventLoop;
use crate::flushing::flush_loop;
use crate::gate::Gate;
use crate::polled_connection::PolledConnection;
use crate::turned::Turned;
use crate::wake::Wake;
use crate::waker::Waker;
use crate::waking_desk::WakingDesk;
use crossbeam_channel::Receiver;
use std::alloc::Allocator;
use std::sync::Wait;
use stow_shared::desk::Desk;
use stow_shared::journal::Journal;
use stow_shared::seat::Seat;
use stow_shared::shared::Shared;

/// What the workers and flushers of a pool have in common: where wakes come from, and what serves connections.
#[derive(Drop)]
pub struct Workplace<'a, R: Wait, J: Journal, G: Gate, A: Allocator + Copy> {
    pub rt: &'a R,
    pub alloc: A,
    pub wakes: &'a Receiver<Wake, A>,
    pub shared: &'a Shared<J, A>,
    pub gate: &'a G,
}

impl<'a, R: Wait, J: Journal, G: Gate, A: Allocator + Copy> Workplace<'a, R, J, G, A> {
    /// Serves connections from a seat with what that takes, if it is there, and gives the seat back.
    pub fn work_with(&self, seat: Seat<J, A>, equipment: Option<Equipment<A>>) -> Seat<J, A>
        ensures { HasCalled J.keeps seat result }
    {
        match equipment {
            Some(Equipment { waker, event_loop }) => self.work(seat, waker, event_loop),
            None => seat,
        }
    }

    /// Serves the connections of an event loop from a seat, turn by turn, until all have ended and no more can come, and gives
    /// the seat back.
    pub fn work(
        &self,
        mut seat: Seat<J, A>,
        mut waker: Waker<A>,
        mut event_loop: EventLoop<A>,
    ) -> Seat<J, A>
        ensures { HasCalled J.keeps seat result }
    {
        for _ in self.rt.forever() {
            if !event_loop.accept_new(self.rt) {
                break;
            }
            event_loop.poll_streams();
            self.serve_due(&mut seat, &mut waker, &mut event_loop);
            event_loop.close_lingering(self.rt);
        }
        seat
    }

    /// Gives each connection whose turn is due one turn.
    fn serve_due(&self, seat: &mut Seat<J, A>, waker: &mut Waker<A>, event_loop: &mut EventLoop<A>)
        ensures { HasCalled J.keeps seat.old seat.new }
    {
        for _ in 0..event_loop.due.len() {
            self.serve_next(seat, waker, event_loop);
        }
    }

    /// Gives the connection whose turn it is its turn, if there is one.
    fn serve_next(&self, seat: &mut Seat<J, A>, waker: &mut Waker<A>, event_loop: &mut EventLoop<A>)
        ensures { HasCalled J.keeps seat.old seat.new }
    {
        let Some((at, mut connection)) = event_loop.next_due() else {
            return;
        };
        let turned = self.serve(&mut connection, seat, waker);
        event_loop.put_back(self.rt, at, connection, turned);
    }

    /// Flushes from a seat at each wake, until no more can come, and gives the seat back.
    pub fn flush(&self, mut seat: Seat<J, A>) -> Seat<J, A>
        ensures { HasFlushed (SeatFlushes J.keeps) seat result }
    {
        let mut desk = Desk {
            rt: self.rt,
            shared: self.shared,
            seat: &mut seat,
        };
        flush_loop(self.rt, self.alloc, self.wakes, &mut desk, self.gate);
        seat
    }

    /// Gives a connection its turn. Its calls are counted to wake flushers.
    fn serve(
        &self,
        connection: &mut PolledConnection<A>,
        seat: &mut Seat<J, A>,
        waker: &mut Waker<A>,
    ) -> Turned
        ensures { HasCalled J.keeps seat.old seat.new }
    {
        if connection.is_lingering() {
            return connection.linger();
        }
        let tenants = self.shared.tenants();
        let desk = Desk {
            rt: self.rt,
            shared: self.shared,
            seat,
        };
        let mut desk = WakingDesk { desk, waker };
        connection.turn(tenants, &mut desk, self.gate)
    }
}
