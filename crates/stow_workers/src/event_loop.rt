//! The connections of one worker.
use crate::polled_connection::PolledConnection;
use crate::served::Served;
use crate::turned::Turned;
use crossbeam_channel::{Receiver, Sender};
use mio::event::Event;
use mio::net::TcpStream;
use mio::{Events, Interest, Poll, Token, Waker};
use std::alloc::{AllocError, Allocator, Global};
use std::collections::VecDeque;
use std::net;
use std::sync::{Arc, Wait};
use std::time::Duration;

/// The token of what wakes a worker that waits for its streams.
pub(crate) const WAKE: Token = Token(usize::MAX);

/// How many streams' events are taken at once.
pub(crate) const EVENTS: usize = 256;

/// The most new connections that are added at once.
const ADDED: u32 = 16;

/// How long a worker waits at once for connections that linger, in milliseconds.
const PATIENCE: u64 = 50;

/// After so many rounds those who linger are counted 32 reads.
const ROUNDS: u32 = 4096;

/// The connections of one worker, and where new ones come from.
#[derive(Drop)]
pub struct EventLoop<A: Allocator = Global> {
    pub(crate) alloc: A,
    pub(crate) number: u32,
    /// New connections, each of which is sent before the worker is woken.
    pub(crate) accepted: Receiver<net::TcpStream, A>,
    /// Where the worker's number is told once for each connection that it has closed.
    pub(crate) closed: Sender<u32, A>,
    pub(crate) poll: Poll,
    /// It is kept as long as the poll, since a wake is lost with the last owner of its waker.
    pub(crate) poll_waker: Arc<Waker, A>,
    pub(crate) events: Events<A>,
    /// Each connection under its token; the tokens that are free.
    pub(crate) connections: Vec<Option<PolledConnection<A>>, A>,
    pub(crate) free: Vec<usize, A>,
    /// The tokens of the connections whose turn is due, in their order.
    pub(crate) due: VecDeque<usize, A>,
    /// How many connections there are, and how many of them linger.
    pub(crate) count: u32,
    pub(crate) lingering: u32,
    pub(crate) rounds: u32,
    /// New connections may be there.
    pub(crate) is_woken: bool,
    /// The last wait was in vain.
    pub(crate) is_quiet: bool,
}

impl<A: Allocator + Copy> EventLoop<A> {
    /// Adds new connections. Where there is none at all it waits for one, and answers `false` once no more can come: so a
    /// worker ends behind its last connection, and needs no wake for that.
    pub(crate) fn accept_new<R: Wait>(&mut self, rt: &R) -> bool {
        if self.count == 0 {
            match self.accepted.recv(rt) {
                Ok(stream) => self.add(rt, stream),
                Err(_) => return false,
            }
        }
        if self.is_woken {
            self.is_woken = false;
            self.add_waiting(rt);
        }
        true
    }

    /// Adds the connections that wait in the channel, up to as many as are added at once.
    fn add_waiting<R: Wait>(&mut self, rt: &R) {
        for _ in 0..ADDED {
            match self.accepted.try_recv(rt) {
                Ok(stream) => self.add(rt, stream),
                Err(_) => return,
            }
        }
        self.is_woken = true;
    }

    /// Adds a connection. Where it can't be served it is closed.
    fn add<R: Wait>(&mut self, rt: &R, stream: net::TcpStream) {
        self.count = self.count.saturating_add(1);
        match self.free_token() {
            Ok(at) => {
                if !self.register(at, stream) {
                    self.release(rt, at);
                }
            }
            Err(_) => {
                drop(stream);
                self.tell_closed(rt);
            }
        }
    }

    /// A token that no connection has.
    fn free_token(&mut self) -> Result<usize, AllocError> {
        if let Some(at) = self.free.pop() {
            return Ok(at);
        }
        let at = self.connections.len();
        self.free.reserve(at + 1)?;
        self.due.reserve(at + 1)?;
        self.connections.push(None)?;
        Ok(at)
    }

    /// Has the stream of a new connection reported under its token. Where the system refuses it, it is closed.
    fn register(&mut self, at: usize, stream: net::TcpStream) -> bool {
        if at >= self.connections.len() || stream.set_nonblocking(true).is_err() {
            return false;
        }
        let mut stream = TcpStream::from_std(stream);
        let interests = Interest::READABLE | Interest::WRITABLE;
        let registry = self.poll.registry();
        if registry
            .register(&mut stream, Token(at), interests)
            .is_err()
        {
            return false;
        }
        self.connections[at] = Some(PolledConnection::new(self.alloc, stream));
        true
    }

    /// Waits until a stream is ready or the worker is woken, and notes whose turn is due.
    pub(crate) fn poll_streams(&mut self) {
        let timeout = self.timeout();
        if self.poll.poll(&mut self.events, timeout).is_ok() {
            for event in self.events.iter() {
                if event.token() == WAKE {
                    self.is_woken = true;
                } else {
                    note_due(event, &mut self.connections, &mut self.due);
                }
            }
        }
        self.is_quiet = !self.has_work() && self.events.is_empty();
    }

    /// Whether the turn of a connection is due, or new ones may be there.
    fn has_work(&self) -> bool {
        !self.due.is_empty() || self.is_woken
    }

    /// How long the streams are waited for: not at all where there is work, for a while where connections linger, and else
    /// without a limit.
    fn timeout(&self) -> Option<Duration> {
        if self.has_work() {
            Some(Duration::from_millis(0))
        } else if self.lingering > 0 {
            Some(Duration::from_millis(PATIENCE))
        } else {
            None
        }
    }

    /// The connection whose turn it is, with its token.
    pub(crate) fn next_due(&mut self) -> Option<(usize, PolledConnection<A>)> {
        let at = self.due.pop_front()?;
        if at >= self.connections.len() {
            return None;
        }
        let mut connection = self.connections[at].take()?;
        connection.is_due = false;
        Some((at, connection))
    }

    /// Takes a connection back behind its turn.
    pub(crate) fn put_back<R: Wait>(
        &mut self,
        rt: &R,
        at: usize,
        mut connection: PolledConnection<A>,
        turned: Turned,
    ) {
        let is_due = match turned {
            Turned::Again => true,
            Turned::Drained => connection.is_read_closed,
            Turned::Waits => false,
            Turned::Ended(served) => {
                if !self.lingers(&mut connection, served) {
                    drop(connection);
                    return self.release(rt, at);
                }
                true
            }
        };
        connection.is_due = is_due;
        if at < self.connections.len() {
            self.connections[at] = Some(connection);
        }
        if is_due {
            let _ = self.due.push_back(at);
        }
    }

    /// Whether a connection that has ended so is read on, and not closed.
    fn lingers(&mut self, connection: &mut PolledConnection<A>, served: Served) -> bool {
        if connection.is_lingering() {
            self.lingering = self.lingering.saturating_sub(1);
            return false;
        }
        let lingers = connection.start_lingering(served);
        self.lingering = self.lingering.saturating_add(u32::from(lingers));
        lingers
    }

    /// Frees the token of a connection that was closed.
    fn release<R: Wait>(&mut self, rt: &R, at: usize) {
        let _ = self.free.push(at);
        self.tell_closed(rt);
    }

    /// Tells that a connection was closed, behind that, so that its descriptor is free when it is told.
    fn tell_closed<R: Wait>(&mut self, rt: &R) {
        self.count = self.count.saturating_sub(1);
        let _ = self.closed.send(rt, self.number);
    }

    /// Closes connections that linger, where a wait was in vain, or many rounds have passed.
    pub(crate) fn close_lingering<R: Wait>(&mut self, rt: &R) {
        self.rounds = self.rounds.wrapping_add(1) % ROUNDS;
        if self.lingering == 0 {
            return;
        }
        if self.is_quiet {
            self.count_reads(rt, u32::MAX);
        } else if self.rounds == 0 {
            self.count_reads(rt, 32);
        }
    }

    /// Counts so many reads of those that linger and whose turn isn't due, and closes them where none is left.
    fn count_reads<R: Wait>(&mut self, rt: &R, reads: u32) {
        for at in 0..self.connections.len() {
            if at >= self.connections.len() {
                return;
            }
            let is_over = match &mut self.connections[at] {
                Some(connection) => {
                    connection.is_lingering() && !connection.is_due && !connection.may_read(reads)
                }
                None => false,
            };
            if is_over {
                self.connections[at] = None;
                self.lingering = self.lingering.saturating_sub(1);
                self.release(rt, at);
            }
        }
    }
}

/// Notes that the turn of a connection is due.
fn note_due<A: Allocator>(
    event: &Event,
    connections: &mut Vec<Option<PolledConnection<A>>, A>,
    due: &mut VecDeque<usize, A>,
) {
    let at = event.token().0;
    if at >= connections.len() {
        return;
    }
    if let Some(connection) = &mut connections[at] {
        connection.is_read_closed = connection.is_read_closed || event.is_read_closed();
        if !connection.is_due {
            connection.is_due = true;
            let _ = due.push_back(at);
        }
    }
}
