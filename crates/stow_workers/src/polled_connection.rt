//! A connection that a worker serves between others.
ghost use Rattle.stow_workers.specs.Turns.{HasLed};

use crate::counted::Counted;
use crate::gate::Gate;
use crate::nonblocking_connection::NonblockingConnection;
use crate::served::Served;
use crate::turned::Turned;
use mio::net::TcpStream;
use std::alloc::{Allocator, Global};
use std::io::{ErrorKind, Read};
use std::net::Shutdown;
use stow_shared::stow_house::door::Door;
use stow_shared::stow_login::tenants::Tenants;

/// The most bytes that are read at once.
const PIECE: usize = 4096;

/// How many reads there are at most behind the last reply.
const READS: u32 = 64;

/// A connection that a worker serves between others, with its stream.
#[derive(Drop)]
pub(crate) struct PolledConnection<A: Allocator = Global> {
    stream: TcpStream,
    connection: NonblockingConnection<A>,
    /// Its next turn is due.
    pub(crate) is_due: bool,
    /// Its client will send no more than what can be read.
    pub(crate) is_read_closed: bool,
    /// How often it is still read behind the last reply, where that is told.
    reads_left: Option<u32>,
}

impl<A: Allocator + Copy> PolledConnection<A> {
    /// A connection of which nothing has come.
    pub(crate) fn new(alloc: A, stream: TcpStream) -> PolledConnection<A> {
        PolledConnection {
            stream,
            connection: NonblockingConnection::new(alloc),
            is_due: false,
            is_read_closed: false,
            reads_left: None,
        }
    }

    /// Takes its turn.
    pub(crate) fn turn<D: Door<A>, G: Gate>(
        &mut self,
        tenants: &Tenants<A>,
        door: &mut D,
        gate: &G,
    ) -> Turned
        ensures { HasLed D.answers door.old door.new }
    {
        let (mut input, mut output) = (&self.stream, &self.stream);
        let mut reader = Counted::new(&mut input);
        let mut writer = Counted::new(&mut output);
        self.connection
            .turn(&mut reader, &mut writer, tenants, door, gate)
    }

    /// Whether its last reply is told, and it is only read on.
    pub(crate) fn is_lingering(&self) -> bool {
        self.reads_left.is_some()
    }

    /// Tells the client that nothing more comes, where it may still send and hear: then its worker reads on for a while. A connection
    /// that is closed with bytes unread is reset by the system, and the client may lose what it was told.
    pub(crate) fn start_lingering(&mut self, served: Served) -> bool {
        let is_lingering = is_ended_here(served) && self.stream.shutdown(Shutdown::Write).is_ok();
        if is_lingering {
            self.reads_left = Some(READS);
        }
        is_lingering
    }

    /// Reads on behind the last reply: whether there may be more.
    pub(crate) fn linger(&mut self) -> Turned {
        let mut piece = [0u8; PIECE];
        let mut reader = &self.stream;
        match reader.read(&mut piece) {
            Ok(count) if count > 0 && self.may_read(1) => Turned::Again,
            Err(error) if error.kind() == ErrorKind::WouldBlock => Turned::Waits,
            _ => Turned::Ended(Served::Ended),
        }
    }

    /// Counts so many reads behind the last reply: whether any is left.
    pub(crate) fn may_read(&mut self, reads: u32) -> bool {
        let left = self.reads_left.unwrap_or(0).saturating_sub(reads);
        self.reads_left = Some(left);
        left > 0
    }
}

/// Whether the client may still send, and hear what it was told.
fn is_ended_here(served: Served) -> bool {
    matches!(served, Served::Quit | Served::Faulted(_) | Served::NoMemory)
}
