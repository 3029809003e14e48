//! A connection that is served turn by turn, between those of others.
ghost use Rattle.std.specs.Prelude.{◌≡◌, Bool, [], drop, false, Some, None};
ghost use Rattle.stow_shared.specs.StowHouse.declared.stop.Stop.TheVariants as stopped;
ghost use Rattle.stow_shared.specs.StowHouse.Conversations.{talk_of};
ghost use Rattle.stow_workers.specs.Sent.{Written, written_of, sent_at};
ghost use Rattle.stow_workers.specs.NonblockingConnections.{TakesTurn, ReaderFailsAt, Receives, IsFed, GoesOnServing, HasWaiting, TellsWaiting, turned_of, unknown};
ghost use Rattle.stow_workers.specs.Turns.{HasLed, IsRested, IsEven};

use crate::client::{Client, outcome};
use crate::gate::Gate;
use crate::nonblocking_sink::NonblockingSink;
use crate::nonblocking_source::NonblockingSource;
use crate::served::Served;
use crate::turned::Turned;
use std::alloc::{Allocator, Global};
use stow_shared::stow_house::door::Door;
use stow_shared::stow_house::stop::Stop;
use stow_shared::stow_login::tenants::Tenants;

/// The most bytes that are read at once.
const PIECE: usize = 4096;

/// A connection that is served turn by turn, between those of others.
#[derive(Drop)]
pub struct NonblockingConnection<A: Allocator = Global> {
    client: Client<A>,
    /// Why the conversation goes no further, until more is read.
    stop: Option<Stop>,
}

impl<A: Allocator + Copy> NonblockingConnection<A> {
    /// Nothing has come, and nobody is logged in.
    pub fn new(alloc: A) -> NonblockingConnection<A>
        ensures unread { (talk_of result.client.conversation).unread ≡ [] }
        ensures tenant { (talk_of result.client.conversation).tenant ≡ None }
        ensures waiting { drop result.client.replies.passed result.client.replies.bytes.items ≡ [] }
        ensures failed { result.client.replies.has_failed ≡ false }
        ensures rested { IsRested result.client }
        ensures stop { result.stop ≡ Some stopped.More }
    {
        NonblockingConnection {
            client: Client::new(alloc),
            stop: Some(Stop::More),
        }
    }

    /// Takes one turn. It reads a piece of at most 4,096 bytes, unless messages of an earlier one are left, and serves messages
    /// through the door until more than 65,536 bytes of replies wait. Then it writes, as far as the writer takes them. Where bytes
    /// wait for the writer when the turn begins it only writes: nothing is read, and the door isn't asked. A read or a write that
    /// would wait ends the turn. Else it is as `serve_connection` has it.
    pub fn turn<R: NonblockingSource, W: NonblockingSink, D: Door<A>, G: Gate>(
        &mut self,
        reader: &mut R,
        writer: &mut W,
        tenants: &Tenants<A>,
        door: &mut D,
        gate: &G,
    ) -> Turned
        ensures turns { TakesTurn D.answers tenants.now result
            (R.remaining reader.old) door.old self.old
            (written_of (W.contents writer.old) (W.failures writer.old))
            (R.remaining reader.new) door.new self.new
            (written_of (W.contents writer.new) (W.failures writer.new)) }
        ensures reader { ReaderFailsAt result (R.failures reader.old) (R.failures reader.new) }
        ensures led { HasLed D.answers door.old door.new }
        ensures waiting { HasWaiting self.old → (R.remaining reader.new ≡ R.remaining reader.old)
            × (door.new ≡ door.old) }
    {
        match self.receive(reader) {
            Ok(count) => {
                self.serve(tenants, door, gate);
                self.client.send(writer);
                self.outcome(count < PIECE)
            }
            Err(turned) => turned,
        }
    }

    /// Reads a piece, where more is to be read and no reply waits: how many bytes came, or as many as can where none are wanted. An
    /// `Err` ends the turn.
    fn receive<R: NonblockingSource>(&mut self, reader: &mut R) -> Result<usize, Turned>
        ensures receives { Receives result (R.remaining reader.old) (R.failures reader.old) self.old
            (R.remaining reader.new) (R.failures reader.new) self.new }
    {
        if self.client.is_waiting() || !matches!(self.stop, Some(Stop::More)) {
            return Ok(PIECE);
        }
        if self.client.has_failed() {
            return Err(Turned::Ended(Served::WriteFailed));
        }
        self.read(reader)
    }

    /// Reads a piece. An `Err` ends the turn.
    fn read<R: NonblockingSource>(&mut self, reader: &mut R) -> Result<usize, Turned>
        requires more { self.old.stop ≡ Some stopped.More }
        requires even { IsEven (sent_at unknown self.old.client.replies) }
        ensures receives { Receives result (R.remaining reader.old) (R.failures reader.old) self.old
            (R.remaining reader.new) (R.failures reader.new) self.new }
    {
        let mut piece = [0u8; PIECE];
        match reader.try_read(&mut piece) {
            Ok(Some(count)) if count > 0 => self.feed(&piece[..count]),
            Ok(Some(_)) => Err(Turned::Ended(Served::Ended)),
            Ok(None) => Err(Turned::Waits),
            Err(_) => Err(Turned::Ended(Served::ReadFailed)),
        }
    }

    /// Adds a piece to what is to be served.
    fn feed(&mut self, piece: &[u8]) -> Result<usize, Turned>
        ensures fed { IsFed result piece.now self.old self.new }
    {
        if self.client.feed(piece).is_err() {
            return Err(Turned::Ended(Served::NoMemory));
        }
        self.stop = None;
        Ok(piece.len())
    }

    /// Serves messages, where any may be whole and no reply waits.
    fn serve<D: Door<A>, G: Gate>(&mut self, tenants: &Tenants<A>, door: &mut D, gate: &G)
        ensures serves { (writer : Written) → GoesOnServing D.answers tenants.now writer
            door.old self.old door.new self.new }
        ensures led { HasLed D.answers door.old door.new }
        ensures waiting { HasWaiting self.old → door.new ≡ door.old }
    {
        if self.stop.is_none() && !self.client.is_waiting() {
            self.stop = self.client.serve_some(tenants, door, gate);
        }
    }

    /// How a turn ended behind which what waits was written, as far as it could be.
    fn outcome(&self, is_drained: bool) -> Turned
        ensures { (waits : Bool)
            → TellsWaiting waits
            (drop self.now.client.replies.passed self.now.client.replies.bytes.items)
            → result ≡ turned_of self.now.stop waits self.now.client.replies.has_failed is_drained }
    {
        if self.client.is_waiting() {
            return Turned::Waits;
        }
        let Some(stop) = self.stop else {
            return Turned::Again;
        };
        match outcome(stop, self.client.has_failed()) {
            Some(served) => Turned::Ended(served),
            None if is_drained => Turned::Drained,
            None => Turned::Again,
        }
    }
}
