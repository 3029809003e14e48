//! A connection that is being served.
ghost use Rattle.std.specs.Prelude.{◌≡◌, ◌↔◌, IsTrue, ◌++◌, ◌<◌, List, [], ◌∷◌, length, map, drop, None, Some, false, option_map, IfSome, OnOk, OnErr};
ghost use Rattle.stow_model.specs.Login.{Entry};
ghost use Rattle.stow_model.specs.Reply.{reply_of};
ghost use Rattle.stow_shared.specs.StowHouse.Conversations.{talk_of};
ghost use Rattle.stow_workers.specs.Pipelined.{HearsAll, SendsFront, TellsOrStops, encodings};
ghost use Rattle.stow_workers.specs.Sent.{Written, written_of, Sends, StaysSent, sent_of, sent_at};
ghost use Rattle.stow_workers.specs.Turns.{Turns, Shortens, StepsTo, IsRested, Lightens, HasLed, RestsBehind, ServesPiece, CanEndPiece, outcome_of, state_of};

use crate::gate::Gate;
use crate::nonblocking_sink::NonblockingSink;
use crate::place::Place;
use crate::replies::Replies;
use crate::served::Served;
use crate::sink::Sink;
use std::alloc::{AllocError, Allocator, Global};
use stow_model::reply::Reply;
use stow_model::words::Words;
use stow_shared::stow_house::conversation::Conversation;
use stow_shared::stow_house::door::Door;
use stow_shared::stow_house::heard::Heard;
use stow_shared::stow_house::request::Request;
use stow_shared::stow_house::stop::Stop;
use stow_shared::stow_login::tenants::Tenants;

/// A conversation that is being served, and the replies that wait.
#[derive(Drop)]
pub struct Client<A: Allocator = Global> {
    alloc: A,
    conversation: Conversation<A>,
    replies: Replies<A>,
    /// Requests that were heard together, and how many of them the door was asked.
    requests: Vec<Request<A>, A>,
    done: usize,
    /// What came behind them, until it is told.
    end: Option<(Option<Reply<A>>, Option<Stop>)>,
    /// What the door replied to some of them. It means nothing between calls, so that its memory serves one after another.
    told: Vec<Reply<A>, A>,
    /// Words of earlier requests, whose memory serves the next ones.
    words: Vec<Words<A>, A>,
}

/// The most requests that are heard before the door is asked.
const PIPELINED: usize = 64;

/// The most steps of one turn.
const STEPS: u32 = 1024;

impl<A: Allocator + Copy> Client<A> {
    /// Nothing has come, and nobody is logged in.
    pub fn new(alloc: A) -> Client<A>
        ensures unread { (talk_of result.conversation).unread ≡ [] }
        ensures tenant { (talk_of result.conversation).tenant ≡ None }
        ensures waiting { drop result.replies.passed result.replies.bytes.items ≡ [] }
        ensures failed { result.replies.has_failed ≡ false }
        ensures rested { IsRested result }
    {
        Client {
            alloc,
            conversation: Conversation::new(alloc),
            replies: Replies::new(alloc),
            requests: Vec::new(alloc),
            done: 0,
            end: None,
            told: Vec::new(alloc),
            words: Vec::new(alloc),
        }
    }

    /// Serves the messages that a piece makes whole, and writes their replies. `None` where the connection goes
    /// on.
    pub fn serve_piece<W: Sink, D: Door<A>, G: Gate>(
        &mut self,
        piece: &[u8],
        writer: &mut W,
        tenants: &Tenants<A>,
        door: &mut D,
        gate: &G,
    ) -> Option<Served>
        requires rested { IsRested self.old }
        ensures rests { RestsBehind D.answers tenants.now result
            (state_of door.old (W.contents writer.old) (W.failures writer.old) self.old) self.new }
        ensures ends { IfSome result CanEndPiece }
        ensures serves { ServesPiece D.answers tenants.now piece.now result
            (state_of door.old (W.contents writer.old) (W.failures writer.old) self.old)
            (state_of door.new (W.contents writer.new) (W.failures writer.new) self.new) }
        ensures same_borrow { W.borrow writer.new ≡ W.borrow writer.old }
    {
        if self.conversation.feed(piece).is_err() {
            return Some(Served::NoMemory);
        }
        let stop = self.serve_all(writer, tenants, door, gate);
        self.replies.flush(writer);
        outcome(stop, self.replies.has_failed())
    }

    /// Serves messages until the conversation goes no further, and writes once more than 65,536 bytes wait.
    fn serve_all<W: Sink, D: Door<A>, G: Gate>(
        &mut self,
        writer: &mut W,
        tenants: &Tenants<A>,
        door: &mut D,
        gate: &G,
    ) -> Stop
        ensures goes { StepsTo D.answers tenants.now (Some result)
            door.old self.old
            (sent_of (W.contents writer.old) (W.failures writer.old) self.old.replies)
            door.new self.new
            (sent_of (W.contents writer.new) (W.failures writer.new) self.new.replies) }
        ensures same_borrow { W.borrow writer.new ≡ W.borrow writer.old }
    {
        loop {
            if let Some(stop) = self.step(tenants, door, gate) {
                return stop;
            }
            if self.replies.is_long() {
                self.replies.flush(writer);
            }
        }
    }

    /// Adds a piece of the stream. An `Err` changes nothing.
    pub fn feed(&mut self, piece: &[u8]) -> Result<(), AllocError>
        ensures ok { OnOk result ((talk_of self.new.conversation).unread
            ≡ (talk_of self.old.conversation).unread ++ piece.now) }
        ensures err { OnErr result (talk_of self.new.conversation ≡ talk_of self.old.conversation) }
        ensures tenant { (talk_of self.new.conversation).tenant
            ≡ (talk_of self.old.conversation).tenant }
        ensures same { self.new ≡ record self.old { conversation = self.new.conversation } }
    {
        self.conversation.feed(piece)
    }

    /// Whether bytes wait for the writer.
    pub fn is_waiting(&self) -> bool
        ensures { IsTrue result
            ↔ (0 < length (drop self.now.replies.passed self.now.replies.bytes.items)) }
    {
        self.replies.waiting() > 0
    }

    /// Whether a write has failed.
    pub fn has_failed(&self) -> bool
        ensures { result ≡ self.now.replies.has_failed }
    {
        self.replies.has_failed()
    }

    /// Writes what waits, as far as the writer takes it.
    pub fn send<W: NonblockingSink>(&mut self, writer: &mut W)
        ensures sent { StaysSent
            (sent_at (written_of (W.contents writer.old) (W.failures writer.old)) self.old.replies)
            (sent_at (written_of (W.contents writer.new) (W.failures writer.new))
            self.new.replies) }
        ensures same { self.new ≡ record self.old { replies = self.new.replies } }
    {
        self.replies.send(writer);
    }

    /// Serves messages until the conversation goes no further, or more than 65,536 bytes wait.
    pub fn serve_some<D: Door<A>, G: Gate>(
        &mut self,
        tenants: &Tenants<A>,
        door: &mut D,
        gate: &G,
    ) -> Option<Stop>
        ensures goes { (writer : Written) → StepsTo D.answers tenants.now result
            door.old self.old (sent_at writer self.old.replies)
            door.new self.new (sent_at writer self.new.replies) }
        ensures led { HasLed D.answers door.old door.new }
    {
        for _ in 0..STEPS {
            if self.replies.is_long() {
                return None;
            }
            if let Some(stop) = self.step(tenants, door, gate) {
                return Some(stop);
            }
        }
        None
    }

    /// Takes one step: asks the door for requests that were heard, or tells what came behind them, or hears the next
    /// ones. `None` where the conversation goes on.
    fn step<D: Door<A>, G: Gate>(
        &mut self,
        tenants: &Tenants<A>,
        door: &mut D,
        gate: &G,
    ) -> Option<Stop>
        ensures lighter { Lightens result self.old self.new }
        ensures goes { (writer : Written) → StepsTo D.answers tenants.now result
            door.old self.old (sent_at writer self.old.replies)
            door.new self.new (sent_at writer self.new.replies) }
        ensures led { HasLed D.answers door.old door.new }
    {
        if self.done < self.requests.len() {
            return self.ask(door, gate);
        }
        match self.end.take() {
            Some((reply, stop)) => self.tell(&reply, stop),
            None => self.hear_next(tenants, door, gate),
        }
    }

    /// Asks the door for the requests that were heard, as many as it answers together.
    fn ask<D: Door<A>, G: Gate>(&mut self, door: &mut D, gate: &G) -> Option<Stop>
        requires some { 0 < length (drop self.old.done self.old.requests.items) }
        ensures lighter { Lightens result self.old self.new }
        ensures goes { (entries : List Entry) (writer : Written) → StepsTo D.answers entries result
            door.old self.old (sent_at writer self.old.replies)
            door.new self.new (sent_at writer self.new.replies) }
        ensures led { HasLed D.answers door.old door.new }
    {
        self.told.clear();
        let left = &self.requests.as_slice()[self.done..];
        let first = door.call_all(self.alloc, left, &mut self.told);
        self.done += 1 + self.told.len();
        match self.add_all(gate, first) {
            Ok(()) => None,
            Err(_) => Some(Stop::NoMemory),
        }
    }

    /// Adds a reply, if there is one. Why the conversation goes no further then, if it doesn't.
    fn tell(&mut self, reply: &Option<Reply<A>>, stop: Option<Stop>) -> Option<Stop>
        ensures told { (writer : Written) → TellsOrStops (option_map reply_of reply.now) stop result
            (sent_at writer self.old.replies) (sent_at writer self.new.replies) }
        ensures same { self.new ≡ record self.old { replies = self.new.replies } }
    {
        match self.replies.add(reply) {
            Ok(()) => stop,
            Err(_) => Some(Stop::NoMemory),
        }
    }

    /// Hears the next messages that are whole: requests up to as many as there is room for, and what comes behind them.
    fn hear_next<D: Door<A>, G: Gate>(
        &mut self,
        tenants: &Tenants<A>,
        door: &mut D,
        gate: &G,
    ) -> Option<Stop>
        requires rested { IsRested self.old }
        ensures lighter { Lightens result self.old self.new }
        ensures goes { (writer : Written) → StepsTo D.answers tenants.now result
            door.old self.old (sent_at writer self.old.replies)
            door.new self.new (sent_at writer self.new.replies) }
        ensures led { HasLed D.answers door.old door.new }
    {
        self.reuse_words();
        self.done = 0;
        let _room = self.requests.reserve(PIPELINED);
        let _room = self.told.reserve(PIPELINED);
        let _room = self.words.reserve(PIPELINED);
        let end = self.hear_all(tenants, gate);
        if !self.requests.is_empty() {
            self.end = end;
            return None;
        }
        match end {
            Some((reply, stop)) => self.tell(&reply, stop),
            None => self.serve_one(tenants, door, gate),
        }
    }

    /// Keeps the words of the requests, whose memory can serve the next ones.
    fn reuse_words(&mut self)
        ensures talk { talk_of self.new.conversation ≡ talk_of self.old.conversation }
        ensures replies { self.new.replies ≡ self.old.replies }
        ensures done { self.new.done ≡ self.old.done }
        ensures end { self.new.end ≡ self.old.end }
        ensures none { self.new.requests.items ≡ [] }
    {
        for _ in 0..self.requests.len() {
            if let Some(request) = self.requests.pop() {
                self.keep_words(request.words);
            }
        }
        self.requests.clear();
    }

    /// Keeps words where there is room for them, and else hands them back.
    fn keep_words(&mut self, words: Words<A>)
        ensures talk { talk_of self.new.conversation ≡ talk_of self.old.conversation }
        ensures same { self.new ≡ record self.old {
          conversation = self.new.conversation;
          words = self.new.words;
        } }
    {
        if self.words.len() < self.words.capacity() {
            self.words.push_reserved(words);
        } else {
            self.conversation.reuse(words);
        }
    }

    /// Hands words that were kept back, for the next message.
    fn lend_words(&mut self)
        ensures talk { talk_of self.new.conversation ≡ talk_of self.old.conversation }
        ensures same { self.new ≡ record self.old {
          conversation = self.new.conversation;
          words = self.new.words;
        } }
    {
        if let Some(words) = self.words.pop() {
            self.conversation.reuse(words);
        }
    }

    /// Hears requests, for as many as there is room, and then what comes behind them, if that is none. The gate is passed for
    /// each request.
    fn hear_all<G: Gate>(
        &mut self,
        tenants: &Tenants<A>,
        gate: &G,
    ) -> Option<(Option<Reply<A>>, Option<Stop>)>
        requires { self.old.requests.items ≡ [] }
        ensures hears { HearsAll tenants.now self.new.requests.items result
            (talk_of self.old.conversation) (talk_of self.new.conversation) }
        ensures replies { self.new.replies ≡ self.old.replies }
        ensures done { self.new.done ≡ self.old.done }
        ensures end { self.new.end ≡ self.old.end }
    {
        while self.requests.len() < self.requests.capacity() {
            self.lend_words();
            match self.conversation.hear(self.alloc, tenants) {
                Heard::Told(told, stop) => return Some((told, stop)),
                Heard::Request(tenant, words) => {
                    gate.pass(Place::BeforeCall);
                    self.requests.push_reserved(Request { tenant, words });
                }
            }
        }
        None
    }

    /// Adds a reply, and those that the door gave with it. The gate is passed for each.
    fn add_all<G: Gate>(&mut self, gate: &G, first: Reply<A>) -> Result<(), AllocError>
        ensures ok { (writer : Written) → OnOk result (Sends
            (sent_at writer self.old.replies) (sent_at writer self.new.replies)
            (encodings (reply_of first ∷ map reply_of self.old.told.items))) }
        ensures err { (writer : Written) → OnErr result (SendsFront
            (sent_at writer self.old.replies) (sent_at writer self.new.replies)
            (reply_of first ∷ map reply_of self.old.told.items)) }
        ensures same { self.new ≡ record self.old { replies = self.new.replies } }
    {
        gate.pass(Place::Replied);
        self.replies.add_reply(&first)?;
        for i in 0..self.told.len() {
            gate.pass(Place::Replied);
            self.replies.add_reply(&self.told[i])?;
        }
        Ok(())
    }

    /// Serves the next message, if it is whole. `None` where the conversation goes on.
    fn serve_one<D: Door<A>, G: Gate>(
        &mut self,
        tenants: &Tenants<A>,
        door: &mut D,
        gate: &G,
    ) -> Option<Stop>
        requires rested { IsRested self.old }
        ensures lighter { Lightens result self.old self.new }
        ensures goes { (writer : Written) → StepsTo D.answers tenants.now result
            door.old self.old (sent_at writer self.old.replies)
            door.new self.new (sent_at writer self.new.replies) }
        ensures led { HasLed D.answers door.old door.new }
    {
        let (reply, stop) = self.turn(tenants, door, gate);
        self.tell(&reply, stop)
    }

    /// Hears what comes next, and asks the door where that is a request: what is told, and why the conversation goes no
    /// further, if it doesn't. The gate is passed before the call and after it.
    fn turn<D: Door<A>, G: Gate>(
        &mut self,
        tenants: &Tenants<A>,
        door: &mut D,
        gate: &G,
    ) -> (Option<Reply<A>>, Option<Stop>)
        ensures shorter { Shortens result.1 (talk_of self.old.conversation)
            (talk_of self.new.conversation) }
        ensures turns { Turns D.answers tenants.now (option_map reply_of result.0) result.1
            door.old (talk_of self.old.conversation) door.new (talk_of self.new.conversation) }
        ensures same { self.new ≡ record self.old { conversation = self.new.conversation } }
        ensures led { HasLed D.answers door.old door.new }
    {
        match self.conversation.hear(self.alloc, tenants) {
            Heard::Told(told, stop) => (told, stop),
            Heard::Request(tenant, words) => {
                gate.pass(Place::BeforeCall);
                let reply = door.call(self.alloc, tenant, &words);
                gate.pass(Place::Replied);
                self.conversation.reuse(words);
                (Some(reply), None)
            }
        }
    }
}

/// How a piece ended, once its replies were written or a write has failed.
pub(crate) fn outcome(stop: Stop, has_failed: bool) -> Option<Served>
    ensures { result ≡ outcome_of stop has_failed }
{
    match stop {
        Stop::NoMemory => Some(Served::NoMemory),
        _ if has_failed => Some(Served::WriteFailed),
        Stop::More => None,
        Stop::Quit => Some(Served::Quit),
        Stop::Faulted(fault) => Some(Served::Faulted(fault)),
    }
}
