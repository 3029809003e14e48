//! The house: connections and flushers, and the store that they share.
ghost use Rattle.std.specs.BTreeMap.{get};
ghost use Rattle.std.specs.Ordering.{nat_cmp};
ghost use Rattle.std.specs.Prelude.{◌≡◌, ◌≢◌, ℕ, [], IfOk, IfErr, IsSome, OnOk, OnErr, ◌<◌, length};
ghost use Rattle.stow_model.specs.Event as meant;
ghost use Rattle.stow_model.specs.Event.{event_of};
ghost use Rattle.stow_house.specs.Flushers.{Free, flusher_at};
ghost use Rattle.stow_house.specs.Seen.{never_opened, just_opened, seen_at};
ghost use Rattle.stow_house.specs.StepResult.{step_result_of, MayAnswer, CanAnswer, CanAnswerOn, CanAnswerOrder};
ghost use Rattle.stow_house.specs.Connections.{meaning};
ghost use Rattle.stow_house.specs.Outputs.{connection_of};

use crate::connection::Connection;
use crate::connection_event::ConnectionEvent;
use crate::flusher::Flusher;
use crate::outputs::Outputs;
use crate::run_fault::RunFault;
use crate::step_result::StepResult;
use std::alloc::{AllocError, Allocator, Global};
use std::collections::BTreeMap;
use stow_bytes::limits::{CACHE_LIMIT, NUMBER_LIMIT};
use stow_core::Core;
use stow_model::event::Event;

/// The most leaves that the cache can be asked to hold.
const MOST_LEAVES: usize = CACHE_LIMIT as usize;

/// The connections, the flushers, and the store that they share.
#[derive(Drop)]
pub struct House<A: Allocator + Copy = Global> {
    connections: BTreeMap<u32, Connection<A>, A>,
    /// A flusher without a place here has no job.
    flushers: BTreeMap<u32, Flusher<A>, A>,
    core: Core<A>,
}

impl<A: Allocator + Copy> House<A> {
    ghost use Rattle.stow_core.specs.State.{IsNewCore};
    ghost use Rattle.stow_house.specs.Steps.{state_of, Stands, Steps};
    ghost use Rattle.stow_house.specs.Runs.{IsNewHouse, Ran, RanUntil};

    /// A house in which nothing has happened.
    pub fn new(alloc: A, core: Core<A>) -> House<A>
        ensures core { (state_of result).core ≡ core }
        ensures connections { (c : ℕ) → (state_of result).seen c ≡ never_opened }
        ensures flushers { (f : ℕ) → (state_of result).flusher f ≡ Free }
        ensures stands { IsNewCore core → Stands core.entries (state_of result) [] }
    {
        House {
            connections: BTreeMap::new(alloc),
            flushers: BTreeMap::new(alloc),
            core,
        }
    }

    /// The store that the connections share.
    pub fn core(&self) -> &Core<A>
        ensures { result.now ≡ (state_of self.now).core }
    {
        &self.core
    }

    /// Runs events on a new house. Each event is a step, and is marked by its answer; what each tenant uses then is what
    /// its own run, alone, uses. At an `Err` the first `done` events took place, and nothing more.
    pub fn run(&mut self, alloc: A, events: &[Event<A>]) -> Result<Outputs<A>, RunFault<A>>
        requires { IsNewHouse (state_of self.old) }
        ensures ok { IfOk result (λ outputs. Ran self.old events.now outputs self.new) }
        ensures err { IfErr result (λ f. RanUntil f.done self.old events.now f.outputs self.new) }
        ensures done { IfErr result (λ fault. fault.done < length events.now) }
    {
        let mut outputs = Outputs::new(alloc);
        for (done, event) in events.iter().enumerate() {
            if outputs.reserve().is_err() {
                return Err(RunFault { outputs, done });
            }
            let result = self.step(alloc, event);
            outputs.add(connection_of(event), result);
        }
        Ok(outputs)
    }

    /// One event: one step, by which each history at which the house stands goes on.
    pub fn step(&mut self, alloc: A, event: &Event<A>) -> StepResult<A>
        ensures possible { CanAnswer (event_of event.now) (step_result_of result) }
        ensures steps { Steps self.old (event_of event.now) result self.new }
    {
        match event {
            Event::Open(c) => self.open(alloc, *c),
            Event::Piece(c, bytes) => self.feed(alloc, *c, bytes.as_slice()),
            Event::Serve(c) => self.on(alloc, *c, ConnectionEvent::Serve),
            Event::Close(c) => self.on(alloc, *c, ConnectionEvent::Close),
            Event::Plan(f) => self.plan(alloc, *f),
            Event::Merge(f) => self.merge(alloc, *f),
            Event::Install(f) => self.install(alloc, *f),
            Event::Resize(leaves) => self.resize(*leaves),
            Event::Quota(tenant, quota) => self.set_quota(*tenant, *quota),
        }
    }

    /// The event of a piece of a connection's stream, whose bytes are lent.
    pub fn feed(&mut self, alloc: A, c: u32, bytes: &[u8]) -> StepResult<A>
        ensures possible { CanAnswerOn (meant.Piece bytes.now) (step_result_of result) }
        ensures steps { Steps self.old (meant.On c (meant.Piece bytes.now)) result self.new }
    {
        self.on(alloc, c, ConnectionEvent::Piece(bytes))
    }

    fn open(&mut self, alloc: A, c: u32) -> StepResult<A>
        ensures possible { CanAnswerOn meant.Open (step_result_of result) }
        ensures steps { Steps self.old (meant.On c meant.Open) result self.new }
    {
        if self.connections.contains_key(&c) {
            return StepResult::Refused;
        }
        match open_at(&mut self.connections, alloc, c) {
            Ok(()) => StepResult::Done,
            Err(_) => StepResult::NoMemory,
        }
    }

    /// A flusher's plan. Its place is got before memory is asked of the core.
    fn plan(&mut self, alloc: A, f: u32) -> StepResult<A>
        ensures possible { MayAnswer (meant.Plan f) (step_result_of result) }
        ensures steps { Steps self.old (meant.By (meant.Plan f)) result self.new }
    {
        let Ok(()) = make_place(&mut self.flushers, f) else {
            return StepResult::NoMemory;
        };
        match self.flushers.get_mut(&f) {
            Some(flusher) => flusher.plan(alloc, &mut self.core),
            None => unreachable!(),
        }
    }

    fn merge(&mut self, alloc: A, f: u32) -> StepResult<A>
        ensures possible { MayAnswer (meant.Merge f) (step_result_of result) }
        ensures steps { Steps self.old (meant.By (meant.Merge f)) result self.new }
    {
        match self.flushers.get_mut(&f) {
            Some(flusher) => flusher.merge(alloc),
            None => StepResult::Refused,
        }
    }

    fn install(&mut self, alloc: A, f: u32) -> StepResult<A>
        ensures possible { MayAnswer (meant.Install f) (step_result_of result) }
        ensures steps { Steps self.old (meant.By (meant.Install f)) result self.new }
    {
        match self.flushers.get_mut(&f) {
            Some(flusher) => flusher.install(alloc, &mut self.core),
            None => StepResult::Refused,
        }
    }

    /// Another size of the core's cache, up to the limit.
    fn resize(&mut self, leaves: usize) -> StepResult<A>
        ensures possible { MayAnswer (meant.Resize leaves) (step_result_of result) }
        ensures steps { Steps self.old (meant.By (meant.Resize leaves)) result self.new }
    {
        if leaves > MOST_LEAVES {
            return StepResult::Refused;
        }
        match self.core.resize(leaves) {
            Ok(()) => StepResult::Done,
            Err(_) => StepResult::NoMemory,
        }
    }

    /// Another quota of a tenant's, in bytes. It is refused where the number is no tenant's and where the quota is
    /// above the limit of numbers. It takes no memory.
    fn set_quota(&mut self, tenant: u32, quota: u64) -> StepResult<A>
        ensures possible { CanAnswerOrder (step_result_of result) }
        ensures steps { Steps self.old (meant.SetQuota tenant quota) result self.new }
    {
        if tenant == 0 || tenant > self.core.tenants().count() || quota > NUMBER_LIMIT {
            return StepResult::Refused;
        }
        self.core.set_quota(tenant, quota);
        StepResult::Done
    }

    /// An event on a connection of this number, if it was opened.
    fn on(&mut self, alloc: A, c: u32, event: ConnectionEvent<'_>) -> StepResult<A>
        ensures possible { CanAnswerOn (meaning event.entry) (step_result_of result) }
        ensures steps { Steps self.old (meant.On c (meaning event.entry)) result self.new }
    {
        match self.connections.get_mut(&c) {
            Some(connection) => connection.step(alloc, &mut self.core, event),
            None => StepResult::Refused,
        }
    }
}

/// Opens the connection of a number that was never opened.
fn open_at<A: Allocator + Copy>(
    connections: &mut BTreeMap<u32, Connection<A>, A>,
    alloc: A,
    c: u32,
) -> Result<(), AllocError>
    requires { seen_at connections.old c ≡ never_opened }
    ensures ok { OnOk result (seen_at connections.new c ≡ just_opened) }
    ensures err { OnErr result (seen_at connections.new c ≡ never_opened) }
    ensures others { (d : ℕ) → d ≢ c → seen_at connections.new d ≡ seen_at connections.old d }
{
    connections.insert(c, Connection::new(alloc))?;
    Ok(())
}

/// Makes a place for what a flusher has, unless it has one.
fn make_place<A: Allocator + Copy>(
    flushers: &mut BTreeMap<u32, Flusher<A>, A>,
    f: u32,
) -> Result<(), AllocError>
    ensures same { (g : ℕ) → flusher_at flushers.new g ≡ flusher_at flushers.old g }
    ensures ok { OnOk result (IsSome (get nat_cmp flushers.new f)) }
    ensures err { OnErr result (flusher_at flushers.old f ≡ Free) }
{
    if !flushers.contains_key(&f) {
        flushers.insert(f, Flusher::Idle)?;
    }
    Ok(())
}

/// The connection that the event is of. An event of a flusher or of the operator tells nobody anything.
fn connection_of<A: Allocator>(event: &Event<A>) -> u32
    ensures { result ≡ connection_of (event_of event.now) }
{
    match event {
        Event::Open(c) => *c,
        Event::Piece(c, _) => *c,
        Event::Serve(c) => *c,
        Event::Close(c) => *c,
        _ => 0,
    }
}
