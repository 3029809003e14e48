//! A tree under changes, beside the plain list of them.
use crate::keys::{Bound, Keys, TENANTS};
use crate::tree::numbered::{Interval, Numbered};
use std::alloc::{AllocError, Allocator};
use stow_dropping::stow_node::installed::Installed;
use stow_dropping::stow_read::found::Found;
use stow_dropping::stow_read::newest::Newest;
use stow_dropping::stow_read::row::Row;
use stow_dropping::stow_read::row_head::RowHead;
use stow_dropping::stow_read::start::Start;
use stow_dropping::stow_tree::tree_shape::TreeShape;
use stow_merge::flush_job::FlushJob;
use stow_merge::flush_result::FlushResult;
use stow_merge::pins::Pins;
use stow_testing::random::Random;
use stow_tree_model::message::Message;
use stow_tree_model::numbered_value::NumberedValue;
use stow_tree_model::op::Op;
use stow_tree_model::plain::{message, value_of_key};
use stow_tree_model::tenant_key::TenantKey;
use stow_tree_model::version_buf::VersionBuf;

/// How many places there are at which what a change carries may begin.
const PLACES: u32 = 1_000;

/// What is done to a key.
#[derive(Clone, Copy)]
pub(crate) enum Kind {
    Put,
    Gone,
    Append,
}

/// A message that was put, or is to be.
#[derive(Clone, Copy)]
struct Change {
    /// The place of its key.
    key: usize,
    number: u64,
    kind: Kind,
    /// Where what it carries begins among the bytes that all share, and how long it is.
    from: u32,
    len: u32,
}

impl Change {
    /// What it does, with what it carries lent from the shared bytes.
    fn op(self, bytes: &[u8]) -> Op<'_> {
        let rest = &bytes[bytes.len().min(self.from as usize)..];
        let carried = &rest[..rest.len().min(self.len as usize)];
        match self.kind {
            Kind::Put => Op::Put(carried),
            Kind::Gone => Op::Gone,
            Kind::Append => Op::Append(carried),
        }
    }
}

/// What a run is of.
#[derive(Clone, Copy)]
pub(crate) struct Course {
    pub(crate) shape: TreeShape,
    /// What the keys that each tenant has begin with, and what they end with, if more than that.
    pub(crate) letters: &'static [u8],
    pub(crate) tails: &'static [u8],
    /// Random values are shorter than this.
    pub(crate) longest: u32,
    /// How long the values are that only fill buffers, before each eighth random change, or 0 where there are none.
    pub(crate) filler: u32,
    /// The number of its source of random numbers.
    pub(crate) number: u64,
}

/// A tree under changes of some keys of three tenants, beside the plain list of them.
#[derive(Drop)]
pub(crate) struct Run<A: Allocator + Copy> {
    pub(crate) tree: Numbered<A>,
    pub(crate) pins: Pins<A>,
    pub(crate) keys: Keys<A>,
    bytes: Vec<u8, A>,
    changes: Vec<Change, A>,
    random: Random,
    course: Course,
}

/// A read of a tree.
#[derive(Clone, Copy)]
pub(crate) enum Read {
    Get,
    Versions,
    Range,
    Walk,
}

/// What fills buffers: a value of so many of these bytes, or a removal where it has none.
fn filler(bytes: &[u8], len: u32) -> Op<'_> {
    let carried = &bytes[..bytes.len().min(len as usize)];
    if carried.is_empty() {
        Op::Gone
    } else {
        Op::Put(carried)
    }
}

/// An interval of keys: from one on, or after it, and below another.
#[derive(Clone, Copy)]
pub(crate) struct Within {
    pub(crate) from: Bound,
    pub(crate) after: bool,
    pub(crate) to: Bound,
}

/// All keys of a tenant.
fn own(tenant: u32) -> Within {
    Within {
        from: Bound::Low(tenant),
        after: false,
        to: Bound::Low(tenant.saturating_add(1)),
    }
}

/// Twice as many random bytes as there are places.
fn random_bytes<A: Allocator>(alloc: A, random: &mut Random) -> Result<Vec<u8, A>, AllocError> {
    let mut bytes = Vec::new(alloc);
    for _ in 0..2 * PLACES {
        bytes.push(random.below(256) as u8)?;
    }
    Ok(bytes)
}

/// These bytes again and again.
fn repeated<A: Allocator>(alloc: A, block: &[u8]) -> Result<Vec<u8, A>, AllocError> {
    let mut bytes = Vec::new(alloc);
    for _ in 0..510u32 {
        bytes.extend_from_slice(block)?;
    }
    Ok(bytes)
}

/// What the newest of the versions up to a number has.
fn shown<A: Allocator>(versions: &[VersionBuf<A>], at: u64) -> Option<&[u8]> {
    let mut shown = None;
    for version in versions {
        if version.number <= at {
            shown = match &version.value {
                Some(value) => Some(value.as_slice()),
                None => None,
            };
        }
    }
    shown
}

/// Whether what was found has these bytes, or there is nothing.
fn has_bytes<A: Allocator>(found: &Option<Found<'_, A>>, bytes: Option<&[u8]>) -> bool {
    match (found, bytes) {
        (None, None) => true,
        (Some(found), Some(bytes)) => found.bytes() == bytes,
        _ => false,
    }
}

fn wanted_bytes<A: Allocator>(wanted: &Option<NumberedValue<A>>) -> Option<&[u8]> {
    match wanted {
        Some(wanted) => Some(wanted.value.as_slice()),
        None => None,
    }
}

/// Adds the message of a change to a key.
fn push_change<'a, A: Allocator>(
    messages: &mut Vec<Message<'a>, A>,
    key: TenantKey<'a>,
    change: Change,
    bytes: &'a [u8],
) -> Result<(), AllocError> {
    if let Some(made) = message(key, change.number, change.op(bytes)) {
        messages.push(made)?;
    }
    Ok(())
}

/// Whether these tell of the rows, in order.
fn are_heads<A: Allocator>(heads: &[RowHead<A>], rows: &[Row<'_, A>]) -> bool {
    let mut are = heads.len() == rows.len();
    for i in 0..rows.len() {
        are = are
            && i < heads.len()
            && heads[i].key.as_key().bytes == rows[i].key.bytes
            && heads[i].length as usize == rows[i].value.bytes().len();
    }
    are
}

impl<A: Allocator + Copy> Run<A> {
    /// No changes yet.
    pub(crate) fn new(alloc: A, course: Course) -> Result<Run<A>, AllocError> {
        let mut random = Random::new(course.number);
        Ok(Run {
            tree: Numbered::new(alloc, course.shape)?,
            pins: Pins::new(alloc),
            keys: Keys::tailed(alloc, course.letters, course.tails)?,
            bytes: repeated(alloc, random_bytes(alloc, &mut random)?.as_slice())?,
            changes: Vec::with_capacity(alloc, 4_000)?,
            random,
            course,
        })
    }

    /// How many keys there are.
    pub(crate) fn keys(&self) -> usize {
        self.keys.len()
    }

    /// Puts what is done to the key at a place, with so many of the bytes that all share, from a place on.
    fn put(
        &mut self,
        alloc: A,
        (kind, key): (Kind, usize),
        (from, len): (u32, u32),
    ) -> Result<(), AllocError> {
        let change = Change {
            key,
            number: self.tree.last.saturating_add(1),
            kind,
            from,
            len,
        };
        self.changes.reserve(1)?;
        let op = change.op(self.bytes.as_slice());
        self.tree.put(alloc, self.keys.at(key), op, &self.pins)?;
        self.changes.push(change)?;
        Ok(())
    }

    /// Puts what is done to the key at a place.
    pub(crate) fn change(
        &mut self,
        alloc: A,
        (kind, key, len): (Kind, usize, u32),
    ) -> Result<(), AllocError> {
        self.put(alloc, (kind, key), (0, len))
    }

    /// Fills buffers with a value of so many bytes under the key behind that at a place, or removes it where it has none. No
    /// one looks at this key, so the list doesn't have it.
    pub(crate) fn fill(&mut self, alloc: A, place: usize, len: u32) -> Result<(), AllocError> {
        let op = filler(self.bytes.as_slice(), len);
        self.tree
            .put(alloc, self.keys.behind(place), op, &self.pins)
    }

    /// Appends a few bytes to the key at a place, one after another.
    fn append_few(&mut self, alloc: A, place: usize) -> Result<(), AllocError> {
        for _ in 0..12u32 {
            self.change(alloc, (Kind::Append, place, 1))?;
        }
        Ok(())
    }

    /// The place of a random key.
    fn place(&mut self) -> usize {
        let count = self.keys.len();
        if count == 0 || count > 1_000 {
            return 0;
        }
        self.random.below(count as u32) as usize
    }

    /// Puts a random change.
    fn put_random(&mut self, alloc: A) -> Result<(), AllocError> {
        let (kind, longest) = match self.random.below(8) {
            0 => (Kind::Gone, 1),
            1 | 2 => (Kind::Append, 100),
            _ => (Kind::Put, self.course.longest.max(1)),
        };
        let key = self.place();
        let from = self.random.below(PLACES);
        let len = self.random.below(longest);
        self.put(alloc, (kind, key), (from, len))
    }

    /// Puts so many random changes, as pins come and go.
    pub(crate) fn go_on(&mut self, alloc: A, count: u32) -> Result<(), AllocError> {
        for turn in 0..count {
            if self.random.below(20) == 0 {
                self.move_pins()?;
            }
            if self.course.filler > 0 && turn % 8 == 0 {
                let place = self.place();
                self.fill(alloc, place, self.course.filler)?;
                self.fill(alloc, place, 0)?;
            }
            self.put_random(alloc)?;
        }
        Ok(())
    }

    /// How many leaves may be held at first.
    pub(crate) fn leaves(&self) -> usize {
        self.course.shape.cache as usize
    }

    /// A job, if a buffer holds a message.
    pub(crate) fn plan(&mut self, alloc: A) -> Result<Option<FlushJob<A>>, AllocError> {
        self.tree.plan(alloc, &self.pins)
    }

    /// Installs a result, which comes back where memory is refused.
    pub(crate) fn install(
        &mut self,
        alloc: A,
        merge: FlushResult<A>,
    ) -> Result<Installed, (FlushResult<A>, AllocError)> {
        self.tree.install(alloc, merge, &self.pins)
    }

    /// Plans, merges and installs at once. Whether there was a job whose result was done.
    pub(crate) fn flush(&mut self, alloc: A) -> Result<bool, AllocError> {
        let Some(job) = self.plan(alloc)? else {
            return Ok(false);
        };
        let result = match job.merge(alloc) {
            Ok(result) => result,
            Err((_, refused)) => return Err(refused),
        };
        match self.install(alloc, result) {
            Ok(installed) => Ok(installed == Installed::Done),
            Err((_, refused)) => Err(refused),
        }
    }

    /// Removes two keys with one number.
    pub(crate) fn remove_both(&mut self, alloc: A, first: usize) -> Result<(), AllocError> {
        let second = first.saturating_add(1);
        let (from, to) = (self.keys.at(first), self.keys.at(second));
        self.changes.reserve(2)?;
        self.tree.remove_both(alloc, from, to, &self.pins)?;
        for key in [first, second] {
            self.changes.push(Change {
                key,
                number: self.tree.last,
                kind: Kind::Gone,
                from: 0,
                len: 0,
            })?;
        }
        Ok(())
    }

    /// Removes each key but every twentieth, and fills buffers, if it is to be with messages most of which no newer one supersedes.
    pub(crate) fn remove_most(&mut self, alloc: A, appends: bool) -> Result<(), AllocError> {
        for place in 0..self.keys.len() {
            if place % 20 != 0 {
                self.fill(alloc, place, 16_000)?;
                self.fill(alloc, place, 0)?;
                self.change(alloc, (Kind::Gone, place, 0))?;
                if appends {
                    self.append_few(alloc, place - place % 20)?;
                }
            }
        }
        Ok(())
    }

    /// Adds a pin of a tenant at the last number, if there are few.
    pub(crate) fn pin(&mut self, tenant: u32) -> Result<(), AllocError> {
        self.pins.room(tenant)?;
        let last = self.tree.last;
        let held = self.pins.of(tenant);
        let mut fits = held.len() < 4;
        fits = fits && held.iter().all(|pin| *pin < last);
        if fits {
            self.pins.add(tenant, last);
        }
        Ok(())
    }

    /// Adds a pin of a tenant at the last number, or removes its first.
    fn move_pins(&mut self) -> Result<(), AllocError> {
        let tenant = 1 + self.random.below(TENANTS);
        if self.random.below(2) == 0 {
            return self.pin(tenant);
        }
        self.unpin_first(tenant);
        Ok(())
    }

    fn unpin_first(&mut self, tenant: u32) {
        if let Some(pin) = self.pins.of(tenant).first() {
            let pin = *pin;
            self.pins.remove(tenant, pin);
        }
    }

    /// Removes all pins, of which a tenant has four at most.
    pub(crate) fn unpin(&mut self) {
        for turn in 0..4 * TENANTS {
            self.unpin_first(1 + turn % TENANTS);
        }
    }

    /// Reads the key at a place, or all rows of the first tenant.
    pub(crate) fn read(&mut self, alloc: A, read: Read, place: usize) -> Result<(), AllocError> {
        let last = self.tree.last;
        match read {
            Read::Get => self.get(alloc, place)?,
            Read::Versions => self.tree.versions(alloc, self.keys.at(place))?.is_empty(),
            Read::Range => self.offer_rows(alloc, own(1), (last, 100))?,
            Read::Walk => self.heads(alloc, own(1), (last, 100))?.is_empty(),
        };
        Ok(())
    }

    /// Whether the key at a place has a value.
    fn is_there(&self, alloc: A, place: usize) -> Result<bool, AllocError> {
        let found = self
            .tree
            .tree
            .get(alloc, self.keys.at(place), self.tree.last)?;
        Ok(found.is_some())
    }

    /// Looks the key at a place up, and offers its leaf, as the service does.
    fn get(&mut self, alloc: A, place: usize) -> Result<bool, AllocError> {
        let is_there = self.is_there(alloc, place)?;
        self.tree.offer(self.keys.at(place));
        Ok(is_there)
    }

    /// The first rows of an interval.
    pub(crate) fn rows(
        &self,
        alloc: A,
        within: Within,
        (at, count): (u64, usize),
    ) -> Result<Vec<Row<'_, A>, A>, AllocError> {
        let interval = Interval {
            from: self.keys.bound(within.from),
            to: self.keys.bound(within.to),
        };
        self.tree.range(alloc, interval, at, count)
    }

    /// Reads the first rows of an interval, and offers their leaves.
    fn offer_rows(
        &mut self,
        alloc: A,
        within: Within,
        (at, count): (u64, usize),
    ) -> Result<bool, AllocError> {
        let interval = Interval {
            from: self.keys.bound(within.from),
            to: self.keys.bound(within.to),
        };
        self.tree.offer_range(alloc, interval, at, count)?;
        Ok(true)
    }

    /// What is told of the first rows of an interval.
    pub(crate) fn heads(
        &self,
        alloc: A,
        within: Within,
        (at, count): (u64, usize),
    ) -> Result<Vec<RowHead<A>, A>, AllocError> {
        let start = Start {
            key: self.keys.bound(within.from),
            after: within.after,
        };
        let to = self.keys.bound(within.to);
        self.tree.tree.walk(alloc, start, to, at, count)
    }

    /// The messages of the key at a place.
    fn messages<'a>(
        &'a self,
        alloc: A,
        place: usize,
        key: TenantKey<'a>,
    ) -> Result<Vec<Message<'a>, A>, AllocError> {
        let mut messages = Vec::new(alloc);
        for change in self.changes.as_slice() {
            if change.key == place {
                push_change(&mut messages, key, *change, self.bytes.as_slice())?;
            }
        }
        Ok(messages)
    }

    /// What the list gives the key at a place, at a number.
    fn plain_value(
        &self,
        alloc: A,
        place: usize,
        at: u64,
    ) -> Result<Option<NumberedValue<A>>, AllocError> {
        let key = self.keys.at(place);
        value_of_key(alloc, self.messages(alloc, place, key)?.as_slice(), key, at)
    }

    /// Whether a glance at the key at a place tells of the value that it has at a number, as far as it tells it.
    fn is_told(&self, place: usize, at: u64, value: Option<&[u8]>) -> bool {
        match (self.tree.tree.glance(self.keys.at(place), at).newest, value) {
            (Newest::Missing, None) => true,
            (Newest::Whole(head), Some(bytes)) => head.length as usize == bytes.len(),
            (Newest::Extended(number), Some(_)) => number <= at,
            _ => false,
        }
    }

    /// Whether the key at a place has what the list gives it at a number, by `get`, by its versions, and by `glance`.
    fn has_value(
        &self,
        alloc: A,
        versions: &[VersionBuf<A>],
        (place, at): (usize, u64),
    ) -> Result<bool, AllocError> {
        let wanted = self.plain_value(alloc, place, at)?;
        let found = self.tree.tree.get(alloc, self.keys.at(place), at)?;
        let bytes = wanted_bytes(&wanted);
        Ok(
            has_bytes(&found, bytes)
                && shown(versions, at) == bytes
                && self.is_told(place, at, bytes),
        )
    }

    /// A tenant's pin at a place, or the last number.
    fn number(&self, tenant: u32, place: usize) -> u64 {
        match self.pins.of(tenant).get(place) {
            Some(pin) => *pin,
            None => self.tree.last,
        }
    }

    /// Whether the key at a place has what the list gives it, at its tenant's pins and at the last number.
    pub(crate) fn is_key(&mut self, alloc: A, place: usize) -> Result<bool, AllocError> {
        let key = self.keys.at(place);
        let versions = self.tree.versions(alloc, key)?;
        let tenant = key.tenant();
        let pins = self.pins.of(tenant).len();
        for i in 0..=pins {
            let at = self.number(tenant, i);
            if !self.has_value(alloc, versions.as_slice(), (place, at))? {
                return Ok(false);
            }
        }
        Ok(true)
    }

    /// Whether the row is that of the key at a place, if the list gives that a value.
    fn is_row(
        &self,
        alloc: A,
        row: Option<&Row<'_, A>>,
        (place, at): (usize, u64),
    ) -> Result<Option<bool>, AllocError> {
        let key = self.keys.at(place);
        Ok(match (self.plain_value(alloc, place, at)?, row) {
            (None, _) => None,
            (Some(_), None) => Some(false),
            (Some(wanted), Some(row)) => Some(
                row.key.bytes == key.bytes && row.value.bytes() == wanted.value.as_slice(),
            ),
        })
    }

    /// Whether these are a tenant's first rows by the list, at a number.
    fn are_rows(
        &self,
        alloc: A,
        rows: &[Row<'_, A>],
        (tenant, at, count): (u32, u64, usize),
    ) -> Result<bool, AllocError> {
        let mut next = 0usize;
        for place in 0..self.keys.len() {
            if self.keys.at(place).tenant() == tenant && next < count {
                match self.is_row(alloc, rows.get(next), (place, at))? {
                    None => {}
                    Some(true) => next = next.saturating_add(1),
                    Some(false) => return Ok(false),
                }
            }
        }
        Ok(next == rows.len())
    }

    /// Whether a tenant's first rows at a number are those of the list, and a walk tells of the same.
    fn is_range(
        &mut self,
        alloc: A,
        tenant: u32,
        (at, count): (u64, usize),
    ) -> Result<bool, AllocError> {
        let rows = self.rows(alloc, own(tenant), (at, count))?;
        Ok(
            self.are_rows(alloc, rows.as_slice(), (tenant, at, count))?
                && are_heads(
                    self.heads(alloc, own(tenant), (at, count))?.as_slice(),
                    rows.as_slice(),
                ),
        )
    }

    /// Whether the tree tells what the list does, of each key and of each tenant's rows.
    pub(crate) fn agrees(&mut self, alloc: A) -> Result<bool, AllocError> {
        for place in 0..self.keys.len() {
            if !self.is_key(alloc, place)? {
                return Ok(false);
            }
        }
        for tenant in 1..=TENANTS {
            let (first, last) = (self.number(tenant, 0), self.tree.last);
            if !self.is_range(alloc, tenant, (first, 9))?
                || !self.is_range(alloc, tenant, (last, 1_000))?
            {
                return Ok(false);
            }
        }
        Ok(true)
    }
}
