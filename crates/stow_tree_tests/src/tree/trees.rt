//! Two trees, and the jobs and results between them.
use crate::tree::run::{Course, Kind, Read, Run};
use std::alloc::{AllocError, Allocator};
use stow_dropping::stow_node::installed::Installed;
use stow_dropping::stow_tree::shape_report::ShapeReport;
use stow_merge::fitting::is_mergeable;
use stow_merge::flush_job::FlushJob;
use stow_merge::flush_result::FlushResult;
use stow_page::page::pack;
use stow_testing::random::Random;

/// A call of one of two trees, at first of that here, which is the one that results come into. Keys are told by their places.
#[derive(Clone, Copy)]
pub(crate) enum Call {
    /// From now on the other tree is called, or that here again.
    There,
    Here,
    /// So many random changes, as pins come and go.
    Random(u32),
    /// A value of so many bytes.
    Put(usize, u32),
    /// A value of so many bytes for each key.
    PutAll(u32),
    /// The same from the last key down, each drained before the next.
    PutDown(u32),
    Gone(usize),
    /// Removals of the keys from one on and before another.
    GoneFrom(usize, usize),
    /// This key and the next one are removed with one number.
    GoneBoth(usize),
    /// A byte more, so often.
    Append(usize, u32),
    /// So often all keys but few are removed, and buffers filled; then all jobs are installed, where they are to be.
    Shrink(u32, bool),
    /// So many bytes under the key behind this one, or its removal.
    Fill(usize, u32),
    /// A pin of a tenant at the last number.
    Pin(u32),
    Unpin,
    /// A job.
    Plan,
    /// Its result waits then.
    Merge,
    /// The waiting result at this place comes, if there is one.
    Install(usize),
    /// Plans, merges and installs until no buffer holds a message.
    Drain,
    /// So many random changes, jobs and installs in both trees.
    Late(u32),
    Read(Read, usize),
    Resize(usize),
    Want(Want),
}

/// What is wanted of the tree that is called.
#[derive(Clone, Copy)]
pub(crate) enum Want {
    /// It tells what the list does.
    Agrees,
    /// Its levels, leaves and buffered messages.
    Sizes(u64, u64, u64),
    /// So many levels and leaves at least: it has grown.
    Grown(u64, u64),
    /// The same levels, and one of so many leaves at most.
    Shrunk(u64),
    /// How many leaves are held, at least and at most.
    Cached(u64, u64),
    /// How many results were done, and how many stale.
    Came(u32, u32),
    /// Some results were done, and some stale.
    Both,
    /// The first byte of the one page of the last result that waits.
    Format(u8),
}

/// A tree that has not grown.
const NONE: ShapeReport = ShapeReport {
    height: 0,
    leaves: 0,
    buffered: 0,
    cached: 0,
};

#[derive(Drop)]
pub(crate) struct Trees<A: Allocator + Copy> {
    here: Run<A>,
    there: Run<A>,
    is_there: bool,
    job: Option<FlushJob<A>>,
    results: Vec<FlushResult<A>, A>,
    done: u32,
    stale: u32,
    grown: ShapeReport,
    random: Random,
}

impl<A: Allocator + Copy> Trees<A> {
    pub(crate) fn new(alloc: A, (here, there): (Course, Course)) -> Result<Trees<A>, AllocError> {
        let here = Run::new(alloc, here)?;
        let there = Run::new(alloc, there)?;
        Ok(Trees {
            here,
            there,
            is_there: false,
            job: None,
            results: Vec::new(alloc),
            done: 0,
            stale: 0,
            grown: NONE,
            random: Random::new(5),
        })
    }

    fn called(&mut self) -> &mut Run<A> {
        if self.is_there {
            &mut self.there
        } else {
            &mut self.here
        }
    }

    pub(crate) fn shape(&mut self) -> ShapeReport {
        self.called().tree.tree.shape()
    }

    /// Carries out a call. Whether what is wanted of it holds.
    pub(crate) fn call(&mut self, alloc: A, call: Call) -> Result<bool, AllocError> {
        match call {
            Call::There => self.is_there = true,
            Call::Here => self.is_there = false,
            Call::Random(count) => self.called().go_on(alloc, count)?,
            Call::Put(key, len) => self.called().change(alloc, (Kind::Put, key, len))?,
            Call::PutAll(len) => self.put_all(alloc, len)?,
            Call::PutDown(len) => return self.put_down(alloc, len),
            Call::Gone(key) => self.called().change(alloc, (Kind::Gone, key, 0))?,
            Call::GoneFrom(from, to) => self.gone_from(alloc, from, to)?,
            Call::GoneBoth(first) => self.called().remove_both(alloc, first)?,
            Call::Append(key, count) => self.append(alloc, key, count)?,
            Call::Shrink(rounds, drains) => return self.shrink(alloc, rounds, drains),
            Call::Fill(key, len) => self.called().fill(alloc, key, len)?,
            Call::Pin(tenant) => self.called().pin(tenant)?,
            Call::Unpin => self.called().unpin(),
            Call::Plan => self.plan(alloc)?,
            Call::Merge => return self.merge(alloc),
            Call::Install(place) => self.install(alloc, place)?,
            Call::Drain => return self.drain(alloc),
            Call::Late(count) => return self.late(alloc, count),
            Call::Read(read, key) => self.called().read(alloc, read, key)?,
            Call::Resize(leaves) => self.called().tree.resize(leaves)?,
            Call::Want(want) => return self.is(alloc, want),
        }
        Ok(true)
    }

    /// How many of the calls come before the first of which not holds what is wanted.
    pub(crate) fn call_all(&mut self, alloc: A, calls: &[Call]) -> Result<usize, AllocError> {
        for i in 0..calls.len() {
            if !self.call(alloc, calls[i])? {
                return Ok(i);
            }
        }
        Ok(calls.len())
    }

    fn put_all(&mut self, alloc: A, len: u32) -> Result<(), AllocError> {
        for key in 0..self.called().keys() {
            self.called().change(alloc, (Kind::Put, key, len))?;
        }
        Ok(())
    }

    fn put_down(&mut self, alloc: A, len: u32) -> Result<bool, AllocError> {
        for key in (0..self.called().keys()).rev() {
            self.called().change(alloc, (Kind::Put, key, len))?;
            if !self.drain(alloc)? {
                return Ok(false);
            }
        }
        Ok(true)
    }

    fn gone_from(&mut self, alloc: A, from: usize, to: usize) -> Result<(), AllocError> {
        for key in from..to {
            self.called().change(alloc, (Kind::Gone, key, 0))?;
        }
        Ok(())
    }

    fn append(&mut self, alloc: A, key: usize, count: u32) -> Result<(), AllocError> {
        for _ in 0..count {
            self.called().change(alloc, (Kind::Append, key, 1))?;
        }
        Ok(())
    }

    fn shrink(&mut self, alloc: A, rounds: u32, drains: bool) -> Result<bool, AllocError> {
        for _ in 0..rounds {
            self.called().remove_most(alloc, !drains)?;
            if drains && !self.drain(alloc)? {
                return Ok(false);
            }
        }
        Ok(true)
    }

    fn plan(&mut self, alloc: A) -> Result<(), AllocError> {
        self.job = self.called().plan(alloc)?;
        Ok(())
    }

    /// Merges the job, if there is one. Where memory is refused it stays.
    fn merge(&mut self, alloc: A) -> Result<bool, AllocError> {
        self.results.reserve(1)?;
        if let Some(job) = &self.job {
            if !is_mergeable(alloc, &job.page, &job.batch, &job.pins)? {
                return Ok(false);
            }
        }
        match self.job.take() {
            None => Ok(true),
            Some(job) => self.merge_job(alloc, job),
        }
    }

    fn merge_job(&mut self, alloc: A, job: FlushJob<A>) -> Result<bool, AllocError> {
        match job.merge(alloc) {
            Ok(result) => {
                self.results.push(result)?;
                Ok(true)
            }
            Err((job, refused)) => {
                self.job = Some(job);
                Err(refused)
            }
        }
    }

    /// Installs the result at a place here, if there is one. Where memory is refused it waits on.
    fn install(&mut self, alloc: A, place: usize) -> Result<(), AllocError> {
        if place >= self.results.len() {
            return Ok(());
        }
        let result = self.results.swap_remove(place);
        match self.here.install(alloc, result) {
            Ok(Installed::Done) => self.done = self.done.saturating_add(1),
            Ok(Installed::Stale) => self.stale = self.stale.saturating_add(1),
            Err((result, refused)) => {
                self.results.push(result)?;
                return Err(refused);
            }
        }
        Ok(())
    }

    /// Whether it comes to an end.
    fn drain(&mut self, alloc: A) -> Result<bool, AllocError> {
        for _ in 0..10_000u32 {
            if !self.called().flush(alloc)? {
                return Ok(true);
            }
        }
        Ok(false)
    }

    fn late(&mut self, alloc: A, count: u32) -> Result<bool, AllocError> {
        for turn in 0..count {
            self.is_there = self.random.below(2) == 0;
            self.come_late(alloc)?;
            if turn % 4 == 0 && !self.called().agrees(alloc)? {
                return Ok(false);
            }
        }
        self.is_there = false;
        Ok(true)
    }

    fn come_late(&mut self, alloc: A) -> Result<(), AllocError> {
        match self.random.below(6) {
            0 | 1 => self.called().go_on(alloc, 8)?,
            2 | 3 => {
                self.plan(alloc)?;
                self.merge(alloc)?;
            }
            _ => {
                let place = self.random.below(4) as usize;
                self.install(alloc, place)?;
            }
        }
        Ok(())
    }

    fn is(&mut self, alloc: A, want: Want) -> Result<bool, AllocError> {
        let shape = self.shape();
        Ok(match want {
            Want::Agrees => return self.called().agrees(alloc),
            Want::Sizes(height, leaves, buffered) => {
                (shape.height, shape.leaves, shape.buffered) == (height, leaves, buffered)
            }
            Want::Grown(height, leaves) => {
                self.grown = shape;
                shape.height >= height && shape.leaves >= leaves
            }
            Want::Shrunk(part) => {
                shape.height == self.grown.height && shape.leaves <= self.grown.leaves / part.max(1)
            }
            Want::Cached(least, most) => least <= shape.cached && shape.cached <= most,
            Want::Came(done, stale) => (self.done, self.stale) == (done, stale),
            Want::Both => self.done >= 1 && self.stale >= 1,
            Want::Format(byte) => return self.has_format(byte),
        })
    }

    fn has_format(&self, byte: u8) -> Result<bool, AllocError> {
        Ok(match self.results.last() {
            None => false,
            Some(result) => match result.pages.as_slice() {
                [rows] => pack(rows)?.as_bytes().first().copied() == Some(byte),
                _ => false,
            },
        })
    }

    /// Holds no leaf.
    pub(crate) fn forget(&mut self) -> Result<(), AllocError> {
        let leaves = self.here.leaves();
        self.here.tree.resize(0)?;
        self.here.tree.resize(leaves)
    }

    /// Whether the tree here tells of the key at a place what the list does, and of each sixty-fourth time of all.
    pub(crate) fn stands(&mut self, alloc: A, time: u64) -> Result<bool, AllocError> {
        if time % 64 == 0 {
            return self.here.agrees(alloc);
        }
        let keys = self.here.keys().max(1) as u64;
        self.here.is_key(alloc, (time % keys) as usize)
    }
}
