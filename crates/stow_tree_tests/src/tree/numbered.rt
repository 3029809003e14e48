//! A tree that is put messages of rising numbers, as the service puts them.
ghost use Rattle.std.specs.Prelude.{◌≡◌, ◌<◌, ◌≤◌, [], ◌∷◌, IfOk, IfSome, IsTrue};
ghost use Rattle.stow_tree_model.specs.Messages.{value};
ghost use Rattle.stow_tree_model.specs.Operations.{outcome, value_in};
ghost use Rattle.stow_tree_model.specs.TreeMessage.{message_of};
ghost use Rattle.stow_tree_model.specs.Value.{IsValue};
ghost use Rattle.stow_dropping.specs.StowTree.TreeState.{tree_messages, HasBound};

use std::alloc::{AllocError, Allocator};
use stow_bytes::limits::VALUE_LIMIT;
use stow_dropping::stow_node::installed::Installed;
use stow_dropping::stow_node::pick::Pick;
use stow_dropping::stow_read::row::Row;
use stow_dropping::stow_tree::tree::Tree;
use stow_dropping::stow_tree::tree_shape::{LEAST_BUFFER, TreeShape};
use stow_merge::flush_job::FlushJob;
use stow_merge::flush_result::FlushResult;
use stow_merge::pins::Pins;
use stow_tree_model::message::Message;
use stow_tree_model::op::Op;
use stow_tree_model::plain::message;
use stow_tree_model::tenant_key::TenantKey;
use stow_tree_model::version_buf::VersionBuf;

/// The keys from one on and below another.
#[derive(Clone, Copy)]
pub(crate) struct Interval<'a> {
    pub(crate) from: TenantKey<'a>,
    pub(crate) to: TenantKey<'a>,
}

/// A tree, and the number of the last message that was put, 0 where there is none.
#[derive(Drop)]
pub(crate) struct Numbered<A: Allocator + Copy> {
    pub(crate) tree: Tree<A>,
    pub(crate) last: u64,
    pub(crate) ghost below: { HasBound (tree_messages tree) (λ _. last) },
    pub(crate) ghost room: { 2097152 ≤ tree.root.shape.buffer },
}

impl<A: Allocator + Copy> Numbered<A> {
    /// A tree of no messages. A size out of its range is told as want of memory.
    pub(crate) fn new(alloc: A, shape: TreeShape) -> Result<Numbered<A>, AllocError> {
        if shape.buffer < LEAST_BUFFER {
            return Err(AllocError);
        }
        match Tree::new(alloc, shape) {
            Ok(tree) => Ok(Numbered { tree, last: 0 }),
            Err(_) => Err(AllocError),
        }
    }

    /// Whether the key's value is within the limit once the message is put.
    fn is_short(&self, alloc: A, message: Message<'_>) -> Result<bool, AllocError>
        ensures { IfOk result (λ short. IsTrue short
            → IsValue (outcome (message_of message.entry).op
            (value_in (value (tree_messages self.now.tree) (message_of message.entry).key
            (message_of message.entry).number)))) }
    {
        let Op::Append(suffix) = message.op else {
            return Ok(true);
        };
        Ok(match self.tree.get(alloc, message.key, message.number)? {
            Some(found) => found.bytes().len() + suffix.len() <= VALUE_LIMIT,
            None => true,
        })
    }

    /// Puts a message of the next number. What can't be put is told as want of memory.
    pub(crate) fn put(
        &mut self,
        alloc: A,
        key: TenantKey<'_>,
        op: Op<'_>,
        pins: &Pins<A>,
    ) -> Result<(), AllocError> {
        let Some(made) = message(key, self.last.saturating_add(1), op) else {
            return Err(AllocError);
        };
        if !self.is_short(alloc, made)? {
            return Err(AllocError);
        }
        let mut place = self.tree.glance(key, self.last).place;
        self.tree.reserve_near(alloc, made, pins, &mut place)?;
        self.tree.put_near(made, place);
        self.last = made.number;
        Ok(())
    }

    /// Removes two keys with one number. What can't be put is told as want of memory.
    pub(crate) fn remove_both<'k>(
        &mut self,
        alloc: A,
        first: TenantKey<'k>,
        second: TenantKey<'k>,
        pins: &Pins<A>,
    ) -> Result<(), AllocError> {
        let number = self.last.saturating_add(1);
        if first.is_same(second) {
            return Err(AllocError);
        }
        let (Some(first), Some(second)) = (
            message(first, number, Op::Gone),
            message(second, number, Op::Gone),
        ) else {
            return Err(AllocError);
        };
        let messages = [first, second];
        self.tree.reserve(alloc, messages.as_slice(), pins)?;
        self.tree.put_all(messages.as_slice());
        self.last = first.number;
        Ok(())
    }

    /// The tree's `plan`.
    pub(crate) fn plan(
        &mut self,
        alloc: A,
        pins: &Pins<A>,
    ) -> Result<Option<FlushJob<A>>, AllocError> {
        self.tree.plan(alloc, pins, Pick::Fullest)
    }

    /// The tree's `install`.
    pub(crate) fn install(
        &mut self,
        alloc: A,
        merge: FlushResult<A>,
        pins: &Pins<A>,
    ) -> Result<Installed, (FlushResult<A>, AllocError)> {
        self.tree.install(alloc, merge, pins)
    }

    /// The tree's `versions`.
    pub(crate) fn versions(
        &mut self,
        alloc: A,
        key: TenantKey<'_>,
    ) -> Result<Vec<VersionBuf<A>, A>, AllocError> {
        self.tree.versions(alloc, key)
    }

    /// The tree's `range`.
    pub(crate) fn range(
        &self,
        alloc: A,
        interval: Interval<'_>,
        at: u64,
        count: usize,
    ) -> Result<Vec<Row<'_, A>, A>, AllocError> {
        self.tree
            .range(alloc, interval.from, interval.to, at, count)
    }

    /// Offers the leaves of a range's rows, as the service does.
    pub(crate) fn offer_range(
        &mut self,
        alloc: A,
        interval: Interval<'_>,
        at: u64,
        count: usize,
    ) -> Result<(), AllocError> {
        let rows = self.range(alloc, interval, at, count)?;
        let keys = self.tree.leaf_keys(alloc, rows.as_slice())?;
        drop(rows);
        for index in 0..keys.len() {
            self.offer(keys[index].as_key());
        }
        Ok(())
    }

    /// The tree's `offer`.
    pub(crate) fn offer(&mut self, key: TenantKey<'_>) {
        self.tree.offer(key);
    }

    /// The tree's `resize`.
    pub(crate) fn resize(&mut self, leaves: usize) -> Result<(), AllocError> {
        self.tree.resize(leaves)
    }
}
