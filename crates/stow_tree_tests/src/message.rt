//! Worked rows of buffers, with every request for memory refused but those of making.
use crate::keys::Keys;
use std::alloc::{AllocError, Allocator};
use std::test::Fail;
use stow_message::message_buf::MessageBuf;
use stow_raw::raw_buf::RawBuf;
use stow_refusing::{Plan, Refusing};
use stow_tree_model::message::Message;
use stow_tree_model::op::Op;
use stow_tree_model::plain::message;
use stow_tree_model::tenant_key::TenantKey;

/// A put: the place of its key, four to a tenant, its number, and which value it has.
type Put = (usize, u64, u8);

/// The keys from a place on and below another.
type Places = (usize, usize);

fn value_of(put: Put) -> &'static [u8] {
    match put.2 {
        0 => b"",
        1 => b"x",
        2 => b"aa",
        3 => b"new",
        4 => b"not",
        _ => b"old",
    }
}

/// A call of one of three buffers, of which the third is the batch.
#[derive(Clone, Copy)]
enum Call {
    PutLeft(Put),
    PutRight(Put),
    PutBatch(Put),
    MoveRight(Places),
    DropRight(Places),
    Oldest,
    Take,
    Squeeze,
    ResetLeft,
    ResetBatch,
}

/// A call, whether it was carried out or what it told, and then how many messages and bytes in use the left buffer has,
/// and the right one.
type Row = (Call, bool, [usize; 4]);

/// Calls of buffers of 40 bytes and of none: one message is taken, and neither it nor another then.
const TIGHT: [Row; 4] = [
    (Call::PutLeft((0, 1, 1)), true, [1, 25, 0, 0]),
    (Call::PutLeft((0, 1, 1)), false, [1, 25, 0, 0]),
    (Call::PutLeft((1, 2, 0)), false, [1, 25, 0, 0]),
    (Call::PutRight((0, 1, 1)), false, [1, 25, 0, 0]),
];

/// Calls of buffers of 200 bytes: four messages of two tenants; a batch that is not all there, one that is and has not the
/// oldest, and one that has; an interval that moves and is dropped.
const WORKED: [Row; 25] = [
    (Call::PutLeft((4, 1, 2)), true, [1, 26, 0, 0]),
    (Call::PutLeft((1, 3, 3)), true, [2, 53, 0, 0]),
    (Call::PutLeft((0, 2, 2)), true, [3, 79, 0, 0]),
    (Call::PutLeft((1, 1, 5)), true, [4, 106, 0, 0]),
    (Call::Squeeze, true, [4, 106, 0, 0]),
    (Call::PutBatch((1, 3, 4)), true, [4, 106, 0, 0]),
    (Call::PutBatch((0, 2, 2)), true, [4, 106, 0, 0]),
    (Call::Oldest, false, [4, 106, 0, 0]),
    (Call::Take, false, [4, 106, 0, 0]),
    (Call::ResetBatch, true, [4, 106, 0, 0]),
    (Call::PutBatch((1, 3, 3)), true, [4, 106, 0, 0]),
    (Call::PutBatch((0, 2, 2)), true, [4, 106, 0, 0]),
    (Call::Oldest, false, [4, 106, 0, 0]),
    (Call::Take, true, [2, 98, 0, 0]),
    (Call::PutLeft((1, 3, 3)), true, [3, 125, 0, 0]),
    (Call::ResetBatch, true, [3, 125, 0, 0]),
    (Call::PutBatch((1, 1, 5)), true, [3, 125, 0, 0]),
    (Call::Oldest, true, [3, 125, 0, 0]),
    (Call::Take, true, [2, 121, 0, 0]),
    (Call::PutLeft((1, 1, 5)), true, [3, 148, 0, 0]),
    (Call::MoveRight((1, 4)), true, [1, 140, 2, 54]),
    (Call::DropRight((1, 4)), true, [1, 140, 0, 46]),
    (Call::Squeeze, true, [1, 26, 0, 0]),
    (Call::ResetLeft, true, [0, 0, 0, 0]),
    (Call::PutLeft((2, 9, 3)), true, [1, 27, 0, 0]),
];

/// Puts a message, where it fits and is new. Whether it did.
fn pushed<A: Allocator>(buf: &mut MessageBuf<A>, made: Message<'_>) -> bool {
    let may_push = buf.fits(made) && buf.is_new(made);
    if may_push {
        buf.push(made);
    }
    may_push
}

/// Puts a message, where it fits and is new. Whether it did.
fn put<A: Allocator, B: Allocator + Copy>(
    buf: &mut MessageBuf<A>,
    keys: &Keys<B>,
    put: Put,
) -> bool {
    match message(keys.at(put.0), put.1, Op::Put(value_of(put))) {
        Some(made) => pushed(buf, made),
        None => false,
    }
}

/// Moves the interval, where that may be.
pub(crate) fn moves<A: Allocator>(
    buf: &mut MessageBuf<A>,
    (from, to): (TenantKey<'_>, TenantKey<'_>),
    into: &mut MessageBuf<A>,
) -> bool {
    let may_move = buf.range_bytes(from, to) <= into.capacity() - into.used()
        && into.are_new(&buf.in_range(from, to));
    if may_move {
        buf.move_range(from, to, into);
    }
    may_move
}

/// Drops the dead bytes, where the spare block is large enough.
fn squeezed<A: Allocator>(buf: &mut MessageBuf<A>, spare: &mut RawBuf<A>) -> bool {
    let may_squeeze = buf.capacity() <= spare.capacity();
    if may_squeeze {
        buf.squeeze(spare);
    }
    may_squeeze
}

/// Two buffers.
#[derive(Drop)]
struct Pair<A: Allocator> {
    left: MessageBuf<A>,
    right: MessageBuf<A>,
}

fn pair_of<A: Allocator + Copy>(
    alloc: A,
    (left, right): (u16, u16),
) -> Result<Pair<A>, AllocError> {
    Ok(Pair {
        left: MessageBuf::with_capacity(alloc, usize::from(left))?,
        right: MessageBuf::with_capacity(alloc, usize::from(right))?,
    })
}

/// A batch and a spare block.
#[derive(Drop)]
struct Aside<A: Allocator> {
    batch: MessageBuf<A>,
    spare: RawBuf<A>,
}

fn aside_of<A: Allocator + Copy>(alloc: A, capacity: u16) -> Result<Aside<A>, AllocError> {
    Ok(Aside {
        batch: MessageBuf::with_capacity(alloc, 60)?,
        spare: RawBuf::with_capacity(alloc, usize::from(capacity))?,
    })
}

/// Two buffers, a batch, a spare block and the keys.
#[derive(Drop)]
struct All<A: Allocator> {
    pair: Pair<A>,
    aside: Aside<A>,
    keys: Keys<A>,
}

impl<A: Allocator + Copy> All<A> {
    fn new(alloc: A, capacities: (u16, u16)) -> Result<All<A>, AllocError> {
        let pair = pair_of(alloc, capacities)?;
        let aside = aside_of(alloc, capacities.0)?;
        let keys = Keys::new(alloc, b"abcd")?;
        Ok(All { pair, aside, keys })
    }

    /// Carries out a call. Whether it could be carried out, or what it told.
    fn call(&mut self, call: Call) -> bool {
        match call {
            Call::PutLeft(one) => put(&mut self.pair.left, &self.keys, one),
            Call::PutRight(one) => put(&mut self.pair.right, &self.keys, one),
            Call::PutBatch(one) => put(&mut self.aside.batch, &self.keys, one),
            Call::MoveRight((from, to)) => {
                let interval = (self.keys.at(from), self.keys.at(to));
                moves(&mut self.pair.left, interval, &mut self.pair.right)
            }
            Call::Oldest => self.pair.left.holds_oldest(&self.aside.batch),
            Call::Take => self.pair.left.take_out(&self.aside.batch),
            Call::Squeeze => {
                squeezed(&mut self.pair.left, &mut self.aside.spare)
                    && squeezed(&mut self.pair.right, &mut self.aside.spare)
            }
            Call::DropRight(places) => self.drop_right(places),
            Call::ResetLeft => self.reset_left(),
            Call::ResetBatch => self.reset_batch(),
        }
    }

    fn drop_right(&mut self, (from, to): Places) -> bool {
        self.pair
            .right
            .drop_range(self.keys.at(from), self.keys.at(to));
        true
    }

    fn reset_left(&mut self) -> bool {
        self.pair.left.reset();
        true
    }

    fn reset_batch(&mut self) -> bool {
        self.aside.batch.reset();
        true
    }

    /// How many rows come before the first that does not hold.
    fn work(&mut self, rows: &[Row]) -> usize {
        for i in 0..rows.len() {
            let (call, told, sizes) = rows[i];
            if self.call(call) != told || self.sizes() != sizes {
                return i;
            }
        }
        rows.len()
    }

    fn sizes(&self) -> [usize; 4] {
        let (left, right) = (&self.pair.left, &self.pair.right);
        [left.len(), left.used(), right.len(), right.used()]
    }

    /// Whether the left buffer lends its one message, by its key and by an interval.
    fn lends_one(&self) -> bool {
        let (from, to) = (self.keys.at(2), self.keys.at(3));
        let run = self.pair.left.in_range(from, to);
        run.len() == 1
            && run.get(0).number == 9
            && run.get(0).op.carried() == b"new".as_slice()
            && self.pair.left.range_bytes(from, to) == 27
            && self.pair.left.range_bytes_above(from, to, 26) == Some(27)
            && self.pair.left.range_bytes_above(from, to, 27).is_none()
            && self.pair.left.of_key(from).len() == 1
    }
}

/// How many rows hold in buffers of these capacities, whether the left one lends one message then, and how many requests that
/// makes.
fn held<A: Allocator + Copy, B: Allocator>(
    heap: &Refusing<B>,
    alloc: A,
    (capacities, rows): ((u16, u16), &[Row]),
) -> Result<(usize, bool, u64), AllocError> {
    heap.set(Plan::Grant);
    let mut all = All::new(alloc, capacities)?;
    heap.set(Plan::RefuseAll);
    Ok((all.work(rows), all.lends_one(), heap.asked()))
}

/// The capacities of two buffers.
pub(crate) fn capacities<A: Allocator + Copy>(alloc: A) -> Result<(usize, usize), AllocError> {
    let pair = pair_of(alloc, (200, 60))?;
    Ok((pair.left.capacity(), pair.right.capacity()))
}

#[test]
fn worked_calls(rt: HostRuntime) -> Result<(), Fail> {
    let heap = Refusing::new(rt.alloc());
    let tight = held(&heap, &heap, ((40, 0), &TIGHT))?;
    assert_eq!(rt; tight, (TIGHT.len(), false, 0));
    let worked = held(&heap, &heap, ((200, 200), &WORKED))?;
    assert_eq!(rt; worked, (WORKED.len(), true, 0));
    Ok(())
}
