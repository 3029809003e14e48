//! Words of keys where messages are short, with memory for more of them and without.
use crate::keys::Keys;
use crate::message::moves;
use std::alloc::{AllocError, Allocator};
use std::test::Fail;
use stow_message::message_buf::MessageBuf;
use stow_refusing::{Plan, Refusing};
use stow_tree_model::op::Op;
use stow_tree_model::plain::message;

/// The bytes of the buffer's block: there are 682 words in the beginning.
const BYTES: usize = 65_536;

/// How many messages of 25 bytes come.
const MESSAGES: u64 = 1_200;

/// Whether memory for words is given, and how many requests are made: one for all of them, or one before each message but the first.
const PLANS: [(Plan, u64); 2] = [(Plan::Grant, 1), (Plan::RefuseAll, MESSAGES - 1)];

/// Puts a key's messages, with words for each. How many there are, and their bytes.
fn fill<A: Allocator, B: Allocator + Copy>(
    buffer: &mut MessageBuf<A>,
    keys: &Keys<B>,
) -> (usize, usize) {
    for number in 1..MESSAGES + 1 {
        if let Some(made) = message(keys.at(0), number, Op::Put(b"x")) {
            buffer.widen(25);
            if buffer.fits(made) && buffer.is_new(made) {
                buffer.push(made);
            }
        }
    }
    (buffer.len(), buffer.used())
}

/// How many messages there are then, and their bytes; how many stand below one in their middle; and how many requests were made.
fn counts<A: Allocator, B: Allocator + Copy>(
    heap: &Refusing<A>,
    alloc: B,
    plan: Plan,
) -> Result<(usize, usize, usize, u64), AllocError> {
    heap.set(Plan::Grant);
    let keys = Keys::new(alloc, b"a")?;
    let mut buffer = MessageBuf::with_capacity(alloc, BYTES)?;
    heap.set(plan);
    let (len, used) = fill(&mut buffer, &keys);
    let below = buffer.count_below(keys.at(0), 601, usize::MAX);
    Ok((len, used, below, heap.asked()))
}

/// Whether all messages of a buffer move into an empty one, how many there are then, how many stand below one in their middle, and
/// how many requests were made.
fn moved<A: Allocator, B: Allocator + Copy>(
    heap: &Refusing<A>,
    alloc: B,
    plan: Plan,
) -> Result<(bool, usize, usize, u64), AllocError> {
    heap.set(Plan::Grant);
    let keys = Keys::new(alloc, b"a")?;
    let mut buffer = MessageBuf::with_capacity(alloc, BYTES)?;
    let mut into = MessageBuf::with_capacity(alloc, BYTES)?;
    fill(&mut buffer, &keys);
    heap.set(plan);
    let is_moved = moves(&mut buffer, (keys.low(0), keys.low(2)), &mut into);
    let below = into.count_below(keys.at(0), 601, usize::MAX);
    Ok((is_moved, into.len(), below, heap.asked()))
}

#[test]
fn short_messages_have_words(rt: HostRuntime) -> Result<(), Fail> {
    let heap = Refusing::new(rt.alloc());
    for (plan, asked) in PLANS {
        assert_eq!(rt; counts(&heap, &heap, plan)?, (1_200, 30_000, 600, asked));
        assert_eq!(rt; moved(&heap, &heap, plan)?, (true, 1_200, 600, 1));
    }
    Ok(())
}
