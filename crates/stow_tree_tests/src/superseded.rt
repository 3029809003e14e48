//! A buffer without the messages that newer ones supersede, or without one of them.
use crate::keys::Keys;
use std::alloc::{AllocError, Allocator};
use std::test::Fail;
use stow_dropping::stow_superseded::hidden::drop_hidden;
use stow_dropping::stow_superseded::superseding::without_superseded;
use stow_merge::pins::Pins;
use stow_message::message_buf::MessageBuf;
use stow_message::place::Place;
use stow_refusing::{Plan, Refusing};
use stow_tree_model::op::Op;
use stow_tree_model::plain::message;

/// The bytes of the buffer's block.
const BYTES: usize = 400;

/// A buffer in which one key has nine values.
fn filled<A: Allocator + Copy>(alloc: A) -> Result<MessageBuf<A>, AllocError> {
    let keys = Keys::new(alloc, b"a")?;
    let mut buffer = MessageBuf::with_capacity(alloc, BYTES)?;
    for number in 1..10 {
        if let Some(made) = message(keys.at(0), number, Op::Put(b"x")) {
            if buffer.fits(made) && buffer.is_new(made) {
                buffer.push(made);
            }
        }
    }
    Ok(buffer)
}

/// How many messages stay under no pins, and their bytes.
fn stay<A: Allocator + Copy>(alloc: A, buffer: &MessageBuf<A>) -> Option<(usize, usize)> {
    if buffer.capacity() > BYTES {
        return None;
    }
    let fewer = without_superseded(alloc, buffer, &Pins::new(alloc))?;
    Some((fewer.len(), fewer.used()))
}

#[test]
fn one_message_of_a_key_stays(rt: HostRuntime) -> Result<(), Fail> {
    let heap = Refusing::new(rt.alloc());
    let buffer = filled(&heap)?;
    assert_eq!(rt; buffer.len(), 9);
    assert_eq!(rt; stay(&heap, &buffer), Some((1, 25)));
    heap.set(Plan::RefuseAt(0));
    assert_eq!(rt; stay(&heap, &buffer), None);
    Ok(())
}

/// The least bytes of a block whose slots may be young.
const LARGE: usize = 65_536;

const PUT: Op<'static> = Op::Put(b"x");

const APPEND: Op<'static> = Op::Append(b"x");

/// What one key is given; a number at which its tenant has a pin, 0 where it has none; whether its slots are ordered; of how many messages
/// the last but one is to go. Then whether it goes, how many messages are left, and their bytes.
type Row = (
    &'static [Op<'static>],
    u64,
    bool,
    usize,
    (bool, usize, usize),
);

const ROWS: [Row; 10] = [
    (&[PUT, PUT], 0, false, 2, (true, 1, 46)),
    (&[PUT, PUT], 2, false, 2, (true, 1, 46)),
    (&[PUT, PUT], 1, false, 2, (false, 2, 50)),
    (&[PUT, PUT], 0, true, 2, (false, 2, 50)),
    (&[PUT, PUT], 0, false, 1, (false, 2, 50)),
    (&[PUT, PUT], 0, false, 3, (false, 2, 50)),
    (&[PUT, Op::Gone], 0, false, 2, (true, 1, 45)),
    (&[PUT, APPEND], 0, false, 2, (false, 2, 50)),
    (&[APPEND, PUT], 0, false, 2, (true, 1, 46)),
    (&[PUT, APPEND, PUT], 0, false, 3, (true, 2, 71)),
];

/// The pins of tenant 1.
fn pins<A: Allocator + Copy>(alloc: A, number: u64) -> Result<Pins<A>, AllocError> {
    let mut pins = Pins::new(alloc);
    if number > 0 {
        pins.room(1)?;
        pins.add(1, number);
    }
    Ok(pins)
}

/// What becomes of a row.
fn left_of<A: Allocator + Copy>(
    alloc: A,
    (given, pin, is_ordered, count): (&[Op<'_>], u64, bool, usize),
) -> Result<(bool, usize, usize), AllocError> {
    let keys = Keys::new(alloc, b"a")?;
    let mut buffer = MessageBuf::with_capacity(alloc, LARGE)?;
    for i in 0..given.len() {
        if let Some(made) = message(keys.at(0), i as u64 + 1, given[i]) {
            if buffer.fits(made) && buffer.is_new(made) {
                buffer.push(made);
            }
        }
    }
    if is_ordered {
        buffer.settle();
    }
    let place = Place {
        count,
        young: count,
    };
    let did = drop_hidden(&mut buffer, &pins(alloc, pin)?, place);
    Ok((did, buffer.len(), buffer.used()))
}

#[test]
fn the_last_but_one_goes_where_it_is_hidden(rt: HostRuntime) -> Result<(), Fail> {
    let heap = Refusing::new(rt.alloc());
    for (given, pin, is_ordered, count, left) in ROWS {
        assert_eq!(rt; left_of(&heap, (given, pin, is_ordered, count))?, left);
    }
    Ok(())
}
