//! That a line is spelled as the RESP specification spells an array of bulk strings.
use std::alloc::{AllocError, Allocator};
use std::test::Fail;
use stow_testing::many::{Exchange, reads, writes};
use stow_testing::random::Random;
use stow_testing::rows::{asked, told};

/// A row is asked so.
const ASKED: &[u8] = b"*3\r\n$4\r\nAUTH\r\n$3\r\nann\r\n$2\r\nbc\r\n*2\r\n$3\r\nGET\r\n$0\r\n\r\n";

/// Whether a row is spelled.
fn is_spelled<A: Allocator + Copy>(alloc: A) -> Result<bool, AllocError> {
    let row = [("GET ''", "$-1\r\n")];
    let is_asked = asked(alloc, &row)?.as_slice() == ASKED;
    Ok(is_asked && told(alloc, &row)?.as_slice() == b"$-1\r\n".as_slice())
}

/// Whether the last of many rows is written.
fn are_written<A: Allocator + Copy>(writes: &[Exchange<A>]) -> bool {
    let begin = b"*3\r\n$3\r\nSET\r\n$4\r\nk399\r\n$10000\r\nvvv".as_slice();
    match writes.last() {
        Some(last) => { last.asked.as_slice().starts_with(begin) && last.asked.len() == 10_033 }
        None => false,
    }
}

/// Whether an exchange asks this, and is told so many bytes, the first of which are these.
fn is_exchange<A: Allocator + Copy>(
    exchange: &Exchange<A>,
    asked: &[u8],
    (length, begin): (usize, &[u8]),
) -> bool {
    let is_told = exchange.told.len() == length && exchange.told.as_slice().starts_with(begin);
    is_told && exchange.asked.as_slice() == asked
}

/// All rows are asked for so.
const RANGE: &[u8] = b"*4\r\n$5\r\nRANGE\r\n$0\r\n\r\n$0\r\n\r\n$4\r\n1024\r\n";

/// Whether the last of many rows is read, and then all of them in one reply.
fn are_read<A: Allocator + Copy>(reads: &[Exchange<A>]) -> bool {
    if reads.len() != 401 {
        return false;
    }
    let all = b"*800\r\n$4\r\nk000\r\n$10000\r\nv".as_slice();
    is_exchange(
        &reads[399],
        b"*2\r\n$3\r\nGET\r\n$4\r\nk399\r\n",
        (10_010, b"$"),
    ) && is_exchange(&reads[400], RANGE, (6 + 400 * 10_020, all))
}

/// Whether many rows are spelled.
fn are_spelled<A: Allocator + Copy>(alloc: A) -> Result<bool, AllocError> {
    let writes = writes(alloc)?;
    let are_written = writes.len() == 400 && are_written(writes.as_slice());
    Ok(are_written && are_read(reads(alloc)?.as_slice()))
}

/// Whether every number below the end comes up.
fn are_all_drawn() -> bool {
    let mut random = Random::new(7);
    let mut seen = [false; 5];
    for _ in 0..200 {
        seen[random.below(5) as usize] = true;
    }
    seen == [true; 5]
}

#[test]
fn rows_are_spelled_and_numbers_drawn(rt: HostRuntime) -> Result<(), Fail> {
    assert!(rt; is_spelled(rt.alloc())?);
    assert!(rt; are_spelled(rt.alloc())?);
    assert!(rt; are_all_drawn());
    Ok(())
}
