//! One element of a request in array form.
ghost use Rattle.std.specs.Prelude.{◌≤◌, ◌++◌};
ghost use Rattle.stow_bytes.specs.Limits.{value_limit};
ghost use Rattle.stow_model.specs.Wire.{bulk_line};
ghost use Rattle.stow_model.specs.Parts.{IsBulkAt};

use crate::number_at::{NumberAt, number};
use crate::stream_fault::StreamFault;
use stow_bytes::limits::VALUE_LIMIT;

/// What is found where an element is to stand.
pub enum BulkAt<'a> {
    /// The word, and what comes after it.
    Bulk(&'a [u8], &'a [u8]),
    /// The bytes begin an element, and aren't all of it.
    More,
    /// They can become none.
    Stuck(StreamFault),
}

/// The element at the front of the bytes.
#[inline(always)]
pub fn bulk(bytes: &[u8]) -> BulkAt<'_>
    ensures { IsBulkAt bytes.now result }
{
    let Some((sign, after)) = bytes.split_first() else {
        return BulkAt::More;
    };
    if *sign != b'$' {
        return BulkAt::Stuck(StreamFault::ExpectedBulk);
    }
    match number(after, VALUE_LIMIT as u32) {
        NumberAt::Number(len, rest) => body(rest, len),
        NumberAt::More => BulkAt::More,
        NumberAt::Stuck => BulkAt::Stuck(StreamFault::InvalidBulkLength),
    }
}

/// The element after its line, which says how many bytes it has.
#[inline(always)]
fn body(rest: &[u8], len: u32) -> BulkAt<'_>
    requires { len ≤ value_limit }
    ensures { IsBulkAt (bulk_line len ++ rest.now) result }
{
    if rest.len() < len as usize {
        return BulkAt::More;
    }
    let (word, after) = rest.split_at(len as usize);
    let Some((carriage_return, after_return)) = after.split_first() else {
        return BulkAt::More;
    };
    if *carriage_return != b'\r' {
        return BulkAt::Stuck(StreamFault::BulkNotEnded);
    }
    let Some((line_feed, later)) = after_return.split_first() else {
        return BulkAt::More;
    };
    if *line_feed != b'\n' {
        return BulkAt::Stuck(StreamFault::BulkNotEnded);
    }
    BulkAt::Bulk(word, later)
}
