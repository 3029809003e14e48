//! What writes give their keys.
ghost use Rattle.std.specs.Prelude.{◌≡◌, ◌≤◌, IfSome, Some, length};
ghost use Rattle.stow_bytes.specs.Limits.{value_limit};
ghost use Rattle.stow_core.specs.Writes.{given_op, IsLengthAfter};
ghost use Rattle.stow_tree_model.specs.Op.{Append, op_of};

use itoa::Buffer;
use stow_ledger::sized_version::SizedVersion;
use stow_tree_model::op::Op;

/// What a write does to the value of each of its keys.
#[derive(Clone, Copy)]
pub enum Given<'a> {
    /// The key has this value, which is lent from the request.
    Value(&'a [u8]),
    /// The key has the decimal text of this number.
    Number(i64),
    /// The key's value is followed by this, a missing one counting as empty.
    Suffix(&'a [u8]),
    /// The key has no value any more.
    Gone,
}

impl<'a> Given<'a> {
    /// The same as messages say it. The text of a number is written into the buffer.
    #[inline(always)]
    pub(crate) fn op(self, text: &'a mut Buffer) -> Op<'a>
        ensures { op_of result ≡ given_op self.entry }
    {
        match self {
            Given::Value(value) => Op::Put(value),
            Given::Number(number) => Op::Put(text.format(number).as_bytes()),
            Given::Suffix(suffix) => Op::Append(suffix),
            Given::Gone => Op::Gone,
        }
    }

    /// The bytes of the key's value afterwards, if it has one, by the version that stands there before.
    #[inline(always)]
    pub(crate) fn length_after(&self, before: Option<SizedVersion>) -> Option<u32>
        ensures { IsLengthAfter (given_op self.now) before result }
    {
        match self {
            Given::Value(value) => Some(length_of(value)),
            Given::Number(number) => Some(length_of(Buffer::new().format(*number).as_bytes())),
            Given::Suffix(suffix) => Some(length_with(before, suffix)),
            Given::Gone => None,
        }
    }

    /// The bytes of the key's value afterwards, where later messages don't have it whole.
    pub(crate) fn kept_length(&self, after: Option<u32>) -> Option<u32>
        ensures { IfSome result (λ bytes. after ≡ Some bytes) }
    {
        match self {
            Given::Suffix(_) => after,
            _ => None,
        }
    }
}

/// The bytes of a value that a suffix follows.
fn length_with(before: Option<SizedVersion>, suffix: &[u8]) -> u32
    ensures { IsLengthAfter (Append suffix.now) before (Some result) }
{
    match before {
        None => length_of(suffix),
        Some(version) => version.length.saturating_add(length_of(suffix)),
    }
}

/// The bytes of a value, of which there are few.
pub(crate) fn length_of(value: &[u8]) -> u32
    ensures { length value.now ≤ value_limit → result ≡ length value.now }
{
    u32::try_from(value.len()).unwrap_or(u32::MAX)
}
