//! Changes of one row.
ghost use Rattle.std.specs.Prelude.{◌≡◌, ◌++◌, [], ℕ, List, Option, IfOk, is_some, length};
ghost use Rattle.std.specs.Option.{unwrap_or};
ghost use Rattle.stow_model.specs.Store as meant;
ghost use Rattle.stow_commands.specs.Commands.{condition_of, update_of};
ghost use Rattle.stow_commands.specs.Outcomes.{value_of, IsAppendReply, IsOutcome, IsSum};

use crate::condition::Condition;
use crate::number::number;
use crate::outcome::Outcome;
use crate::outcome_fault::OutcomeFault;
use itoa::Buffer;
use std::alloc::{AllocError, Allocator};
use stow_model::refusal::Refusal;
use stow_model::reply::Reply;
use stow_model::simple_string::SimpleString;
use stow_model::stow_bytes::byte_string::ByteString;
use stow_model::stow_bytes::limits::VALUE_LIMIT;

/// A change of one row, which its present value alone decides.
#[derive(Clone, Copy)]
pub enum Update<'a> {
    /// SET to this value, where the condition holds.
    Set(&'a [u8], Condition),
    /// APPEND of this.
    Append(&'a [u8]),
    /// INCR, DECR or INCRBY by this number.
    Add(i64),
}

impl Update<'_> {
    /// What the change leads to by the row's present value. A missing value counts as empty for an APPEND,
    /// and as 0 for an addition.
    #[tactic(auto, unfolding(stow_model::specs::Store::outcome))]
    pub fn outcome<A: Allocator + Copy>(
        &self,
        alloc: A,
        present: Option<&[u8]>,
    ) -> Result<Outcome<A>, OutcomeFault>
        ensures { IsOutcome result (meant.outcome (update_of self.now) (value_of present.entry)) }
    {
        match *self {
            Update::Set(value, condition) => set(alloc, value, condition, present),
            Update::Append(suffix) => append(alloc, suffix, present),
            Update::Add(amount) => add(alloc, amount, present),
        }
    }
}

fn set<A: Allocator + Copy>(
    alloc: A,
    value: &[u8],
    condition: Condition,
    present: Option<&[u8]>,
) -> Result<Outcome<A>, OutcomeFault>
    ensures { IsOutcome result
        (meant.set_outcome value.now (condition_of condition) (value_of present.entry)) }
{
    if value.len() > VALUE_LIMIT {
        return Err(OutcomeFault::Refused(Refusal::ValueTooLong));
    }
    if !allows(condition, present.is_some()) {
        return Ok(Outcome::Unchanged(Reply::Null));
    }
    let value = ByteString::from_slice(alloc, value)?;
    Ok(Outcome::Written(value, Reply::Simple(SimpleString::Ok)))
}

/// Whether a SET with this condition writes, by whether there is a row.
pub fn allows(condition: Condition, is_there: bool) -> bool
    ensures { (present : Option (List ℕ)) → is_some present ≡ is_there
        → result ≡ meant.allows (condition_of condition) present }
{
    match condition {
        Condition::Always => true,
        Condition::IfMissing => !is_there,
        Condition::IfThere => is_there,
    }
}

fn append<A: Allocator + Copy>(
    alloc: A,
    suffix: &[u8],
    present: Option<&[u8]>,
) -> Result<Outcome<A>, OutcomeFault>
    ensures { IsOutcome result (meant.append_outcome suffix.now (value_of present.entry)) }
{
    match append_reply(suffix, length_of(present)) {
        Ok(told) => Ok(Outcome::Written(joined(alloc, present, suffix)?, told)),
        Err(refusal) => Err(OutcomeFault::Refused(refusal)),
    }
}

/// What an APPEND is told by the length of the row's present value, or why it is refused. Neither that value nor the one that
/// it leads to is asked for.
pub fn append_reply<A: Allocator>(suffix: &[u8], present_len: usize) -> Result<Reply<A>, Refusal>
    ensures { (present : Option (List ℕ)) → length (unwrap_or present []) ≡ present_len
        → IsAppendReply result suffix.now present }
{
    if suffix.len() > VALUE_LIMIT || present_len > VALUE_LIMIT - suffix.len() {
        return Err(Refusal::ValueTooLong);
    }
    Ok(Reply::Integer((present_len + suffix.len()) as i64))
}

/// The length of the row's present value, a missing one counting as empty.
fn length_of(present: Option<&[u8]>) -> usize
    ensures { result ≡ length (unwrap_or (value_of present.entry) []) }
{
    match present {
        Some(value) => value.len(),
        None => 0,
    }
}

/// The row's present value, followed by the suffix.
fn joined<A: Allocator + Copy>(
    alloc: A,
    present: Option<&[u8]>,
    suffix: &[u8],
) -> Result<ByteString<A>, AllocError>
    ensures { IfOk result
        (λ value. value ≡ unwrap_or (value_of present.entry) [] ++ suffix.now) }
{
    let front = match present {
        Some(value) => value,
        None => &[],
    };
    let mut value = Vec::with_capacity(alloc, front.len().saturating_add(suffix.len()))?;
    value.extend_from_slice(front)?;
    value.extend_from_slice(suffix)?;
    Ok(ByteString::from_vec(value))
}

fn add<A: Allocator + Copy>(
    alloc: A,
    amount: i64,
    present: Option<&[u8]>,
) -> Result<Outcome<A>, OutcomeFault>
    ensures { IsOutcome result
        (meant.sum_outcome (meant.stored_number (value_of present.entry)) amount) }
{
    match sum(amount, present) {
        Ok(sum) => {
            let mut buffer = Buffer::new();
            let value = ByteString::from_slice(alloc, buffer.format(sum).as_bytes())?;
            Ok(Outcome::Written(value, Reply::Integer(sum)))
        }
        Err(refusal) => Err(OutcomeFault::Refused(refusal)),
    }
}

/// What the row's present value and the amount add up to, or why that is refused. The text of the sum isn't made.
pub fn sum(amount: i64, present: Option<&[u8]>) -> Result<i64, Refusal>
    ensures { IsSum result
        (meant.sum_outcome (meant.stored_number (value_of present.entry)) amount) }
{
    let stored = stored_number(present).ok_or(Refusal::NotAnInteger)?;
    stored.checked_add(amount).ok_or(Refusal::Overflow)
}

fn stored_number(present: Option<&[u8]>) -> Option<i64>
    ensures { result ≡ meant.stored_number (value_of present.entry) }
{
    match present {
        None => Some(0),
        Some(value) => number(value),
    }
}
