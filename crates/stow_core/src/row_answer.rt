//! What changes of rows lead to.
ghost use Rattle.std.specs.Prelude.{◌≡◌, [], Option, length};
ghost use Rattle.std.specs.Option.{unwrap_or};
ghost use Rattle.stow_commands.specs.Commands.{condition_of};
ghost use Rattle.stow_commands.specs.Outcomes.{value_of};
ghost use Rattle.stow_core.specs.Writes.{IsRowAnswer};
ghost use Rattle.stow_ledger.specs.Shown.{sized_option};
ghost use Rattle.stow_model.specs.Store.{Version, append_outcome, set_outcome, stored_number, sum_outcome, value_in};

use crate::given::Given;
use std::alloc::{Allocator, Global};
use stow_bytes::limits::VALUE_LIMIT;
use stow_commands::condition::Condition;
use stow_commands::update::{allows, append_reply, sum};
use stow_ledger::sized_version::SizedVersion;
use stow_model::refusal::Refusal;
use stow_model::reply::Reply;
use stow_model::simple_string::SimpleString;

/// What a change of a row leads to, where a value that the request has is lent.
#[derive(Drop)]
pub enum RowAnswer<'a, A: Allocator = Global> {
    /// The row's key is given this, and this is told.
    Written(Given<'a>, Reply<A>),
    /// The row stays as it is, and this is told.
    Unchanged(Reply<A>),
}

/// What a SET leads to by the row's present version.
pub fn set<'a, A: Allocator>(
    value: &'a [u8],
    condition: Condition,
    present: Option<SizedVersion>,
) -> Result<RowAnswer<'a, A>, Refusal>
    ensures { (row : Option Version) → present ≡ sized_option row → IsRowAnswer result
        (value_in row) (set_outcome value.now (condition_of condition) (value_in row)) }
{
    if value.len() > VALUE_LIMIT {
        return Err(Refusal::ValueTooLong);
    }
    if !allows(condition, present.is_some()) {
        return Ok(RowAnswer::Unchanged(Reply::Null));
    }
    let told = Reply::Simple(SimpleString::Ok);
    Ok(RowAnswer::Written(Given::Value(value), told))
}

/// What an APPEND leads to by the row's present version.
pub fn append<'a, A: Allocator>(
    suffix: &'a [u8],
    present: Option<SizedVersion>,
) -> Result<RowAnswer<'a, A>, Refusal>
    ensures { (row : Option Version) → present ≡ sized_option row → IsRowAnswer result
        (value_in row) (append_outcome suffix.now (value_in row)) }
{
    let told = append_reply(suffix, length_or_none(present))?;
    Ok(RowAnswer::Written(Given::Suffix(suffix), told))
}

/// The bytes of a version's value, a missing one counting as empty.
fn length_or_none(present: Option<SizedVersion>) -> usize
    ensures { (row : Option Version) → present ≡ sized_option row
        → length (unwrap_or (value_in row) []) ≡ result }
{
    match present {
        Some(version) => version.length as usize,
        None => 0,
    }
}

/// What an addition leads to by the row's present value.
pub fn add<'a, A: Allocator>(
    amount: i64,
    present: Option<&[u8]>,
) -> Result<RowAnswer<'a, A>, Refusal>
    ensures { IsRowAnswer result (value_of present.entry)
        (sum_outcome (stored_number (value_of present.entry)) amount) }
{
    let sum = sum(amount, present)?;
    let told = Reply::Integer(sum);
    Ok(RowAnswer::Written(Given::Number(sum), told))
}
