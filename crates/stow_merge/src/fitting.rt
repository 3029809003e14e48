//! Whether a leaf's rows and a batch can be merged.
ghost use Rattle.std.specs.Prelude.{◌≡◌, ◌+◌, ◌≤◌, ◌↔◌, length, map, IfOk, IsTrue};
ghost use Rattle.std.specs.List.{flat_map};
ghost use Rattle.stow_page.specs.StowBytes.Limits.{value_limit};
ghost use Rattle.stow_merge.specs.Mergeable.{IsMergeable};
ghost use Rattle.stow_merge.specs.Pages.{HaveShortValues};
ghost use Rattle.stow_merge.specs.Pins.{pins_in};
ghost use Rattle.stow_merge.specs.Writing.{version_in, versions_in};
ghost use Rattle.stow_message.specs.Rising.{AreNew, IsNew};
ghost use Rattle.stow_page.specs.StowTreeModel.Merged.{merged, row_message};
ghost use Rattle.stow_page.specs.StowTreeModel.Op.{bytes_in};
ghost use Rattle.stow_page.specs.StowTreeModel.Order.{MessagesRise};
ghost use Rattle.stow_page.specs.StowTreeModel.TreeMessage.{message_of};
ghost use Rattle.stow_page.specs.StowTreeModel.Value.{IsValue};

use crate::joining::compare;
use crate::kept_version::KeptVersion;
use crate::lending::{lent_messages, lent_rows};
use crate::pins::Pins;
use crate::survey::{Survey, between, survey_of};
use std::alloc::{AllocError, Allocator};
use stow_message::message_buf::MessageBuf;
use stow_page::rows::Rows;
use stow_page::stow_bytes::limits::VALUE_LIMIT;
use stow_page::stow_tree_model::message::Message;

/// Whether each value that a merge of a leaf's rows with a batch keeps is within the limit of values, as
/// `merge_into_pages` requires. `Err` where memory was refused.
pub fn has_short_values<A: Allocator + Copy, B: Allocator + Copy, C: Allocator>(
    alloc: A,
    rows: &Rows<C>,
    batch: &[Message<'_>],
    pins: &Pins<B>,
) -> Result<bool, AllocError>
    requires { MessagesRise (map message_of batch.now) }
    ensures { IfOk result (λ short. IsTrue short
        ↔ HaveShortValues (merged rows.now (map message_of batch.now) (pins_in pins.now))) }
{
    let lent = lent_rows(alloc, rows)?;
    let survey = survey_of(alloc, lent.as_slice(), batch, pins)?;
    Ok(are_short(&survey))
}

/// Whether a leaf's rows and a batch can be merged under pins, as a flush job requires. `Err` where memory was refused.
pub fn is_mergeable<A: Allocator + Copy, B: Allocator + Copy, C: Allocator, D: Allocator>(
    alloc: A,
    rows: &Rows<C>,
    batch: &MessageBuf<D>,
    pins: &Pins<B>,
) -> Result<bool, AllocError>
    ensures { IfOk result (λ can. IsTrue can
        ↔ IsMergeable rows.now batch.now.messages (pins_in pins.now)) }
{
    if !are_new(rows, batch) {
        return Ok(false);
    }
    let lent = lent_messages(alloc, batch)?;
    has_short_values(alloc, rows, lent.as_slice(), pins)
}

/// Whether no message of the batch has the key and number of a version.
fn are_new<C: Allocator, D: Allocator>(rows: &Rows<C>, batch: &MessageBuf<D>) -> bool
    ensures { IsTrue result ↔ AreNew batch.now.messages (map row_message rows.now) }
{
    for i in 0..batch.len() {
        if !is_new(rows, batch.message(i)) {
            return false;
        }
    }
    true
}

/// Whether no version has the message's key and number.
fn is_new<C: Allocator>(rows: &Rows<C>, message: Message<'_>) -> bool
    ensures { IsTrue result ↔ IsNew (message_of message.entry) (map row_message rows.now) }
{
    let count = rows.count_up_to(message.key, message.number);
    if count == 0 {
        return true;
    }
    !compare(&rows.get(count - 1), &message).is_eq()
}

fn are_short<B: Allocator + Copy>(survey: &Survey<'_, B>) -> bool
    ensures { IsTrue result ↔ HaveShortValues (versions_in survey.now survey.now.kept.items) }
{
    let kept = survey.kept.as_slice();
    for i in 0..kept.len() {
        if !is_short(survey, kept[i]) {
            return false;
        }
    }
    true
}

fn is_short<B: Allocator + Copy>(survey: &Survey<'_, B>, version: KeptVersion<'_>) -> bool
    ensures { IsTrue result ↔ IsValue (version_in survey.now version.entry).value }
{
    match version.from {
        None => true,
        Some(from) => carry_a_value(between(survey.joined.as_slice(), from, version.to)),
    }
}

/// Whether what messages carry is together within the limit of values.
fn carry_a_value(messages: &[Message<'_>]) -> bool
    ensures { IsTrue result
        ↔ (length (flat_map (λ m. bytes_in m.op) (map message_of messages.now)) ≤ value_limit) }
{
    let mut left = VALUE_LIMIT;
    for i in 0..messages.len() {
        let size = messages[i].op.carried().len();
        if size > left {
            return false;
        }
        left -= size;
    }
    true
}
