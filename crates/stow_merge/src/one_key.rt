//! What a merge keeps of one key.
ghost use Rattle.std.specs.Prelude.{◌≡◌, ℕ, ◌<◌, ◌++◌, ◌∷◌, [], List, IfOk, IfSome, IsTrue, OnOk, Option, Some, map};
ghost use Rattle.stow_merge.specs.OneKey.{rows_of, folded, left_by, version_with, AreOfOneKey, AreOlder, CanFollow, IsNewest, StaysAlone};
ghost use Rattle.stow_merge.specs.Pages.{HaveShortValues};
ghost use Rattle.stow_merge.specs.Pins.{pins_in};
ghost use Rattle.stow_merge.specs.Writing.{versions_in};
ghost use Rattle.stow_page.specs.StowTreeModel.Merged.{merged, version_at};
ghost use Rattle.stow_page.specs.StowTreeModel.Op.{op_of};
ghost use Rattle.stow_page.specs.StowTreeModel.Operations.{bytes_or_none, outcome};
ghost use Rattle.stow_page.specs.StowTreeModel.Value.{IsValue};
ghost use Rattle.stow_page.specs.StowTreeModel.Order.{MessagesRise, VersionsRise};
ghost use Rattle.stow_page.specs.StowTreeModel.TreeMessage.{message_of};
ghost use Rattle.stow_page.specs.StowTreeModel.Version.{version_of};

use crate::kept_version::KeptVersion;
use crate::pins::Pins;
use crate::survey::{Survey, survey_of};
use crate::writing::{fold, lent_version};
use std::alloc::{AllocError, Allocator};
use stow_page::packed_rows::PackedRows;
use stow_page::stow_tree_model::message::Message;
use stow_page::stow_tree_model::op::Op;
use stow_page::stow_tree_model::version::Version;

/// Adds what a merge keeps of one key's row and messages above the versions of a block. `false` where the block has no room. What more than one
/// message carries is put together in `bytes`.
pub(crate) fn add_key<A: Allocator + Copy, B: Allocator + Copy>(
    packed: &mut PackedRows<A>,
    row: Option<Version<'_>>,
    messages: &[Message<'_>],
    pins: &Pins<B>,
    bytes: &mut Vec<u8, A>,
) -> Result<bool, AllocError>
    requires key { (key : List ℕ) × AreOfOneKey key (rows_of row) (map message_of messages.now) }
    requires can { CanFollow packed.old (rows_of row) (map message_of messages.now)
        (pins_in pins.now) }
    ensures { IfOk result (λ added. IsTrue added → packed.new ≡ packed.old
        ++ merged (rows_of row.entry) (map message_of messages.now) (pins_in pins.now)) }
{
    if let Some(newest) = alone_newest(row, messages, pins) {
        return add_newest(packed, row, messages, newest, bytes);
    }
    match row {
        None => add_survey(packed, &[], messages, pins, bytes),
        Some(row) => add_survey(packed, &[row], messages, pins, bytes),
    }
}

/// The newest message of a key, if it alone stays, with what all of them make of the row's value: no pin is for the key's tenant, and the
/// row is older than they are.
fn alone_newest<'m, B: Allocator + Copy>(
    row: Option<Version<'_>>,
    messages: &[Message<'m>],
    pins: &Pins<B>,
) -> Option<Message<'m>>
    requires { (key : List ℕ) × AreOfOneKey key (rows_of row) (map message_of messages.now) }
    ensures { IfSome result (λ newest. StaysAlone (rows_of row.entry)
        (map message_of messages.now) (pins_in pins.now) (message_of newest)) }
{
    let first = *messages.first()?;
    let newest = *messages.last()?;
    if !pins.of(newest.key.tenant()).is_empty() || !is_older(row, first.number) {
        return None;
    }
    Some(newest)
}

/// Adds the version of a key's newest message, with what all of them make of the row's value, above those of a block. `false` where the
/// block has no room.
fn add_newest<A: Allocator + Copy>(
    packed: &mut PackedRows<A>,
    row: Option<Version<'_>>,
    messages: &[Message<'_>],
    newest: Message<'_>,
    bytes: &mut Vec<u8, A>,
) -> Result<bool, AllocError>
    requires newest { IsNewest (map message_of messages.now) (message_of newest) }
    requires rise { VersionsRise (packed.old ++ version_with (message_of newest)
        (folded (left_by (rows_of row)) (map message_of messages.now))) }
    requires values { HaveShortValues (version_with (message_of newest)
        (folded (left_by (rows_of row)) (map message_of messages.now))) }
    ensures { IfOk result (λ added. IsTrue added → packed.new ≡ packed.old
        ++ version_with (message_of newest.entry)
        (folded (left_by (rows_of row.entry)) (map message_of messages.now))) }
{
    match newest.op {
        Op::Put(value) => add_value(packed, newest, value),
        Op::Gone => Ok(true),
        Op::Append(_) => {
            fold_all(row, messages, bytes)?;
            add_value(packed, newest, bytes.as_slice())
        }
    }
}

/// Adds a message's version with this value above those of a block. `false` where the block has no room.
fn add_value<A: Allocator + Copy>(
    packed: &mut PackedRows<A>,
    message: Message<'_>,
    value: &[u8],
) -> Result<bool, AllocError>
    requires value { IsValue (Some value.now) }
    requires rise { VersionsRise (packed.old
        ++ version_at (message_of message) (Some value.now) ∷ []) }
    ensures { IfOk result (λ added. IsTrue added → packed.new ≡ packed.old
        ++ version_at (message_of message.entry) (Some value.now) ∷ []) }
{
    let version = Version {
        key: message.key,
        number: message.number,
        value: Some(value),
    };
    add_version(packed, version)
}

/// Writes what messages make of a row's value in place of the bytes: none where there is no value.
fn fold_all<A: Allocator + Copy>(
    row: Option<Version<'_>>,
    messages: &[Message<'_>],
    bytes: &mut Vec<u8, A>,
) -> Result<(), AllocError>
    ensures { OnOk result (bytes.new.items ≡ bytes_or_none
        (folded (left_by (rows_of row.entry)) (map message_of messages.now))) }
{
    write_row(row, bytes)?;
    for i in 0..messages.len() {
        apply(messages[i].op, bytes)?;
    }
    Ok(())
}

/// Writes a row's value in place of the bytes, or none.
fn write_row<A: Allocator + Copy>(
    row: Option<Version<'_>>,
    bytes: &mut Vec<u8, A>,
) -> Result<(), AllocError>
    ensures { OnOk result (bytes.new.items ≡ bytes_or_none (left_by (rows_of row.entry))) }
{
    bytes.clear();
    if let Some(row) = row {
        if let Some(value) = row.value {
            bytes.extend_from_slice(value)?;
        }
    }
    Ok(())
}

/// Writes what an operation makes of the bytes in their place.
fn apply<A: Allocator + Copy>(op: Op<'_>, bytes: &mut Vec<u8, A>) -> Result<(), AllocError>
    ensures { (before : Option (List ℕ)) → bytes.old.items ≡ bytes_or_none before
        → OnOk result (bytes.new.items ≡ bytes_or_none (outcome (op_of op.entry) before)) }
{
    if let Op::Append(suffix) = op {
        return bytes.extend_from_slice(suffix);
    }
    bytes.clear();
    bytes.extend_from_slice(op.carried())
}

/// Whether a row is of a lower number, if there is one.
fn is_older(row: Option<Version<'_>>, number: u64) -> bool
    ensures { IsTrue result → AreOlder number (rows_of row.entry) }
{
    match row {
        None => true,
        Some(row) => row.number < number,
    }
}

/// Adds what a merge of rows and messages keeps above the versions of a block. `false` where the block has no room.
fn add_survey<A: Allocator + Copy, B: Allocator + Copy>(
    packed: &mut PackedRows<A>,
    rows: &[Version<'_>],
    messages: &[Message<'_>],
    pins: &Pins<B>,
    bytes: &mut Vec<u8, A>,
) -> Result<bool, AllocError>
    requires rows { VersionsRise (map version_of rows.now) }
    requires batch { MessagesRise (map message_of messages.now) }
    requires can { CanFollow packed.old (map version_of rows.now) (map message_of messages.now)
        (pins_in pins.now) }
    ensures { IfOk result (λ added. IsTrue added → packed.new ≡ packed.old
        ++ merged (map version_of rows.now) (map message_of messages.now) (pins_in pins.now)) }
{
    let survey = survey_of(*bytes.allocator(), rows, messages, pins)?;
    add_kept(packed, &survey, survey.kept.as_slice(), bytes)
}

/// Adds kept versions above those of a block. `false` where the block has no room.
fn add_kept<A: Allocator + Copy>(
    packed: &mut PackedRows<A>,
    survey: &Survey<'_, A>,
    kept: &[KeptVersion<'_>],
    bytes: &mut Vec<u8, A>,
) -> Result<bool, AllocError>
    requires rise { VersionsRise (packed.old ++ versions_in survey.now kept.now) }
    requires values { HaveShortValues (versions_in survey.now kept.now) }
    ensures { IfOk result (λ added. IsTrue added
        → packed.new ≡ packed.old ++ versions_in survey.now kept.now) }
{
    for i in 0..kept.len() {
        let version = kept[i];
        fold(survey, version, bytes)?;
        let version = lent_version(survey, version, bytes.as_slice());
        if !add_version(packed, version)? {
            return Ok(false);
        }
    }
    Ok(true)
}

/// Adds a version above those of a block. `false` where the block has no room.
fn add_version<A: Allocator + Copy>(
    packed: &mut PackedRows<A>,
    version: Version<'_>,
) -> Result<bool, AllocError>
    requires { VersionsRise (packed.old ++ version_of version ∷ []) }
    ensures { IfOk result (λ added. IsTrue added
        → packed.new ≡ packed.old ++ version_of version.entry ∷ []) }
{
    if !packed.has_room_for(version) {
        return Ok(false);
    }
    packed.push(version)?;
    Ok(true)
}
