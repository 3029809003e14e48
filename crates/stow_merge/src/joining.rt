//! A leaf's rows and a batch in one order.
ghost use Rattle.std.specs.Prelude.{◌≡◌, ◌+◌, ◌<◌, ◌≤◌, List, map, length, IfOk};
ghost use Rattle.stow_page.specs.StowTreeModel.Merged.{rows_set};
ghost use Rattle.stow_page.specs.StowTreeModel.Messages.{with_all, in_order};
ghost use Rattle.stow_page.specs.StowTreeModel.Order.{place_cmp, place_of, version_place, MessagesRise, VersionsRise};
ghost use Rattle.stow_page.specs.StowTreeModel.TreeMessage.{message_of};
ghost use Rattle.stow_page.specs.StowTreeModel.Version.{version_of};

use std::alloc::{AllocError, Allocator};
use std::cmp::Ordering;
use stow_page::stow_tree_model::message::Message;
use stow_page::stow_tree_model::rows::row_as_message;
use stow_page::stow_tree_model::version::Version;

/// The messages of a leaf's rows and of a batch, in order, lent. Where both have one of a key and number, it is the
/// batch's.
pub fn join<'a, A: Allocator + Copy>(
    alloc: A,
    rows: &[Version<'a>],
    batch: &[Message<'a>],
) -> Result<Vec<Message<'a>, A>, AllocError>
    requires rows { VersionsRise (map version_of rows.now) }
    requires batch { MessagesRise (map message_of batch.now) }
    ensures { IfOk result (λ ms. map message_of ms.items
        ≡ in_order (with_all (rows_set (map version_of rows.now)) (map message_of batch.now))) }
{
    let mut joined = Vec::with_capacity(alloc, rows.len().saturating_add(batch.len()))?;
    let mut i = 0;
    let mut j = 0;
    while i < rows.len() || j < batch.len() {
        if j == batch.len() {
            joined.push(row_as_message(rows[i]))?;
            i += 1;
        } else if i == rows.len() {
            joined.push(batch[j])?;
            j += 1;
        } else {
            match compare(&rows[i], &batch[j]) {
                Ordering::Less => {
                    joined.push(row_as_message(rows[i]))?;
                    i += 1;
                }
                Ordering::Equal => {
                    joined.push(batch[j])?;
                    i += 1;
                    j += 1;
                }
                Ordering::Greater => {
                    joined.push(batch[j])?;
                    j += 1;
                }
            }
        }
    }
    Ok(joined)
}

/// How a version's key and number stand to a message's.
pub(crate) fn compare(row: &Version<'_>, message: &Message<'_>) -> Ordering
    ensures { result
        ≡ place_cmp (version_place (version_of row.now)) (place_of (message_of message.now)) }
{
    let keys = stow_page::stow_bytes::compare::compare(row.key.bytes, message.key.bytes);
    keys.then(row.number.cmp(&message.number))
}
