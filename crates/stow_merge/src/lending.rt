//! A leaf's rows and a batch as lists of what they lend.
ghost use Rattle.std.specs.Prelude.{◌≡◌, ◌+◌, ◌<◌, ◌≤◌, length, map, IfOk};
ghost use Rattle.stow_page.specs.StowTreeModel.Order.{MessagesRise, VersionsRise};
ghost use Rattle.stow_page.specs.StowTreeModel.TreeMessage.{message_of};
ghost use Rattle.stow_page.specs.StowTreeModel.Version.{version_of};

use std::alloc::{AllocError, Allocator};
use stow_message::message_buf::MessageBuf;
use stow_page::rows::Rows;
use stow_page::stow_tree_model::message::Message;
use stow_page::stow_tree_model::version::Version;

/// The versions of rows, lent.
pub(crate) fn lent_rows<'r, A: Allocator + Copy, C: Allocator>(
    alloc: A,
    rows: &'r Rows<C>,
) -> Result<Vec<Version<'r>, A>, AllocError>
    ensures all { IfOk result (λ lent. map version_of lent.items ≡ rows.now) }
    ensures rise { VersionsRise rows.now }
{
    let len = rows.len();
    let mut lent = Vec::new(alloc);
    lent.reserve(len)?;
    for i in 0..len {
        lent.push(rows.get(i))?;
    }
    Ok(lent)
}

/// The messages of a buffer, lent.
pub(crate) fn lent_messages<'b, A: Allocator + Copy, B: Allocator>(
    alloc: A,
    batch: &'b MessageBuf<B>,
) -> Result<Vec<Message<'b>, A>, AllocError>
    ensures all { IfOk result (λ lent. map message_of lent.items ≡ batch.now.messages) }
    ensures rise { MessagesRise batch.now.messages }
{
    let len = batch.len();
    let mut lent = Vec::new(alloc);
    lent.reserve(len)?;
    for i in 0..len {
        lent.push(batch.message(i))?;
    }
    Ok(lent)
}
