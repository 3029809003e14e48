//! What a merge keeps of a leaf's rows and a batch.
ghost use Rattle.std.specs.Prelude.{◌≡◌, ◌++◌, List, map, take, drop, IfOk, OnOk};
ghost use Rattle.std.specs.List.{flat_map};
ghost use Rattle.stow_merge.specs.KeptVersion.{value_between, bytes_between, kept_version};
ghost use Rattle.stow_merge.specs.Pins.{pins_in};
ghost use Rattle.stow_page.specs.StowTreeModel.Merged.{merged};
ghost use Rattle.stow_page.specs.StowTreeModel.Op.{bytes_in};
ghost use Rattle.stow_page.specs.StowTreeModel.Operations.{bytes_or_none};
ghost use Rattle.stow_page.specs.StowTreeModel.Order.{MessagesRise, VersionsRise};
ghost use Rattle.stow_page.specs.StowTreeModel.TreeMessage.{message_of};
ghost use Rattle.stow_page.specs.StowTreeModel.Version.{version_of};

use crate::joining::join;
use crate::keeping::keep;
use crate::kept_version::KeptVersion;
use crate::pins::Pins;
use std::alloc::{AllocError, Allocator, Global};
use stow_page::stow_tree_model::message::Message;
use stow_page::stow_tree_model::version::Version;

/// The messages of a leaf's rows and a batch in order, lent, and the versions that stay of them.
#[derive(Drop)]
pub struct Survey<'a, A: Allocator = Global> {
    pub joined: Vec<Message<'a>, A>,
    pub kept: Vec<KeptVersion<'a>, A>,
}

/// What a merge of a leaf's rows with a batch keeps under pins, in order, before any of it is written.
pub fn survey_of<'a, A: Allocator + Copy, B: Allocator + Copy>(
    alloc: A,
    rows: &[Version<'a>],
    batch: &[Message<'a>],
    pins: &Pins<B>,
) -> Result<Survey<'a, A>, AllocError>
    requires rows { VersionsRise (map version_of rows.now) }
    requires batch { MessagesRise (map message_of batch.now) }
    ensures { IfOk result (λ s. map (kept_version (map message_of s.joined.items)) s.kept.items
        ≡ merged (map version_of rows.now) (map message_of batch.now) (pins_in pins.now)) }
{
    let joined = join(alloc, rows, batch)?;
    let kept = keep(alloc, joined.as_slice(), pins)?;
    Ok(Survey { joined, kept })
}

impl<'a, A: Allocator + Copy> Survey<'a, A> {
    /// Writes the value of a version that stays behind the bytes, each append after what stands below it. Nothing is
    /// written where the key has no value.
    pub fn append_value<B: Allocator + Copy>(
        &self,
        version: KeptVersion<'a>,
        bytes: &mut Vec<u8, B>,
    ) -> Result<(), AllocError>
        ensures { let joined = map message_of self.now.joined.items in
            let value = value_between joined version.entry.from version.entry.to in
            OnOk result (bytes.new.items ≡ bytes.old.items ++ bytes_or_none value) }
    {
        match version.from {
            None => Ok(()),
            Some(from) => append_all(bytes, between(self.joined.as_slice(), from, version.to)),
        }
    }
}

/// The items from one of them to before another.
pub(crate) fn between<T>(items: &[T], from: usize, to: usize) -> &[T]
    ensures { result.now ≡ drop from (take to items.now) }
{
    let front = if to <= items.len() {
        &items[..to]
    } else {
        items
    };
    if from <= front.len() {
        &front[from..]
    } else {
        &[]
    }
}

/// Writes the bytes of messages behind others.
fn append_all<B: Allocator + Copy>(
    bytes: &mut Vec<u8, B>,
    messages: &[Message<'_>],
) -> Result<(), AllocError>
    ensures { OnOk result (bytes.new.items ≡ bytes.old.items
        ++ flat_map (λ m. bytes_in m.op) (map message_of messages.now)) }
{
    for message in messages {
        bytes.extend_from_slice(message.op.carried())?;
    }
    Ok(())
}
