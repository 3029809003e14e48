//! Leaves of the tree.
ghost use Rattle.std.specs.Prelude.{◌≡◌, ℕ, List, map, IfOk};
ghost use Rattle.stow_leaf.specs.LeafRows.{leaf_rows};
ghost use Rattle.stow_leaf.specs.Replacements.{CanReplace, IsJobOf, IsReplacement, TakePlace};
ghost use Rattle.stow_merge.specs.StowTreeModel.Agreement.{TenantPins};
ghost use Rattle.stow_merge.specs.Pins.{pins_in};

use crate::making::{leaves_from, lent_run};
use std::alloc::{AllocError, Allocator, Global};
use stow_merge::flush_result::FlushResult;
use stow_merge::merging::merge_into_pages;
use stow_merge::pins::Pins;
use stow_merge::stow_message::message_buf::MessageBuf;
use stow_merge::stow_page::rows::Rows;
use stow_merge::stow_tree_model::tenant_key::TenantKey;
use stow_merge::stow_tree_model::tenant_key_buf::TenantKeyBuf;

/// The rows of the keys from a fence on, up to the next leaf's.
#[derive(Drop)]
pub struct Leaf<A: Allocator = Global> {
    pub low: TenantKeyBuf<A>,
    pub rows: Rows<A>,
}

impl<A: Allocator + Copy> Leaf<A> {
    /// The leaves that come in its place, one at least, once all messages that a buffer holds for it are merged into it
    /// under pins, cut by a target in bytes of a page. Its keys end at `high`.
    pub fn replacement(
        &self,
        alloc: A,
        buffer: &MessageBuf<A>,
        high: TenantKey<'_>,
        pins: &Pins<A>,
        target: u32,
    ) -> Result<Vec<Leaf<A>, A>, AllocError>
        requires { CanReplace (leaf_rows self.now) high.bytes.now buffer.now.messages
            (pins_in pins.now) target }
        ensures { IfOk result (λ leaves. IsReplacement (leaf_rows self.now) high.entry.bytes.now
            buffer.now.messages (pins_in pins.now) target (map leaf_rows leaves.items)) }
    {
        let _known = buffer.len();
        let low = self.low.as_key();
        let lent = lent_run(alloc, &buffer.in_range(low, high))?;
        let pages = merge_into_pages(alloc, &self.rows, lent.as_slice(), pins, target)?;
        leaves_from(alloc, low, pages.as_slice())
    }

    /// The leaves that come in its place, one at least, once a job's result is put there. They take its place where the job is its
    /// own, and its merge keeps what the present pins show.
    pub fn installed(&self, alloc: A, merge: &FlushResult<A>) -> Result<Vec<Leaf<A>, A>, AllocError>
        ensures { IfOk result (λ leaves. (high : List ℕ) (present : TenantPins)
            → IsJobOf (leaf_rows self.now) high present merge.now.job
            → TakePlace (leaf_rows self.now) high merge.now.job.batch.messages present
            merge.now.job.target.leaf_target (map leaf_rows leaves.items)) }
    {
        leaves_from(alloc, self.low.as_key(), merge.pages.as_slice())
    }

    /// The same leaf once more: its fence copied, its rows shared.
    pub fn share(&self, alloc: A) -> Result<Leaf<A>, AllocError>
        ensures { IfOk result (λ leaf. leaf ≡ self.now) }
    {
        Ok(Leaf {
            low: TenantKeyBuf::from_key(alloc, self.low.as_key())?,
            rows: self.rows.share()?,
        })
    }
}
