//! A leaf and a batch of messages, planned to be merged apart from the tree.
ghost use Rattle.std.proofs.Props.{props};
ghost use Rattle.stow_merge.specs.Mergeable.{IsMergeable};
ghost use Rattle.stow_merge.specs.Pins.{pins_in};

use crate::covering::{are_rows_covered, is_batch_covered};
use crate::flush_result::FlushResult;
use crate::flush_target::FlushTarget;
use crate::lending::lent_messages;
use crate::merging::merge_into_pages;
use crate::pins::Pins;
use std::alloc::{AllocError, Allocator, Global};
use stow_message::message_buf::MessageBuf;
use stow_page::rows::Rows;

/// A leaf's page, shared with the tree, the batch of messages that stood above it, and the pins of the plan. Page and
/// batch hold no key and number twice, and the merged values are within the limit of values.
#[derive(Drop)]
pub struct FlushJob<A: Allocator = Global> {
    /// The leaf's rows, which share their page's block.
    pub page: Rows<A>,
    pub batch: MessageBuf<A>,
    pub pins: Pins<A>,
    pub target: FlushTarget<A>,
    pub ghost can_merge: { IsMergeable page batch.messages
        (pins_in pins) } by { Prim.hlevel props },
}

impl<A: Allocator + Copy> FlushJob<A> {
    ghost use Rattle.std.specs.Prelude.{◌≡◌, ◌↔◌, IfOk, IfErr, IsTrue};
    ghost use Rattle.stow_merge.specs.Covering.{Covers};
    ghost use Rattle.stow_merge.specs.FlushJobs.{IsMergeOf};

    /// The job of these parts.
    pub fn new(
        page: Rows<A>,
        batch: MessageBuf<A>,
        pins: Pins<A>,
        target: FlushTarget<A>,
    ) -> FlushJob<A>
        requires { IsMergeable page batch.messages (pins_in pins) }
        ensures page { result.page ≡ page }
        ensures batch { result.batch ≡ batch }
        ensures pins { result.pins ≡ pins }
        ensures target { result.target ≡ target }
    {
        FlushJob {
            page,
            batch,
            pins,
            target,
        }
    }

    /// The job with its merge. Where memory was refused the job comes back whole.
    pub fn merge(self, alloc: A) -> Result<FlushResult<A>, (FlushJob<A>, AllocError)>
        ensures ok { IfOk result (λ r. r.job ≡ self) }
        ensures err { IfErr result (λ e. e.0 ≡ self) }
    {
        match self.pages(alloc) {
            Ok(pages) => Ok(FlushResult { job: self, pages }),
            Err(refused) => Err((self, refused)),
        }
    }

    /// Whether its merge keeps all that these pins show: each of a tenant of the job was used, or isn't below any number that the
    /// job has of the tenant.
    pub fn covers(&self, pins: &Pins<A>) -> bool
        ensures { IsTrue result ↔ Covers (pins_in self.now.pins) (pins_in pins.now) self.now.page
            self.now.batch.messages }
    {
        are_rows_covered(&self.pins, pins, &self.page)
            && is_batch_covered(&self.pins, pins, &self.batch)
    }

    /// The pages of the merge.
    fn pages(&self, alloc: A) -> Result<Vec<Rows<A>, A>, AllocError>
        ensures { IfOk result (λ pages. IsMergeOf self.now pages.items) }
    {
        let batch = lent_messages(alloc, &self.batch)?;
        merge_into_pages(
            alloc,
            &self.page,
            batch.as_slice(),
            &self.pins,
            self.target.leaf_target,
        )
    }
}
