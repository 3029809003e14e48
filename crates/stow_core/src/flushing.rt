//! Flushes of all tenants' messages, which are merged outside the lock.
ghost use Rattle.std.specs.Prelude.{◌≡◌, ◌↔◌, None, IfOk, IfErr, IfSome};
ghost use Rattle.stow_dropping.specs.StowNode.Installs.{BatchIsGone};
ghost use Rattle.stow_dropping.specs.StowNode.declared.installed.Installed.TheVariants as installed;
ghost use Rattle.stow_dropping.specs.StowTree.TreeState.{IsRead, tree_messages};
ghost use Rattle.stow_core.specs.State.{Keeps};
ghost use Rattle.stow_core.specs.Flushing.{IsDrained, IsPlannedFrom, TakesResultOf};

use crate::Core;
use std::alloc::{AllocError, Allocator};
use stow_dropping::stow_merge::flush_job::FlushJob;
use stow_dropping::stow_merge::flush_result::FlushResult;
use stow_dropping::stow_node::installed::Installed;
use stow_dropping::stow_node::pick::Pick;

impl<A: Allocator + Copy> Core<A> {
    /// A job for a flush, under the numbers of live snapshots, if a buffer holds a message. No tenant's store changes, and the
    /// messages mean what they did, also where memory is refused.
    pub fn plan(&mut self, alloc: A) -> Result<Option<FlushJob<A>>, AllocError>
        ensures keeps { Keeps self.old self.new }
        ensures same { tree_messages self.new.tree ≡ tree_messages self.old.tree }
        ensures none { IfOk result (λ job. job ≡ None ↔ IsDrained self.old) }
        ensures job { IfOk result (λ job. IfSome job (IsPlannedFrom self.new)) }
    {
        self.tree.plan(alloc, &self.pins, Pick::Fullest)
    }

    /// The same, of the deepest buffer that holds least: one after another is empty then, and gives its block back.
    pub(crate) fn plan_emptiest(&mut self, alloc: A) -> Result<Option<FlushJob<A>>, AllocError>
        ensures { Keeps self.old self.new }
    {
        self.tree.plan(alloc, &self.pins, Pick::Emptiest)
    }

    /// Puts the pages of a job's result into the tree, unless it is stale: then nothing changes. No tenant's store changes.
    /// Where memory is refused the result comes back, and no message has moved.
    pub fn install(
        &mut self,
        alloc: A,
        merge: FlushResult<A>,
    ) -> Result<Installed, (FlushResult<A>, AllocError)>
        ensures keeps { Keeps self.old self.new }
        ensures stale { IfOk result (λ r. r ≡ installed.Stale
            ↔ ¬ (TakesResultOf self.old merge.job)) }
        ensures unmoved { IfOk result (λ r. r ≡ installed.Stale → self.new ≡ self.old) }
        ensures done { IfOk result (λ r. r ≡ installed.Done
            → BatchIsGone merge.job.batch.messages self.new.tree.root) }
        ensures err { IfErr result (λ e. (e.0 ≡ merge) × IsRead self.old.tree self.new.tree) }
    {
        self.tree.install(alloc, merge, &self.pins)
    }
}
